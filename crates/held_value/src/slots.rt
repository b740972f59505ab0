ghost use Rattle.std.specs.Prelude.{◌≡◌, IfOk};

use crate::content::HeldContent;
use row_value::Pieces;
use stab_base::{Version, WriteNo};
use std::alloc::AllocError;

/// The client's last write of a row that isn't accepted.
#[derive(Debug, Drop)]
pub struct Main {
    pub number: WriteNo,
    /// The version of the row that the client had read.
    pub read: Version,
    pub content: HeldContent,
}

impl Main {
    /// A copy.
    pub fn copy(&self) -> Result<Self, AllocError>
        ensures { IfOk result (λ made. made ≡ self.now) }
    {
        Ok(Main {
            number: self.number,
            read: self.read,
            content: self.content.copy()?,
        })
    }
}

/// The row as the Store had it at a version.
#[derive(Debug, Drop)]
pub struct Shadow {
    pub version: Version,
    pub content: HeldContent,
}

impl Shadow {
    /// A copy.
    pub fn copy(&self) -> Result<Self, AllocError>
        ensures { IfOk result (λ made. made ≡ self.now) }
    {
        Ok(Shadow {
            version: self.version,
            content: self.content.copy()?,
        })
    }
}

/// The write of a row that was sent and isn't answered.
#[derive(Debug, Drop)]
pub struct Out {
    pub number: WriteNo,
    /// The version of the row that the client had read.
    pub read: Version,
    /// The version that the write rests on.
    pub base: Version,
    /// Whether all chunks are sent, since the Store lacked one that was kept.
    pub whole: bool,
    pub content: HeldContent,
    /// How the request spells the content's chunks, in their order.
    pub pieces: Pieces,
}

impl Out {
    /// A copy.
    pub fn copy(&self) -> Result<Self, AllocError>
        ensures { IfOk result (λ made. made ≡ self.now) }
    {
        Ok(Out {
            number: self.number,
            read: self.read,
            base: self.base,
            whole: self.whole,
            content: self.content.copy()?,
            pieces: self.pieces.clone()?,
        })
    }
}

/// What a client keeps of a row.
#[derive(Debug, Drop)]
pub struct Slots {
    /// The last write that isn't accepted.
    pub main: Option<Main>,
    /// The row as it was last read from the Store.
    pub shadow: Option<Shadow>,
    /// The write that waits for its answer.
    pub out: Option<Out>,
    /// The Store's row that is in conflict with the last write.
    pub conflict: Option<Shadow>,
}

impl Slots {
    /// Nothing is kept.
    pub const EMPTY: Slots = Slots {
        main: None,
        shadow: None,
        out: None,
        conflict: None,
    };

    /// A copy.
    pub fn copy(&self) -> Result<Self, AllocError>
        ensures { IfOk result (λ made. made ≡ self.now) }
    {
        Ok(Slots {
            main: copy_main(&self.main)?,
            shadow: copy_shadow(&self.shadow)?,
            out: copy_out(&self.out)?,
            conflict: copy_shadow(&self.conflict)?,
        })
    }
}

/// A copy of the last write, if there is one.
pub fn copy_main(main: &Option<Main>) -> Result<Option<Main>, AllocError>
    ensures { IfOk result (λ made. made ≡ main.now) }
{
    match main {
        None => Ok(None),
        Some(main) => Ok(Some(main.copy()?)),
    }
}

/// A copy of a row of the Store, if there is one.
pub fn copy_shadow(shadow: &Option<Shadow>) -> Result<Option<Shadow>, AllocError>
    ensures { IfOk result (λ made. made ≡ shadow.now) }
{
    match shadow {
        None => Ok(None),
        Some(shadow) => Ok(Some(shadow.copy()?)),
    }
}

/// A copy of the write that waits for its answer, if there is one.
pub fn copy_out(out: &Option<Out>) -> Result<Option<Out>, AllocError>
    ensures { IfOk result (λ made. made ≡ out.now) }
{
    match out {
        None => Ok(None),
        Some(out) => Ok(Some(out.copy()?)),
    }
}
