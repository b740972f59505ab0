ghost use Rattle.std.specs.Prelude.{◌≡◌, IfOk, [], ◌∷◌};
ghost use Rattle.client_tables.specs.Change.{unchanged};

use held_value::{Slots, Tell, Tells};
use stab_base::Sequence;
use std::alloc::{AllocError, Global};

/// What is sent when a change is done.
#[derive(Debug, Clone, Copy, PartialEq, Eq)]
pub enum Sending {
    /// Nothing.
    Nothing,
    /// The row's write that waits for its answer.
    Request,
    /// A request for what has changed since the table's position.
    Pull,
}

/// What an event makes of a row: its slots, where they change, what is told, in order, and what is sent.
#[derive(Debug, Drop)]
pub struct Change {
    pub slots: Option<Slots>,
    pub tells: Tells,
    pub sends: Sending,
}

/// No slot changes and nothing is told.
pub(crate) fn unchanged(alloc: Global, sends: Sending) -> Change
    ensures { result ≡ unchanged sends }
{
    Change {
        slots: None,
        tells: Sequence::new(alloc),
        sends,
    }
}

/// One thing is told.
pub(crate) fn one_tell(alloc: Global, tell: Tell) -> Result<Tells, AllocError>
    ensures { IfOk result (λ tells. tells ≡ tell ∷ []) }
{
    let mut tells = Sequence::new(alloc);
    tells.push(tell)?;
    Ok(tells)
}

/// Two things are told.
pub(crate) fn two_tells(alloc: Global, first: Tell, second: Tell) -> Result<Tells, AllocError>
    ensures { IfOk result (λ tells. tells ≡ first ∷ second ∷ []) }
{
    let mut tells = one_tell(alloc, first)?;
    tells.push(second)?;
    Ok(tells)
}
