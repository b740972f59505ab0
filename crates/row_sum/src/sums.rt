ghost use Rattle.std.specs.Prelude.{◌≡◌, map, IfOk};
ghost use Rattle.table_model.specs.Sums.{object_sum, row_sum, sum_answer};

use row_value::{Cells, Content, Sequence, SharedBytes, Version, WriteNo};
use sha2::{Digest, Sha256};
use std::alloc::{AllocError, Global};
use table_model::{Answer, ObjectSum, RowSum, Shown, ShownSum};

fn object_sum(object: &SharedBytes) -> ObjectSum
    ensures { result ≡ object_sum object.now }
{
    ObjectSum {
        len: object.len(),
        sha256: Sha256::digest(object.as_slice()),
    }
}

fn object_sums(alloc: Global, objects: &[SharedBytes]) -> Result<Vec<ObjectSum>, AllocError>
    ensures { IfOk result (λ sums. sums.items ≡ map object_sum objects.now) }
{
    objects
        .iter()
        .map(|object| object_sum(object))
        .collect(alloc)
}

fn copied(cells: &Cells) -> Result<Cells, AllocError>
    ensures { IfOk result (λ made. made ≡ cells.now) }
{
    cells.clone()
}

// None where the content has no object.
#[tactic(auto, using(crate::proofs::Filled::filled))]
fn row_sum(alloc: Global, content: &Content) -> Result<Option<RowSum>, AllocError>
    ensures { IfOk result (λ row. row ≡ row_sum content.now) }
{
    match content {
        Content::Row { cells, objects } if objects.len() > 0 => Ok(Some(RowSum {
            cells: copied(cells)?,
            objects: Sequence::from_vec(object_sums(alloc, objects.as_slice())?),
        })),
        _ => Ok(None),
    }
}

/// The answer to a `sum` of a row that the Store had with this content at this version. Where the content has objects,
/// none of them is copied.
pub fn clean_sum(alloc: Global, version: Version, content: &Content) -> Result<Answer, AllocError>
    ensures { IfOk result (λ answer. answer ≡ sum_answer (Shown.Clean version content.now)) }
{
    match row_sum(alloc, content)? {
        Some(row) => Ok(Answer::Sums(ShownSum::Clean { version, row })),
        None => Ok(Answer::Shown(Shown::Clean {
            version,
            content: content.copy()?,
        })),
    }
}

/// The answer to a `sum` of a row that the client's own write of this number gave this content. Where the content has
/// objects, none of them is copied.
pub fn mine_sum(alloc: Global, number: WriteNo, content: &Content) -> Result<Answer, AllocError>
    ensures { IfOk result (λ answer. answer ≡ sum_answer (Shown.Mine number content.now)) }
{
    match row_sum(alloc, content)? {
        Some(row) => Ok(Answer::Sums(ShownSum::Mine { number, row })),
        None => Ok(Answer::Shown(Shown::Mine {
            number,
            content: content.copy()?,
        })),
    }
}

/// The answer to a `sum` of a row that the client's own write of this number gave this content, and that is in conflict
/// with the Store's row at this version. Where the content has objects, none of them is copied.
pub fn conflict_sum(
    alloc: Global,
    number: WriteNo,
    version: Version,
    content: &Content,
) -> Result<Answer, AllocError>
    ensures { IfOk result (λ answer. answer ≡ sum_answer (Shown.Conflict number version content.now)) }
{
    match row_sum(alloc, content)? {
        Some(row) => Ok(Answer::Sums(ShownSum::Conflict {
            number,
            version,
            row,
        })),
        None => Ok(Answer::Shown(Shown::Conflict {
            number,
            version,
            content: content.copy()?,
        })),
    }
}
