ghost use Rattle.std.specs.Prelude.{◌≡◌, IfOk};
ghost use Rattle.load_script.specs.Script as script;

use crate::lines;
use stab_base::Bytes;
use std::alloc::{AllocError, Global};

fn nodes_and_tables(alloc: Global) -> Result<Vec<Bytes>, AllocError>
    ensures { IfOk result (λ lines. lines.items ≡ script.stores_and_tables) }
{
    let first = lines::fixed(alloc, "store S1")?;
    let second = lines::fixed(alloc, "store S2")?;
    let strong = lines::fixed(alloc, "table T1 a strong 64 n:int o:object")?;
    let causal = lines::fixed(alloc, "table T2 b causal 64 n:int o:object")?;
    let eventual = lines::fixed(alloc, "table T3 bar eventual 64 n:int o:object")?;
    Ok(Vec::from_array(alloc, [first, second, strong, causal, eventual])?)
}

/// The lines that declare the Stores, the tables and the clients.
#[tactic(auto, using(crate::proofs::Declaring::one_more), unfolding(crate::specs::Script::declarations))]
pub(crate) fn declarations(alloc: Global) -> Result<Vec<Bytes>, AllocError>
    ensures { IfOk result (λ lines. lines.items ≡ script.declarations) }
{
    let mut lines = nodes_and_tables(alloc)?;
    for client in 1..65 {
        lines.push(lines::client_line(alloc, client)?)?;
    }
    Ok(lines)
}

/// The last line.
pub(crate) fn end(alloc: Global) -> Result<Vec<Bytes>, AllocError>
    ensures { IfOk result (λ lines. lines.items ≡ script.end) }
{
    let line = lines::fixed(alloc, "settle")?;
    lines::alone(alloc, line)
}
