//! Runs of the whole program over bytes in memory.
ghost use Rattle.std.specs.Prelude.{◌≡◌, ℕ, false};

use disk_kit::MemDepot;
use disk_trait::Depot;
use simba_top::run_simba;
use stab_io::{MemSink, MemSource};
use std::alloc::Global;
use std::process::Abort;
use std::test::Fail;

pub(crate) fn texts(alloc: Global, parts: &[&str]) -> Result<Vec<u8>, Fail> {
    let mut text = Vec::new(alloc);
    for part in parts {
        text.extend_from_slice(part.as_bytes())?;
    }
    Ok(text)
}

// The status, and what the sink holds.
pub(crate) fn ends(
    alloc: Global,
    word: &str,
    script: Vec<u8>,
    takes: &[u64],
    puts: &[u64],
) -> Result<(u8, Vec<u8>), Fail> {
    let words = vec![in alloc; String::from_str(alloc, word)?]?;
    let mut source = MemSource::new(script, Vec::from_slice(alloc, takes)?);
    let mut sink = MemSink::new(alloc, Vec::from_slice(alloc, puts)?);
    let mut depot = MemDepot::new(alloc, Vec::new(alloc));
    let status = run_simba(alloc, &words, &mut source, &mut sink, &mut depot);
    Ok((status, sink.into_bytes()))
}

// The same on another depot.
pub(crate) fn ends_on<P: Depot>(
    alloc: Global,
    script: &str,
    depot: &mut P,
) -> Result<(u8, Vec<u8>), Fail>
    requires { (k : ℕ) → (P.state depot.old).is_out k ≡ false }
{
    let words = vec![in alloc; String::from_str(alloc, "run")?]?;
    let mut source = MemSource::new(texts(alloc, &[script])?, Vec::new(alloc));
    let mut sink = MemSink::new(alloc, Vec::new(alloc));
    let status = run_simba(alloc, &words, &mut source, &mut sink, depot);
    Ok((status, sink.into_bytes()))
}

pub(crate) fn check(
    rt: &impl Abort,
    alloc: Global,
    script: &[&str],
    status: u8,
    output: &[&str],
) -> Result<(), Fail> {
    let (ended, written) = ends(alloc, "run", texts(alloc, script)?, &[], &[])?;
    assert_eq!(rt; ended, status);
    assert!(rt; written.as_slice() == texts(alloc, output)?.as_slice());
    Ok(())
}

pub(crate) fn limited(
    rt: &impl Abort,
    alloc: Global,
    script: Vec<u8>,
    status: u8,
    output: &str,
) -> Result<(), Fail> {
    let (ended, written) = ends(alloc, "run", script, &[], &[])?;
    assert_eq!(rt; ended, status, "{output}");
    assert!(rt; written.as_slice() == output.as_bytes(), "{output}");
    Ok(())
}
