ghost use Rattle.std.specs.Prelude.{◌≡◌, ◌<◌, [], ◌∷◌, IfOk};
ghost use Rattle.std.specs.String.{string_bytes};
ghost use Rattle.load_script.specs.Draws.{Drawn};
ghost use Rattle.load_script.specs.Script as script;
ghost use Rattle.load_script.specs.Text.{sync_line, pull_line, delete_line};

use crate::draws::Draws;
use crate::lines;
use stab_base::Bytes;
use std::alloc::{AllocError, Global};

/// Where a round happens: its client, its table and its row.
#[derive(Clone, Copy)]
struct Place {
    client: u8,
    table: u8,
    row: u8,
}

fn values(alloc: Global, draws: &mut Draws) -> Result<String, AllocError>
    ensures { IfOk result (λ values. script.values_of draws.old.x
        ≡ record { made = string_bytes values; x = draws.new.x }) }
{
    let number = draws.pick(1000);
    let len = draws.pick(513);
    let byte = draws.pick(256) as u8;
    lines::values_text(alloc, number, len, byte)
}

fn write_at(alloc: Global, draws: &mut Draws, place: Place) -> Result<Bytes, AllocError>
    ensures { IfOk result (λ line. script.write_of place.client place.table place.row draws.old.x
        ≡ record { made = line; x = draws.new.x }) }
{
    let Place { client, table, row } = place;
    let values = values(alloc, draws)?;
    lines::write_line(alloc, client, table, row, values.as_str())
}

fn delivery(alloc: Global, draws: &mut Draws, sent: u64) -> Result<Bytes, AllocError>
    requires { 0 < sent }
    ensures { IfOk result (λ line. script.delivery_of sent draws.old.x ≡ record { made = line; x = draws.new.x }) }
{
    lines::deliver_line(alloc, draws.pick(sent))
}

fn crash(
    alloc: Global,
    draws: &mut Draws,
    node: &str,
    line: Bytes,
) -> Result<Vec<Bytes>, AllocError>
    ensures { IfOk result (λ lines. script.crash_of node.now line draws.old.x
        ≡ record { made = lines.items; x = draws.new.x }) }
{
    let step = draws.pick(5);
    let luck = draws.pick(2);
    lines::crash_lines(alloc, node, line, step, luck)
}

fn client_crash(alloc: Global, draws: &mut Draws, place: Place) -> Result<Vec<Bytes>, AllocError>
    ensures { IfOk result (λ lines. script.client_crash place.client place.table place.row draws.old.x
        ≡ record { made = lines.items; x = draws.new.x }) }
{
    let name = lines::client_name(alloc, place.client)?;
    let line = write_at(alloc, draws, place)?;
    crash(alloc, draws, name.as_str(), line)
}

fn store_crash(
    alloc: Global,
    draws: &mut Draws,
    sent: u64,
    store: u8,
) -> Result<Vec<Bytes>, AllocError>
    requires { 0 < sent }
    ensures { IfOk result (λ lines. script.delivered_crash sent store draws.old.x
        ≡ record { made = lines.items; x = draws.new.x }) }
{
    let name = lines::store_name(alloc, store)?;
    let line = delivery(alloc, draws, sent)?;
    crash(alloc, draws, name.as_str(), line)
}

fn write(alloc: Global, draws: &mut Draws, place: Place) -> Result<Vec<Bytes>, AllocError>
    ensures { IfOk result (λ lines. script.alone (script.write_of place.client place.table place.row) draws.old.x
        ≡ record { made = lines.items; x = draws.new.x }) }
{
    let line = write_at(alloc, draws, place)?;
    lines::alone(alloc, line)
}

fn sync(alloc: Global, client: u8, table: u8) -> Result<Vec<Bytes>, AllocError>
    ensures { IfOk result (λ lines. lines.items ≡ sync_line client table ∷ []) }
{
    let line = lines::sync_line(alloc, client, table)?;
    lines::alone(alloc, line)
}

fn pull(alloc: Global, client: u8, table: u8) -> Result<Vec<Bytes>, AllocError>
    ensures { IfOk result (λ lines. lines.items ≡ pull_line client table ∷ []) }
{
    let line = lines::pull_line(alloc, client, table)?;
    lines::alone(alloc, line)
}

fn delete(alloc: Global, client: u8, table: u8, row: u8) -> Result<Vec<Bytes>, AllocError>
    ensures { IfOk result (λ lines. lines.items ≡ delete_line client table row ∷ []) }
{
    let line = lines::delete_line(alloc, client, table, row)?;
    lines::alone(alloc, line)
}

fn deliver(
    alloc: Global,
    draws: &mut Draws,
    place: Place,
    sent: u64,
) -> Result<Vec<Bytes>, AllocError>
    ensures { IfOk result (λ lines. script.deliver_or_pull place.client place.table sent draws.old.x
        ≡ record { made = lines.items; x = draws.new.x }) }
{
    if sent == 0 {
        return pull(alloc, place.client, place.table);
    }
    let line = delivery(alloc, draws, sent)?;
    lines::alone(alloc, line)
}

fn crash_a_store(
    alloc: Global,
    draws: &mut Draws,
    place: Place,
    sent: u64,
) -> Result<Vec<Bytes>, AllocError>
    ensures { IfOk result (λ lines. script.store_crash place.client place.table sent draws.old.x
        ≡ record { made = lines.items; x = draws.new.x }) }
{
    let store = draws.one_of(2);
    if sent == 0 {
        return sync(alloc, place.client, place.table);
    }
    store_crash(alloc, draws, sent, store)
}

#[tactic(auto, unfolding(crate::specs::Script::act))]
fn act(
    alloc: Global,
    draws: &mut Draws,
    place: Place,
    sent: u64,
    kind: u64,
) -> Result<Vec<Bytes>, AllocError>
    ensures { IfOk result (λ lines. script.act sent place.client place.table place.row kind draws.old.x
        ≡ record { made = lines.items; x = draws.new.x }) }
{
    let Place { client, table, row } = place;
    match kind {
        0..=3 => write(alloc, draws, place),
        4 => sync(alloc, client, table),
        5 => pull(alloc, client, table),
        6 => delete(alloc, client, table, row),
        7 => deliver(alloc, draws, place, sent),
        8 => client_crash(alloc, draws, place),
        _ => crash_a_store(alloc, draws, place, sent),
    }
}

/// The lines of a round, and x behind it.
#[tactic(auto, unfolding(crate::specs::Script::round))]
pub(crate) fn round(alloc: Global, x: u64, sent: u64) -> Result<(Vec<Bytes>, u64), AllocError>
    ensures { IfOk result (λ found. script.round sent x ≡ record { made = found.0.items; x = found.1 }) }
{
    let mut draws = Draws { x };
    let client = draws.one_of(64);
    let table = draws.one_of(3);
    let row = draws.one_of(32);
    let kind = draws.pick(10);
    let lines = act(alloc, &mut draws, Place { client, table, row }, sent, kind)?;
    Ok((lines, draws.x))
}
