//! What a request by its pieces comes to by what the table has of its row.
ghost use Rattle.std.specs.Prelude.{◌≡◌, ◌<◌, true, false, IfOk};
ghost use Rattle.assemblies.specs.Gathering.{is_whole};
ghost use Rattle.step_tables.specs.StoreMoves.{takes};
ghost use Rattle.part_store.specs.Gathered.{head_in, gathering_in};
ghost use Rattle.part_store.specs.Weighing.{answered_by, made_by, IsWeighed};

use crate::view::RowView;
use crate::waiting::{Waiting, request_with};
use assemblies::Sent;
use part_contents::{has_held, joined, sized};
use row_value::Scheme;
use stab_base::Version;
use std::alloc::{AllocError, Global};
use step_tables::Message;
use table_model::SyncRequest;

/// What a request comes to.
#[derive(Drop)]
pub(crate) enum Weighed {
    Whole(Message),
    Waits(Waiting),
}

// Whether a scheme takes a write over a base, where the row has this version.
fn takes(scheme: Scheme, base: Version, current: Version) -> bool
    ensures { result ≡ takes scheme base current }
{
    match scheme {
        Scheme::Strong | Scheme::Causal => base == current,
        Scheme::Eventual => true,
    }
}

// Whether a request is answered at once, whatever its bytes are.
fn is_answered(
    alloc: Global,
    scheme: Scheme,
    chunk: u32,
    view: &RowView,
    head: &SyncRequest,
) -> Result<bool, AllocError>
    requires { 0 < chunk }
    ensures { IfOk result (λ is. is ≡ answered_by scheme chunk view.now (head_in head.now)) }
{
    if view.yours.number == head.number || head.number < view.yours.number {
        return Ok(true);
    }
    if !takes(scheme, head.base, view.version) {
        return Ok(true);
    }
    let chunks = view.chunks.as_slice();
    let has = has_held(alloc, chunks, Sent::Fresh, chunk, &head.content)?;
    Ok(!has)
}

// A request whose chunks have come.
fn complete(alloc: Global, view: &RowView, x: Waiting) -> Result<Message, AllocError>
    requires { is_whole x.came ≡ true }
    ensures { (scheme : _) (chunk : _) → answered_by scheme chunk view.now (head_in x.head) ≡ false
        → IfOk result (λ whole. IsWeighed (made_by scheme chunk view.now (gathering_in x)) (gathering_in x)
        (Weighed.Whole whole)) }
{
    let Waiting { head, came } = x;
    let came = came.into_chunks();
    let chunks = view.chunks.as_slice();
    let content = joined(alloc, chunks, Sent::Fresh, &head.content, &came)?;
    request_with(alloc, &head, content)
}

/// What a request comes to, with what has come of it: it is answered at once or complete, or waits.
pub(crate) fn weigh(
    alloc: Global,
    scheme: Scheme,
    chunk: u32,
    view: &RowView,
    x: Waiting,
) -> Result<Weighed, AllocError>
    requires { 0 < chunk }
    ensures { IfOk result (IsWeighed (made_by scheme chunk view.now (gathering_in x)) (gathering_in x)) }
{
    if is_answered(alloc, scheme, chunk, view, &x.head)? {
        let content = sized(alloc, &x.head.content)?;
        return Ok(Weighed::Whole(request_with(alloc, &x.head, content)?));
    }
    if !x.came.is_whole() {
        return Ok(Weighed::Waits(x));
    }
    Ok(Weighed::Whole(complete(alloc, view, x)?))
}
