//! What a node gathers, with room for what its writes are still to add.
ghost use Rattle.std.specs.Prelude.{◌≡◌, []};

use std::alloc::Global;

/// A list that is handed over from time to time. The room that was made in it outlasts one hand-over.
#[derive(Drop)]
pub(crate) struct Gathered<T: Drop> {
    pub(crate) items: Vec<T>,
    pub(crate) spare: Vec<T>,
    pub(crate) alloc: Global,
    ghost empty: { spare.items ≡ [] },
}
