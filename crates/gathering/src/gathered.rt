ghost use Rattle.std.specs.Prelude.{◌≡◌, []};

use std::alloc::Global;

/// A list that is handed over from time to time. The room that was made in it outlasts the hand-over.
#[derive(Drop)]
pub struct Gathered<T: Drop> {
    pub(crate) items: Vec<T>,
    pub(crate) spare: Vec<T>,
    pub(crate) alloc: Global,
    ghost empty: { spare.items ≡ [] },
}
