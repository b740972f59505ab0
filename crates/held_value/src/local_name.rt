use stab_base::Sequence;

/// The name of a chunk at a client: the number of the plan that brought it, and its number among the chunks of that
/// plan, from 0. In the slots of a plan that isn't begun the plan is 0, and the name stands for a chunk that the plan
/// brings. Names are ordered by plan, then by number.
#[derive(Debug, Clone, Copy, PartialEq, Eq, PartialOrd, Ord)]
pub struct LocalName {
    pub plan: u64,
    pub ordinal: u32,
}

/// A list of local names.
pub type LocalNames = Sequence<LocalName>;
