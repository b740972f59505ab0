ghost use Rattle.std.specs.Prelude.{◌≡◌, []};

use std::alloc::Global;
use step_tables::Addressed;
use table_model::Fact;

/// Which write tells what is owed.
#[derive(Debug, Clone, Copy, PartialEq, Eq)]
pub(crate) enum When {
    /// The commit of a plan.
    AtCommit,
    /// The last write.
    AtEnd,
}

/// What the writes that are to be done tell and send. What is sent comes with the last one.
#[derive(Debug, Drop)]
pub(crate) struct Owed {
    pub(crate) when: When,
    pub(crate) facts: Vec<Fact>,
    pub(crate) messages: Vec<Addressed>,
}

impl Owed {
    /// Nothing.
    pub(crate) fn nothing(alloc: Global) -> Owed
        ensures facts { result.facts.items ≡ [] }
        ensures messages { result.messages.items ≡ [] }
    {
        Owed {
            when: When::AtEnd,
            facts: Vec::new(alloc),
            messages: Vec::new(alloc),
        }
    }
}
