ghost use Rattle.std.specs.Prelude.{◌≡◌};
ghost use Rattle.script_words.specs.declared.code.ValueFault.TheVariants as values;

use std::alloc::{AllocError, AllocFailed};

/// What is wrong with a word. The numbers are those that a script's author is shown.
#[derive(Debug, Clone, Copy, PartialEq, Eq)]
pub enum Code {
    /// The line begins with no verb.
    NoVerb = 1,
    /// There is no such word.
    Missing = 2,
    /// The line has ended before it.
    Surplus = 3,
    /// It isn't a number of its range.
    NoNumber = 4,
    /// It hasn't the form of a node, a table or a name, or is no scheme, no kind or no choice.
    NoName = 5,
    /// It isn't the id of a row.
    NoRow = 6,
    /// It isn't a value.
    NoValue = 7,
    /// What it names isn't declared.
    NotDeclared = 8,
    /// What it declares is declared already.
    Twice = 9,
    /// The line isn't UTF-8.
    NotUtf8 = 10,
    /// It declares behind an event.
    Late = 11,
    /// It belongs to a form that isn't built yet.
    Unbuilt = 12,
}

/// Why a word gives no value.
#[derive(Debug, Drop)]
pub enum ValueFault {
    Code(Code),
    Memory,
}

impl From<AllocError> for ValueFault {
    ghost from_gives = { λ _ e. e ≡ values.Memory };

    fn from(_e: AllocError) -> ValueFault {
        ValueFault::Memory
    }
}

impl From<Code> for ValueFault {
    ghost from_gives = { λ code e. e ≡ values.Code code };

    fn from(code: Code) -> ValueFault {
        ValueFault::Code(code)
    }
}

impl<T: Drop> From<AllocFailed<T>> for ValueFault {
    ghost from_gives = { λ _ e. e ≡ values.Memory };

    fn from(_e: AllocFailed<T>) -> ValueFault {
        ValueFault::Memory
    }
}
