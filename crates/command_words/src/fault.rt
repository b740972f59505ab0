//! What a person is told whose words are no command.
ghost use Rattle.std.specs.Prelude.{◌≡◌};
ghost use Rattle.clap.specs.Words.{kind_of};
ghost use Rattle.command_words.specs.declared.fault.WordsFault.TheVariants as faults;

use clap::error::ErrorKind;
use std::alloc::{AllocError, Global};
use thiserror::Error;

/// The commands, each with what it does.
pub const USAGE: &str = "\
usage: simba run < SCRIPT       carry out a script and write its transcript
       simba report < SCRIPT    carry out a script and write a report of its tables as JSON
       simba load N             not built yet: carry out the script that a number makes, below 2^64
The guide is docs/GUIDE.md.
";

/// Why words aren't carried out.
#[derive(Debug, Drop, Error)]
pub enum WordsFault {
    /// The words are no command. The text says what is wrong with them, and then the usage.
    #[error("{text}")]
    Usage { text: String },
    #[error("error: out of memory\n")]
    Memory,
}

impl From<AllocError> for WordsFault {
    ghost from_gives = { λ _ e. e ≡ faults.Memory };

    fn from(_e: AllocError) -> WordsFault {
        WordsFault::Memory
    }
}

fn told_text(alloc: Global, message: &str) -> Result<String, AllocError> {
    let mut text = String::from_str(alloc, message)?;
    text.push_str("\n")?;
    text.push_str(USAGE)?;
    Ok(text)
}

/// The fault that tells this, and then the usage.
pub(crate) fn told(alloc: Global, message: &str) -> WordsFault {
    match told_text(alloc, message) {
        Ok(text) => WordsFault::Usage { text },
        Err(e) => e.into(),
    }
}

/// What a failed parse tells.
pub(crate) fn told_by(alloc: Global, error: &clap::Error) -> WordsFault
    ensures { kind_of error.now ≡ ErrorKind.OutOfMemory → result ≡ faults.Memory }
{
    if error.kind() == ErrorKind::OutOfMemory {
        return WordsFault::Memory;
    }
    match format!(in alloc; "{error}") {
        Ok(message) => told(alloc, &message),
        Err(e) => e.into(),
    }
}
