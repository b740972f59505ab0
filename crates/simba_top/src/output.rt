//! What the words of the program ask for.
ghost use Rattle.std.specs.Prelude.{◌≡◌, map, IfOk, IfErr};
ghost use Rattle.std.specs.String.{string_bytes};
ghost use Rattle.simba_top.specs.Outputs.{asked};
ghost use Rattle.simba_top.specs.declared.stop.Stop.TheVariants as stops;

use crate::stop::Stop;
use command_words::{Command, WordsFault, command_of};
use std::alloc::Global;

/// What is written of a run.
#[derive(Debug, Clone, Copy, PartialEq, Eq)]
pub enum Output {
    /// The lines of its transcript, while it goes on.
    Transcript,
    /// One line of JSON at its end.
    Report,
}

/// What the words ask for. None where they are no command that is built.
pub(crate) fn asked(alloc: Global, words: &[String]) -> Result<Option<Output>, Stop>
    ensures ok { IfOk result (λ output. output ≡ asked (map string_bytes words.now)) }
    ensures memory { IfErr result (λ stop. stop ≡ stops.Memory) }
{
    match command_of(alloc, words) {
        Ok(Command::Run) => Ok(Some(Output::Transcript)),
        Ok(Command::Report) => Ok(Some(Output::Report)),
        Ok(Command::Load { .. }) | Err(WordsFault::Usage { .. }) => Ok(None),
        Err(WordsFault::Memory) => Err(Stop::Memory),
    }
}
