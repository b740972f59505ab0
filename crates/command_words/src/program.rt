//! The program's words, as `clap` reads them.
ghost use Rattle.std.specs.Prelude.{◌≡◌, IfOk};
ghost use Rattle.clap.specs.Words.{app_of};
ghost use Rattle.command_words.specs.Program.{program};

use clap::{Arg, Command};
use std::alloc::{AllocError, Global};

/// The program with a subcommand for each of its words. Its name isn't among the words, and none of them is a flag.
pub(crate) fn program<'a>(alloc: Global) -> Result<Command<'a>, AllocError>
    ensures { IfOk result (λ made. app_of made ≡ program) }
{
    let number = Arg::new(alloc, "N").required(true);
    let load = Command::new(alloc, "load").arg(number)?;
    Command::new(alloc, "simba")
        .no_binary_name(true)
        .disable_help_flag(true)
        .disable_help_subcommand(true)
        .subcommand_required(true)
        .subcommand(Command::new(alloc, "run"))?
        .subcommand(Command::new(alloc, "report"))?
        .subcommand(load)
}
