ghost use Rattle.std.specs.Prelude.{◌≡◌, ◌⊎◌, Some, None, IfOk, IfErr, MatchResult, false, map};
ghost use Rattle.std.specs.List.{list_any};
ghost use Rattle.clap.specs.Words.{subcommand_rows_of};
ghost use Rattle.command_words.specs.Commands.{command_of, IsCause};
ghost use Rattle.command_words.specs.Program.{command_in, is_flag, FailsAt, IsFoundIn};
ghost use Rattle.command_words.specs.declared.fault.WordsFault.TheVariants as faults;

use crate::fault::{WordsFault, told, told_by};
use crate::number::number_of;
use crate::program::program;
use clap::{ArgMatches, Error};
use std::alloc::Global;
use std::convert::AsStr;

/// What the program is to do.
#[derive(Debug, Clone, Copy, PartialEq, Eq)]
pub enum Command {
    /// Carry out a script.
    Run,
    /// Carry out a script and report its tables.
    Report,
    /// Carry out the script that this number makes.
    Load { number: u64 },
}

fn is_flag(word: &str) -> bool
    ensures { result ≡ is_flag word.now }
{
    match word.as_bytes().first() {
        Some(first) => *first == b'-',
        None => false,
    }
}

fn has_flag<S: AsStr>(words: &[S]) -> bool
    ensures { result ≡ list_any (λ word. is_flag (S.text word)) words.now }
{
    words.iter().any(|word| is_flag(word.as_str()))
}

// The command that the words of a parse name.
fn command_in(matches: &ArgMatches<'_>) -> Option<Command>
    ensures { result ≡ command_in (subcommand_rows_of matches.now) }
{
    let (name, words) = matches.subcommand()?;
    match name {
        "run" => Some(Command::Run),
        "report" => Some(Command::Report),
        "load" => {
            let number = number_of(words.get_str("N")?)?;
            Some(Command::Load { number })
        }
        _ => None,
    }
}

// What `clap` reads of words none of which is a flag.
fn parsed<'a, S: AsStr>(alloc: Global, words: &'a [S]) -> Result<ArgMatches<'a>, Error>
    requires { list_any (λ word. is_flag (S.text word)) words.now ≡ false }
    ensures { MatchResult result (IsFoundIn (map S.text words.now)) (FailsAt (map S.text words.now)) }
{
    let program = program(alloc)?;
    program.try_get_matches_from(words)
}

/// The command that the words behind the program's name are.
pub fn command_of<S: AsStr>(alloc: Global, words: &[S]) -> Result<Command, WordsFault>
    ensures ok { IfOk result (λ command. command_of (map S.text words.now) ≡ Some command) }
    ensures usage { IfErr result (IsCause (map S.text words.now)) }
    ensures memory { IfErr result (λ fault. (fault ≡ faults.Memory) ⊎ (command_of (map S.text words.now) ≡ None)) }
{
    if has_flag(words) {
        return Err(told(alloc, "error: no word begins with '-'\n"));
    }
    let matches = match parsed(alloc, words) {
        Ok(matches) => matches,
        Err(error) => return Err(told_by(alloc, &error)),
    };
    match command_in(&matches) {
        Some(command) => Ok(command),
        None => Err(told(
            alloc,
            "error: N is a number from 0 to 18446744073709551615, without leading zeros\n",
        )),
    }
}
