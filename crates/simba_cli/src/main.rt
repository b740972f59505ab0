//! The program `simba`: a script on standard input, its transcript or its report on standard output.
#![tactic(auto)]

mod ending;
mod noted;

use command_words::{USAGE, command_of};
use disk_kit::MemDepot;
use ending::{StopWords, code_text, limit_text, status_text, stop_words};
use noted::Noted;
use simba_top::run_simba;
use stab_io::{ReaderSource, WriterSink};
use std::process::ExitCode;
use std::{env, io, str};

// Tells the person at the terminal what ended the run. Nothing where it came to its end.
fn tell(rt: &HostRuntime, status: u8, last: &[u8]) -> io::Result<()> {
    if status == 0 {
        return Ok(());
    }
    match (status, stop_words(str::from_utf8(last).unwrap_or(""))) {
        (3, Some(StopWords { line, number })) => {
            eprintln!(rt; "simba: line {line}: {} (code {number})", code_text(number))
        }
        (7, Some(StopWords { line, number })) => {
            eprintln!(rt;
                "simba: line {line}: {} (limit {number})",
                limit_text(number)
            )
        }
        _ => eprintln!(rt; "simba: {}", status_text(status)),
    }
}

// Tells how the program is called, and what is wrong with these words.
fn tell_usage(rt: &HostRuntime, words: &[String]) -> io::Result<()> {
    match command_of(rt.alloc(), words) {
        Ok(_command) => { eprintln!(rt; "simba: this command isn't built yet") }
        Err(fault) => { eprint!(rt; "simba: {fault}") }
    }
}

// The words behind the program's name. One that isn't UTF-8 is no word of the program.
fn words(rt: &HostRuntime) -> Result<Vec<String>, u8> {
    let args = match env::args(rt) {
        Ok(args) => args,
        Err(e) if e.kind() == io::ErrorKind::InvalidData => return Err(2),
        Err(_) => return Err(6),
    };
    let mut words = Vec::new(rt.alloc());
    for word in args.skip(1) {
        if words.push(word).is_err() {
            return Err(6);
        }
    }
    Ok(words)
}

fn run(rt: &HostRuntime) -> u8 {
    let words = match words(rt) {
        Ok(words) => words,
        Err(2) => {
            let _ = eprint!(rt; "simba: a word isn't UTF-8\n\n{USAGE}");
            return 2;
        }
        Err(status) => {
            let _ = tell(rt, status, &[]);
            return status;
        }
    };
    let mut source = ReaderSource::new(rt.stdin());
    let mut sink = Noted::new(WriterSink::new(rt.stdout()));
    let mut depot = MemDepot::new(rt.alloc(), Vec::new(rt.alloc()));
    let status = run_simba(rt.alloc(), &words, &mut source, &mut sink, &mut depot);
    let _ = if status == 2 {
        tell_usage(rt, &words)
    } else {
        tell(rt, status, sink.last())
    };
    status
}

fn main(rt: HostRuntime) -> ExitCode {
    ExitCode::from(run(&rt))
}
