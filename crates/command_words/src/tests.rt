use crate::{Command, USAGE, WordsFault, command_of};
use std::alloc::Global;
use std::test::Fail;

const VALID: [(&[&str], Command); 8] = [
    (&["run"], Command::Run),
    (&["report"], Command::Report),
    (&["load", "0"], Command::Load { number: 0 }),
    (&["load", "7"], Command::Load { number: 7 }),
    (&["load", "10"], Command::Load { number: 10 }),
    (
        &["load", "1234567890"],
        Command::Load {
            number: 1_234_567_890,
        },
    ),
    (
        &["load", "9999999999999999999"],
        Command::Load {
            number: 9_999_999_999_999_999_999,
        },
    ),
    (
        &["load", "18446744073709551615"],
        Command::Load { number: u64::MAX },
    ),
];

const INVALID: [&[&str]; 40] = [
    &[],
    &[""],
    &["-"],
    &["--"],
    &["-h"],
    &["--help"],
    &["--version"],
    &["help"],
    &["Run"],
    &["RUN"],
    &["ru"],
    &["runs"],
    &[" run"],
    &["run "],
    &["run\n"],
    &["live"],
    &["check"],
    &["simba"],
    &["7"],
    &["run", ""],
    &["run", "x"],
    &["run", "7"],
    &["run", "run"],
    &["run", "--help"],
    &["report", "x"],
    &["report", "run"],
    &["load"],
    &["load", ""],
    &["load", "x"],
    &["load", "07"],
    &["load", "00"],
    &["load", " 7"],
    &["load", "7 "],
    &["load", "+7"],
    &["load", "-7"],
    &["load", "7.0"],
    &["load", "18446744073709551616"],
    &["load", "100000000000000000000"],
    &["load", "7", "8"],
    &["load 7"],
];

#[test]
fn valid_words(rt: HostRuntime) -> Result<(), Fail> {
    for (words, command) in VALID.as_slice() {
        assert!(rt; command_of(rt.alloc(), words)? == *command);
    }
    Ok(())
}

fn is_told(alloc: Global, words: &[&str]) -> bool {
    match command_of(alloc, words) {
        Err(WordsFault::Usage { text }) => text.as_str().ends_with(USAGE)
            && text.as_str().starts_with("error: "),
        _ => false,
    }
}

#[test]
fn words_that_are_no_command(rt: HostRuntime) -> Result<(), Fail> {
    for words in INVALID.as_slice() {
        assert!(rt; is_told(rt.alloc(), words), "{words:?}");
    }
    Ok(())
}

#[test]
fn usage_names_each_word(rt: HostRuntime) -> Result<(), Fail> {
    for word in &["simba run", "simba report", "simba load N", "docs/GUIDE.md"] {
        assert!(rt; USAGE.contains(*word));
    }
    Ok(())
}

fn told(alloc: Global, words: &[&str]) -> Result<String, Fail> {
    match command_of(alloc, words) {
        Ok(_) => Err(Fail::from("a command")),
        Err(fault) => Ok(format!(in alloc; "{fault}")?),
    }
}

#[test]
fn text_says_what_is_wrong(rt: HostRuntime) -> Result<(), Fail> {
    let cases: [(&[&str], &str); 6] = [
        (&[], "requires a subcommand"),
        (&["reprot"], "a similar subcommand exists: 'report'"),
        (&["run", "x"], "unexpected argument 'x'"),
        (&["load"], "<N>"),
        (&["load", "07"], "without leading zeros"),
        (&["--help"], "begins with '-'"),
    ];
    for (words, part) in cases.as_slice() {
        let text = told(rt.alloc(), words)?;
        assert!(rt; text.as_str().contains(*part), "{text}");
    }
    Ok(())
}
