ghost use Rattle.std.specs.Prelude.{◌≡◌, ◌==◌, ◌&&◌, nat_le, IfOk, MatchResult, [], ◌∷◌};
ghost use Rattle.std.specs.List.{list_all};
ghost use Rattle.std.specs.Char.{is_ascii_digit};
ghost use Rattle.script_words.specs.Words.{texts, words_of, is_number, is_length, is_name, is_name_byte, seen_parts};
ghost use Rattle.script_words.specs.Words.{parts_of, sides_of};

use std::alloc::{AllocError, Global};

/// The words of a line, which stand between spaces.
pub fn words(alloc: Global, line: &str) -> Result<Vec<&str>, AllocError>
    ensures { IfOk result (λ v. texts v.items ≡ words_of line.now) }
{
    line.split(' ')
        .filter(|word| !word.is_empty())
        .collect(alloc)
}

/// Whether these are the digits of a number from 1, without leading zeros.
#[tactic(auto, unfolding(crate::specs::Words::is_number))]
pub fn is_number(digits: &str) -> bool
    ensures { result ≡ is_number digits.now }
{
    let digits = digits.as_bytes();
    match digits.first() {
        Some(first) => *first > b'0' && are_digits(digits),
        None => false,
    }
}

fn are_digits(bytes: &[u8]) -> bool
    ensures { result ≡ list_all is_ascii_digit bytes.now }
{
    bytes.iter().all(|b| b.is_ascii_digit())
}

/// The same, or the digit 0.
#[tactic(auto, unfolding(crate::specs::Words::is_length))]
pub fn is_length(digits: &str) -> bool
    ensures { result ≡ is_length digits.now }
{
    digits == "0" || is_number(digits)
}

fn are_name_bytes(bytes: &[u8]) -> bool
    ensures { result ≡ list_all is_name_byte bytes.now }
{
    bytes
        .iter()
        .all(|b| matches!(*b, b'a'..=b'z' | b'0'..=b'9' | b'_' | b'-'))
}

/// Whether this is the name of a table or a column: 1 to 64 of `a` to `z`, `0` to `9`, `_` and `-`, a letter first.
#[tactic(auto, unfolding(crate::specs::Words::is_name))]
pub fn is_name(word: &str) -> bool
    ensures { result ≡ is_name word.now }
{
    let word = word.as_bytes();
    match word.first() {
        Some(first) => first.is_ascii_lowercase() && word.len() <= 64 && are_name_bytes(word),
        None => false,
    }
}

/// What stands before and behind the first colon.
#[tactic(auto, unfolding(crate::specs::Words::parts_by))]
pub(crate) fn parts_of(word: &str) -> Option<(&str, &str)>
    ensures { seen_parts result ≡ parts_of word.now }
{
    word.split_once(':')
}

/// What stands before and behind the first `=`.
#[tactic(auto, unfolding(crate::specs::Words::parts_by))]
pub fn sides_of(word: &str) -> Option<(&str, &str)>
    ensures { seen_parts result ≡ sides_of word.now }
{
    word.split_once('=')
}
