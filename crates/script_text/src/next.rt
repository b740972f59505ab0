//! The words of a line, one behind the other.
ghost use Rattle.std.specs.Prelude.{◌≡◌};
ghost use Rattle.script_words.specs.Words.{texts};
ghost use Rattle.script_text.specs.Reading.{seen_next, placed, next_in, end_in};

use crate::fault::{BadLine, bad};
use script_words::Code;

#[tactic(auto, unfolding(crate::specs::Reading::next_in))]
pub(crate) fn next_word<'a>(
    words: &'a [&'a str],
    at: usize,
) -> Result<(&'a str, &'a [&'a str]), BadLine>
    ensures { seen_next result ≡ next_in at (texts words.now) }
{
    match words {
        [] => Err(bad(Code::Missing, at)),
        [word, rest @ ..] => Ok((*word, rest)),
    }
}

#[tactic(auto, unfolding(crate::specs::Reading::end_in))]
pub(crate) fn end(words: &[&str], at: usize) -> Result<(), BadLine>
    ensures { result ≡ end_in at (texts words.now) }
{
    if words.is_empty() {
        Ok(())
    } else {
        Err(bad(Code::Surplus, at))
    }
}

pub(crate) fn placed<T: Drop>(at: usize, judged: Result<T, Code>) -> Result<T, BadLine>
    ensures { result ≡ placed at judged }
{
    match judged {
        Ok(value) => Ok(value),
        Err(code) => Err(bad(code, at)),
    }
}
