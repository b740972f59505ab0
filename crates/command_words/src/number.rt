ghost use Rattle.std.specs.Prelude.{◌≡◌};
ghost use Rattle.std.specs.List.{list_all};
ghost use Rattle.std.specs.Char.{is_ascii_digit};
ghost use Rattle.command_words.specs.Commands.{is_decimal, number_of};

fn are_digits(bytes: &[u8]) -> bool
    ensures { result ≡ list_all is_ascii_digit bytes.now }
{
    bytes.iter().all(|b| b.is_ascii_digit())
}

// Whether these are digits of a number as it is written.
fn is_decimal(text: &str) -> bool
    ensures { result ≡ is_decimal text.now }
{
    let digits = text.as_bytes();
    match digits.first() {
        Some(first) => are_digits(digits)
            && digits.len() <= 20
            && (digits.len() == 1 || *first != b'0'),
        None => false,
    }
}

/// The number that a decimal text writes.
pub(crate) fn number_of(text: &str) -> Option<u64>
    ensures { result ≡ number_of text.now }
{
    if !is_decimal(text) {
        return None;
    }
    text.parse().ok()
}
