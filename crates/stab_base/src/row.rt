ghost use Rattle.std.specs.Prelude.{◌≡◌, IfOk, IsTrue, ◌↔◌, string_bytes, length, Some};
ghost use Rattle.std.specs.Ordering.{nat_cmp};
ghost use Rattle.std.specs.Cmp.Lexicographic.{slice_cmp};
ghost use Rattle.uuid.specs.Text.{parsed, hyphenated_text, lower};
ghost use Rattle.stab_base.specs.Row.{row_of};

use std::fmt;
use std::marker::Model;
use uuid::Uuid;

/// The id of a row: the sixteen bytes of a UUID, ordered as these bytes. Its text is the hyphenated form of
/// RFC 9562, section 4.
#[derive(Clone, Copy, PartialEq, Eq, PartialOrd, Ord)]
pub struct RowId {
    bytes: [u8; 16],
}

impl Model for RowId {
    ghost use Rattle.std.specs.Prelude.{List, ℕ};

    ghost Value = { List ℕ };

    ghost view = { λ a. a.bytes };

    ghost inverse = { λ xs. record { bytes = xs } };
}

impl RowId {
    /// The id of these bytes.
    pub fn from_bytes(bytes: [u8; 16]) -> Self
        ensures { result ≡ bytes }
    {
        RowId { bytes }
    }

    /// The bytes of the id.
    pub fn to_bytes(self) -> [u8; 16]
        ensures { result ≡ self }
    {
        self.bytes
    }

    /// Reads a hyphenated text of 36 characters, hex digits in either case. None for every other text.
    pub fn parse(text: &str) -> Option<Self>
        ensures { result ≡ row_of text.now }
    {
        if text.len() != 36 {
            return None;
        }
        match Uuid::parse_str(text) {
            Ok(id) => Some(RowId {
                bytes: id.into_bytes(),
            }),
            Err(_) => None,
        }
    }

    /// The hyphenated text, hex digits in lower case, written into the buffer.
    pub fn write_text<'b>(&self, buffer: &'b mut [u8; 36]) -> &'b str
        ensures text { result.now ≡ hyphenated_text lower self.now }
        ensures back { parsed result.now ≡ Some self.now }
    {
        Uuid::from_bytes(self.bytes)
            .hyphenated()
            .encode_lower(buffer)
    }
}

impl fmt::Display for RowId {
    ghost use Rattle.std.specs.Prelude.{Some};
    ghost use Rattle.uuid.specs.Text.{hyphenated_text, lower};

    ghost output = { λ id. Some (hyphenated_text lower id) };

    fn fmt<W: fmt::Write>(&self, f: &mut fmt::Formatter<W>) -> fmt::Result {
        let mut buffer = [0u8; 36];
        f.write_str(self.write_text(&mut buffer))
    }
}

impl fmt::Debug for RowId {
    fn fmt<W: fmt::Write>(&self, f: &mut fmt::Formatter<W>) -> fmt::Result {
        let mut buffer = [0u8; 36];
        f.write_str(self.write_text(&mut buffer))
    }
}
