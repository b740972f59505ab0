ghost use Rattle.std.specs.Prelude.{◌≡◌};
ghost use Rattle.assemblies.specs.Travel.{is_sent};

use row_value::Piece;
use stab_base::Version;

/// Which chunks of a content travel by themselves. A new one always does.
#[derive(Debug, Clone, Copy, PartialEq, Eq)]
pub enum Sent {
    /// The new ones, of a request.
    Fresh,
    /// Those named by a version above this position, of the answer to a pull.
    Above(Version),
    /// All, of a row that was asked for whole.
    All,
}

impl Sent {
    /// Whether the chunk of this piece travels.
    pub fn sends(self, piece: &Piece) -> bool
        ensures { result ≡ is_sent self piece.now }
    {
        match piece {
            Piece::Fresh(_) => true,
            Piece::Keep(name) => match self {
                Sent::Fresh => false,
                Sent::Above(position) => name.version > position,
                Sent::All => true,
            },
        }
    }
}
