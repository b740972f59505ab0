ghost use Rattle.std.specs.Prelude.{◌≡◌};
ghost use Rattle.schemes.specs.Decide.{judged, decision_of};

use row_value::Scheme;
use stab_base::{Version, WriteNo};

/// What becomes of a write that a client asks for.
#[derive(Debug, Clone, Copy, PartialEq, Eq)]
pub enum Decision {
    /// The client's last accepted write of the row is this one: it was accepted at this version.
    Again { version: Version },
    /// A later write of the client was accepted on the row already: the last of them has this number.
    Late { last: WriteNo },
    /// It becomes the row's next version.
    Accept,
    /// Refused, in a strong table: the row's version is no longer the one that the write rests on.
    Stale { latest: Version },
    /// In conflict, in a causal table: the row's version is no longer the one that the write rests on.
    Conflict { latest: Version },
}

fn judged(scheme: Scheme, base: Version, current: Version) -> Decision
    ensures { result ≡ judged scheme base current }
{
    match scheme {
        Scheme::Eventual => Decision::Accept,
        _ if base == current => Decision::Accept,
        Scheme::Strong => Decision::Stale { latest: current },
        Scheme::Causal => Decision::Conflict { latest: current },
    }
}

/// Decides on a write of this number that rests on the version `base` of its row: `current` is the row's version, 0
/// where it has none, and `last` the number and the version of the client's last accepted write on the row, both 0
/// where it has none.
pub fn decide(
    scheme: Scheme,
    base: Version,
    current: Version,
    last: (WriteNo, Version),
    number: WriteNo,
) -> Decision
    ensures { result ≡ decision_of scheme base current last number }
{
    if last.0 == number {
        Decision::Again { version: last.1 }
    } else if last.0 > number {
        Decision::Late { last: last.0 }
    } else {
        judged(scheme, base, current)
    }
}
