ghost use Rattle.std.specs.Prelude.{◌≡◌};
ghost use Rattle.ring_map.specs.Place.{position_of, store_position};

use byteorder::{BigEndian, ByteOrder};
use itoa::Buffer;
use sha2::{Digest, Sha256};
use stab_base::StoreNo;

/// The place of a text on the ring: the first eight bytes of its SHA-256 (FIPS 180-4), the highest first.
#[tactic(auto, unfolding(crate::specs::Place::position_of))]
pub fn position_of(text: &[u8]) -> u64
    ensures { result ≡ position_of text.now }
{
    let digest: [u8; 32] = Sha256::digest(text);
    BigEndian::read_u64(&digest)
}

/// The place of a Store: that of its number in decimal.
pub fn store_position(store: StoreNo) -> u64
    ensures { result ≡ store_position store }
{
    let mut buffer = Buffer::new();
    position_of(buffer.format(store).as_bytes())
}
