ghost use Rattle.std.specs.Prelude.{◌≡◌, ◌≤◌, ◌+◌, length, drop, IfOk};
ghost use Rattle.std.specs.Str.Lossy.{second_byte_min, second_byte_max};
ghost use Rattle.value_codec.specs.Reading.{Gives};
ghost use Rattle.value_codec.specs.Utf8.{tail_len, leads, between, step, utf8_rest};

use crate::spell_fault::SpellFault;

/// What is open of a character: so many bytes, the next one from `low` to `high`.
#[derive(Clone, Copy)]
pub(crate) struct Inside {
    pub(crate) need: u8,
    pub(crate) low: u8,
    pub(crate) high: u8,
}

fn second_byte_min(byte: u8) -> u8
    ensures { result ≡ second_byte_min byte }
{
    match byte {
        0xE0 => 0xA0,
        0xF0 => 0x90,
        _ => 0x80,
    }
}

fn second_byte_max(byte: u8) -> u8
    ensures { result ≡ second_byte_max byte }
{
    match byte {
        0xED => 0x9F,
        0xF4 => 0x8F,
        _ => 0xBF,
    }
}

fn tail_len(byte: u8) -> u8
    ensures { result ≡ tail_len byte }
{
    match byte {
        0..=0x7F => 0,
        0x80..=0xDF => 1,
        0xE0..=0xEF => 2,
        _ => 3,
    }
}

fn leads(byte: u8) -> bool
    ensures { result ≡ leads byte }
{
    byte < 0x80 || (0xC2 <= byte && byte <= 0xF4)
}

fn step(inside: Inside, left: u32, byte: u8) -> Option<Inside>
    ensures { result ≡ step inside left byte }
{
    if inside.need == 0 {
        if !leads(byte) || tail_len(byte) as u32 > left {
            return None;
        }
        return Some(Inside {
            need: tail_len(byte),
            low: second_byte_min(byte),
            high: second_byte_max(byte),
        });
    }
    if byte < inside.low || inside.high < byte {
        return None;
    }
    Some(Inside {
        need: inside.need - 1,
        low: 0x80,
        high: 0xBF,
    })
}

/// The place behind a text of so many bytes.
pub(crate) fn skip_utf8(bytes: &[u8], at: usize, len: u32) -> Result<usize, SpellFault>
    requires { at ≤ length bytes.now }
    ensures value { Gives bytes.now (λ x. drop x bytes.now) result (utf8_rest between len (drop at bytes.now)) }
    ensures within { IfOk result (λ x. (x ≡ at + len) × (x ≤ length bytes.now)) }
{
    let mut inside = Inside {
        need: 0,
        low: 0x80,
        high: 0xBF,
    };
    let mut place = at;
    let mut left = len;
    while left > 0 {
        if place == bytes.len() {
            return Err(SpellFault::Bad { at: place });
        }
        left -= 1;
        match step(inside, left, bytes[place]) {
            None => return Err(SpellFault::Bad { at: place }),
            Some(next) => inside = next,
        }
        place += 1;
    }
    Ok(place)
}
