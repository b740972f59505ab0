ghost use Rattle.std.specs.Prelude.{◌≡◌, ◌<◌, IfOk, Some, length};
ghost use Rattle.std.specs.Str.{is_utf8};
ghost use Rattle.percent_encoding.specs.Percent.{percent_decode};
ghost use Rattle.hex.specs.Hex.{decode_of};
ghost use Rattle.script_words.specs.Words.{seen_parts, parts_of};
ghost use Rattle.script_words.specs.Codes.{Judges};
ghost use Rattle.script_words.specs.Values.{int_of, length_in, text_in, hex_in, object_in, repeated, repeat_in};
ghost use Rattle.script_words.specs.Values.{repeat_of, long_of, word_of, value_at, bytes_at};

use crate::code::{Code, ValueFault};
use crate::forms::{is_length, parts_of};
use hex::FromHexError;
use itoa::Buffer;
use row_value::{Bytes, Cell};
use std::alloc::{AllocError, Global};
use std::str;

/// The most bytes that a value of repeated bytes may have.
const REPEAT_MOST: u32 = 33_554_432;

/// A value of a row.
#[derive(Debug, Drop)]
pub enum Value {
    /// A number, a truth value or a text.
    OfCell(Cell),
    /// Bytes.
    OfObject(Bytes),
}

fn int_of(word: &str) -> Option<i64>
    ensures { result ≡ int_of word.now }
{
    let Ok(number) = word.parse::<i64>() else {
        return None;
    };
    let mut buffer = Buffer::new();
    if buffer.format(number) == word {
        Some(number)
    } else {
        None
    }
}

/// The length that digits spell, where it isn't above its limit.
#[tactic(auto, unfolding(crate::specs::Values::length_in))]
fn length_in(digits: &str) -> Option<u32>
    ensures { result ≡ length_in digits.now }
{
    if !is_length(digits) {
        return None;
    }
    match digits.parse::<u32>() {
        Ok(length) if length <= REPEAT_MOST => Some(length),
        _ => None,
    }
}

fn is_utf8(bytes: &[u8]) -> bool
    ensures { result ≡ is_utf8 bytes.now }
{
    str::from_utf8(bytes).is_ok()
}

fn text_in(alloc: Global, escaped: &str) -> Result<Option<Value>, AllocError>
    ensures { IfOk result (λ found. found ≡ text_in (percent_decode escaped.now)) }
{
    let mut bytes = Vec::new(alloc);
    percent_encoding::percent_decode(escaped.as_bytes()).append_to(&mut bytes)?;
    if is_utf8(&bytes) {
        Ok(Some(Value::OfCell(Cell::Text(Bytes::from_vec(bytes)))))
    } else {
        Ok(None)
    }
}

/// The bytes of digits, two of them a byte.
fn hex_in(alloc: Global, digits: &str) -> Result<Option<Bytes>, AllocError>
    ensures { IfOk result (λ found. found ≡ hex_in (decode_of digits.now)) }
{
    match hex::decode(alloc, digits.as_bytes()) {
        Ok(bytes) => Ok(Some(Bytes::from_vec(bytes))),
        Err(FromHexError::OutOfMemory) => Err(AllocError),
        Err(_) => Ok(None),
    }
}

/// So many bytes: these ones again and again.
fn repeated(alloc: Global, pattern: &[u8], len: usize) -> Result<Bytes, AllocError>
    requires { 0 < length pattern.now }
    ensures { IfOk result (λ bytes. bytes ≡ repeated pattern.now len) }
{
    let mut bytes = Vec::with_capacity(alloc, len)?;
    for place in 0..len {
        bytes.push(pattern[place % pattern.len()])?;
    }
    Ok(Bytes::from_vec(bytes))
}

fn repeat_in(alloc: Global, len: u32, pattern: &Bytes) -> Result<Option<Value>, AllocError>
    ensures { IfOk result (λ found. found ≡ repeat_in len (Some pattern.now)) }
{
    let pattern = pattern.as_slice();
    if pattern.is_empty() {
        return Ok(None);
    }
    let bytes = repeated(alloc, pattern, len as usize)?;
    Ok(Some(Value::OfObject(bytes)))
}

#[tactic(auto, unfolding(crate::specs::Values::repeat_of))]
fn repeat_of(alloc: Global, word: &str) -> Result<Option<Value>, AllocError>
    ensures { IfOk result (λ found. found ≡ repeat_of (parts_of word.now)) }
{
    let Some((length, digits)) = parts_of(word) else {
        return Ok(None);
    };
    let Some(length) = length_in(length) else {
        return Ok(None);
    };
    match hex_in(alloc, digits)? {
        Some(pattern) => repeat_in(alloc, length, &pattern),
        None => Ok(None),
    }
}

fn object_in(alloc: Global, digits: &str) -> Result<Option<Value>, AllocError>
    ensures { IfOk result (λ found. found ≡ object_in (hex_in (decode_of digits.now))) }
{
    match hex_in(alloc, digits)? {
        Some(object) => Ok(Some(Value::OfObject(object))),
        None => Ok(None),
    }
}

#[tactic(auto, unfolding(crate::specs::Values::long_of))]
fn long_of(alloc: Global, word: &str) -> Result<Option<Value>, AllocError>
    ensures { IfOk result (λ found. found ≡ long_of (parts_of word.now)) }
{
    let Some((kind, rest)) = parts_of(word) else {
        return Ok(None);
    };
    match kind {
        "t" => text_in(alloc, rest),
        "h" => object_in(alloc, rest),
        "r" => repeat_of(alloc, rest),
        _ => Ok(None),
    }
}

#[tactic(auto, unfolding(crate::specs::Values::word_of))]
fn word_of(alloc: Global, word: &str) -> Result<Option<Value>, AllocError>
    ensures { IfOk result (λ found. found ≡ word_of word.now) }
{
    match word {
        "true" => Ok(Some(Value::OfCell(Cell::Bool(true)))),
        "false" => Ok(Some(Value::OfCell(Cell::Bool(false)))),
        _ => long_of(alloc, word),
    }
}

/// The value that a word spells: a number of 64 bits with a sign, `true` or `false`, `t:` and percent-encoded text
/// (RFC 3986, section 2.1), `h:` and hex digits, or `r:LEN:HEX`, bytes that are repeated and cut to a length.
#[tactic(auto, unfolding(crate::specs::Values::value_at))]
pub fn value_at(alloc: Global, word: &str) -> Result<Value, ValueFault>
    ensures { Judges result (value_at word.now) }
{
    if let Some(number) = int_of(word) {
        return Ok(Value::OfCell(Cell::Int(number)));
    }
    match word_of(alloc, word)? {
        Some(value) => Ok(value),
        None => Err(ValueFault::Code(Code::NoValue)),
    }
}

/// The bytes that a word of hex digits spells, two of them a byte, in either case.
#[tactic(auto, unfolding(crate::specs::Values::bytes_at))]
pub fn bytes_at(alloc: Global, word: &str) -> Result<Bytes, ValueFault>
    ensures { Judges result (bytes_at word.now) }
{
    match hex_in(alloc, word)? {
        Some(bytes) => Ok(bytes),
        None => Err(ValueFault::Code(Code::NoValue)),
    }
}
