ghost use Rattle.std.specs.Prelude.{◌≡◌, ◌≤◌, ◌==◌, ℕ, Bool, List, length, drop, IfOk};
ghost use Rattle.value_codec.specs.Reading.{Gives, list_at, items_at};
ghost use Rattle.value_codec.specs.SchemaReading.{schema_at};
ghost use Rattle.field_codec.specs.Fields.{option_at, option_if, is_flag, byte_if};
ghost use Rattle.sync_msgs.specs.Fields.{value_if};
ghost use Rattle.sync_msgs.specs.Spelling.{has_schema};
ghost use Rattle.sync_msgs.specs.Reading.{header_at, is_outcome, outcome_of, outcome_at, subscription_at};
ghost use Rattle.sync_msgs.specs.Reading.{after_subscription, subscription_in};

use row_value::Schema;
use stab_base::Sequence;
use std::alloc::Global;
use table_model::{Outcome, RowHeader, TableSubscription, TableSubscriptions, Yours};
use value_codec::{
    SpellFault, skip_exactly, take_byte, take_eight, take_flag, take_four, take_id,
    take_kept_content, take_schema,
};

// ---- rows

#[tactic(auto, unfolding(crate::specs::Reading::header_at))]
fn take_header(alloc: Global, bytes: &[u8], at: usize) -> Result<(RowHeader, usize), SpellFault>
    requires { at ≤ length bytes.now }
    ensures value { Gives bytes.now (λ x. (x.0, drop x.1 bytes.now)) result (header_at (drop at bytes.now)) }
    ensures within { IfOk result (λ x. x.1 ≤ length bytes.now) }
{
    let (row, behind) = take_id(bytes, at)?;
    let (version, behind) = take_eight(bytes, behind)?;
    let (number, behind) = take_eight(bytes, behind)?;
    let (yours_at, behind) = take_eight(bytes, behind)?;
    let (content, behind) = take_kept_content(alloc, bytes, behind)?;
    let yours = Yours {
        number,
        version: yours_at,
    };
    let header = RowHeader {
        row,
        version,
        yours,
        content,
    };
    Ok((header, behind))
}

/// The row header at a place, or none.
#[tactic(auto, unfolding(field_codec::specs::Fields::option_at))]
pub(crate) fn take_header_option(
    alloc: Global,
    bytes: &[u8],
    at: usize,
) -> Result<(Option<RowHeader>, usize), SpellFault>
    requires { at ≤ length bytes.now }
    ensures value { Gives bytes.now (λ x. (x.0, drop x.1 bytes.now)) result (option_at header_at (drop at bytes.now)) }
    ensures within { IfOk result (λ x. x.1 ≤ length bytes.now) }
{
    let (some, behind) = take_flag(bytes, at)?;
    if some {
        let (header, behind) = take_header(alloc, bytes, behind)?;
        Ok((Some(header), behind))
    } else {
        Ok((None, behind))
    }
}

// ---- outcomes

#[tactic(auto, unfolding(crate::specs::Fields::value_if))]
fn take_value(bytes: &[u8], at: usize, none: bool) -> Result<(u64, usize), SpellFault>
    requires { at ≤ length bytes.now }
    ensures value { Gives bytes.now (λ x. (x.0, drop x.1 bytes.now)) result (value_if none (drop at bytes.now)) }
    ensures within { IfOk result (λ x. x.1 ≤ length bytes.now) }
{
    if none {
        let behind = skip_exactly(bytes, at, &[0, 0, 0, 0, 0, 0, 0, 0])?;
        Ok((0, behind))
    } else {
        take_eight(bytes, at)
    }
}

#[tactic(auto, unfolding(field_codec::specs::Fields::byte_if))]
fn take_outcome_code(bytes: &[u8], at: usize) -> Result<(u8, usize), SpellFault>
    requires { at ≤ length bytes.now }
    ensures value { Gives bytes.now (λ x. (x.0, drop x.1 bytes.now)) result (byte_if is_outcome (drop at bytes.now)) }
    ensures within { IfOk result (λ x. x.1 ≤ length bytes.now) }
{
    let (code, behind) = take_byte(bytes, at)?;
    if 1 <= code && code <= 6 {
        Ok((code, behind))
    } else {
        Err(SpellFault::Bad { at })
    }
}

fn outcome_of(code: u8, value: u64) -> Outcome
    ensures { result ≡ outcome_of code value }
{
    match code {
        1 => Outcome::Accepted { version: value },
        2 => Outcome::Again { version: value },
        3 => Outcome::Late { last: value },
        4 => Outcome::Stale { latest: value },
        5 => Outcome::Conflict { latest: value },
        _ => Outcome::NeedWhole,
    }
}

/// The outcome of a write.
#[tactic(auto, unfolding(crate::specs::Reading::outcome_at))]
pub(crate) fn take_outcome(bytes: &[u8], at: usize) -> Result<(Outcome, usize), SpellFault>
    requires { at ≤ length bytes.now }
    ensures value { Gives bytes.now (λ x. (x.0, drop x.1 bytes.now)) result (outcome_at (drop at bytes.now)) }
    ensures within { IfOk result (λ x. x.1 ≤ length bytes.now) }
{
    let (code, behind) = take_outcome_code(bytes, at)?;
    let (value, behind) = take_value(bytes, behind, code == 6)?;
    Ok((outcome_of(code, value), behind))
}

// ---- schemas

/// Whether the answer to this kind with this status has a schema.
pub(crate) fn has_schema(answered: u8, status: u32) -> bool
    ensures { result ≡ has_schema answered status }
{
    (answered == 2 || answered == 4) && status == 0
}

fn is_flag(some: bool, byte: u8) -> bool
    ensures { result ≡ is_flag some byte }
{
    if some { byte == 1 } else { byte == 0 }
}

#[tactic(auto, unfolding(field_codec::specs::Fields::byte_if))]
fn take_flag_of(bytes: &[u8], at: usize, some: bool) -> Result<(u8, usize), SpellFault>
    requires { at ≤ length bytes.now }
    ensures value { Gives bytes.now (λ x. (x.0, drop x.1 bytes.now)) result
        (byte_if (is_flag some) (drop at bytes.now)) }
    ensures within { IfOk result (λ x. x.1 ≤ length bytes.now) }
{
    let (byte, behind) = take_byte(bytes, at)?;
    if is_flag(some, byte) {
        Ok((byte, behind))
    } else {
        Err(SpellFault::Bad { at })
    }
}

/// The schema at a place, where one is to stand there, or none.
#[tactic(auto, unfolding(field_codec::specs::Fields::option_if))]
pub(crate) fn take_schema_if(
    alloc: Global,
    bytes: &[u8],
    at: usize,
    some: bool,
) -> Result<(Option<Schema>, usize), SpellFault>
    requires { at ≤ length bytes.now }
    ensures value { Gives bytes.now (λ x. (x.0, drop x.1 bytes.now)) result
        (option_if some schema_at (drop at bytes.now)) }
    ensures within { IfOk result (λ x. x.1 ≤ length bytes.now) }
{
    let (_flag, behind) = take_flag_of(bytes, at, some)?;
    if some {
        let (schema, behind) = take_schema(alloc, bytes, behind)?;
        Ok((Some(schema), behind))
    } else {
        Ok((None, behind))
    }
}

// ---- subscriptions

#[tactic(auto, unfolding(crate::specs::Reading::subscription_at))]
fn take_subscription(bytes: &[u8], at: usize) -> Result<(TableSubscription, usize), SpellFault>
    requires { at ≤ length bytes.now }
    ensures value { Gives bytes.now (λ x. (x.0, drop x.1 bytes.now)) result (subscription_at (drop at bytes.now)) }
    ensures within { IfOk result (λ x. x.1 ≤ length bytes.now) }
{
    let (table, behind) = take_four(bytes, at)?;
    let (period, behind) = take_four(bytes, behind)?;
    let (tolerance, behind) = take_four(bytes, behind)?;
    let subscription = TableSubscription {
        table,
        period,
        tolerance,
    };
    Ok((subscription, behind))
}

fn take_subscription_items(
    alloc: Global,
    bytes: &[u8],
    at: usize,
    count: u32,
) -> Result<(TableSubscriptions, usize), SpellFault>
    requires { at ≤ length bytes.now }
    ensures value { Gives bytes.now (λ x. (x.0, drop x.1 bytes.now))
        result (items_at after_subscription subscription_in tt count (drop at bytes.now)) }
    ensures within { IfOk result (λ x. x.1 ≤ length bytes.now) }
{
    let mut some = Sequence::new(alloc);
    let mut place = at;
    for _ in 0..count {
        let (subscription, behind) = take_subscription(bytes, place)?;
        some.push(subscription)?;
        place = behind;
    }
    Ok((some, place))
}

/// The subscriptions at a place.
#[tactic(auto, unfolding(value_codec::specs::Reading::list_at))]
pub(crate) fn take_subscriptions(
    alloc: Global,
    bytes: &[u8],
    at: usize,
) -> Result<(TableSubscriptions, usize), SpellFault>
    requires { at ≤ length bytes.now }
    ensures value { Gives bytes.now (λ x. (x.0, drop x.1 bytes.now))
        result (list_at after_subscription subscription_in tt (drop at bytes.now)) }
    ensures within { IfOk result (λ x. x.1 ≤ length bytes.now) }
{
    let (count, begin) = take_four(bytes, at)?;
    take_subscription_items(alloc, bytes, begin, count)
}
