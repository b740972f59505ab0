ghost use Rattle.std.specs.Prelude.{◌≡◌, ◌++◌, OnOk};
ghost use Rattle.value_codec.specs.Spelling.{flag_spelling};
ghost use Rattle.value_codec.specs.SchemaSpelling.{schema_spelling, HasSchemaSpelling};
ghost use Rattle.field_codec.specs.Forms.{four, eight, IsOption, option_spelling};
ghost use Rattle.sync_msgs.specs.Spelling.{IsChunk, chunk_spelling};
ghost use Rattle.sync_msgs.specs.Spelling.{header_spelling, HasHeaderSpelling, outcome_spelling, HasOutcomeSpelling};
ghost use Rattle.sync_msgs.specs.Spelling.{subscription_spelling, AreSubscriptions, subscriptions_spelling};

use field_codec::{put_eight, put_four, put_id};
use row_value::Schema;
use stab_base::{put_bytes, put_u8, put_u32};
use std::alloc::AllocError;
use table_model::{Outcome, RowHeader, TableSubscription};
use value_codec::{put_content, put_schema};

#[tactic(auto, unfolding(crate::specs::Spelling::chunk_spelling))]
pub(crate) fn put_chunk(out: &mut Vec<u8>, bytes: &[u8]) -> Result<(), AllocError>
    requires { IsChunk bytes.now }
    ensures { OnOk result (out.new.items ≡ out.old.items ++ chunk_spelling bytes.now) }
{
    put_bytes(out, bytes)
}

fn put_header(out: &mut Vec<u8>, header: &RowHeader) -> Result<(), AllocError>
    requires { HasHeaderSpelling header.now }
    ensures { OnOk result (out.new.items ≡ out.old.items ++ header_spelling header.now) }
{
    put_id(out, &header.row)?;
    put_eight(out, header.version)?;
    put_eight(out, header.yours.number)?;
    put_eight(out, header.yours.version)?;
    put_content(out, &header.content)
}

pub(crate) fn put_header_option(
    out: &mut Vec<u8>,
    header: &Option<RowHeader>,
) -> Result<(), AllocError>
    requires { IsOption HasHeaderSpelling header.now }
    ensures { OnOk result (out.new.items ≡ out.old.items ++ option_spelling header_spelling header.now) }
{
    match header {
        None => put_u8(out, 0),
        Some(header) => {
            put_u8(out, 1)?;
            put_header(out, header)
        }
    }
}

pub(crate) fn put_outcome(out: &mut Vec<u8>, outcome: &Outcome) -> Result<(), AllocError>
    ensures { OnOk result (out.new.items ≡ out.old.items ++ outcome_spelling outcome.now) }
{
    let (code, value) = match outcome {
        Outcome::Accepted { version } => (1, *version),
        Outcome::Again { version } => (2, *version),
        Outcome::Late { last } => (3, *last),
        Outcome::Stale { latest } => (4, *latest),
        Outcome::Conflict { latest } => (5, *latest),
        Outcome::NeedWhole => (6, 0),
    };
    put_u8(out, code)?;
    put_eight(out, value)
}

pub(crate) fn put_schema_option(
    out: &mut Vec<u8>,
    schema: &Option<Schema>,
) -> Result<(), AllocError>
    requires { IsOption HasSchemaSpelling schema.now }
    ensures { OnOk result (out.new.items ≡ out.old.items ++ option_spelling schema_spelling schema.now) }
{
    match schema {
        None => put_u8(out, 0),
        Some(schema) => {
            put_u8(out, 1)?;
            put_schema(out, schema)
        }
    }
}

fn put_subscription(out: &mut Vec<u8>, subscription: &TableSubscription) -> Result<(), AllocError>
    ensures { OnOk result (out.new.items ≡ out.old.items ++ subscription_spelling subscription.now) }
{
    put_four(out, subscription.table)?;
    put_four(out, subscription.period)?;
    put_four(out, subscription.tolerance)
}

#[tactic(auto, unfolding(crate::specs::Spelling::subscriptions_spelling))]
pub(crate) fn put_subscriptions(
    out: &mut Vec<u8>,
    some: &[TableSubscription],
) -> Result<(), AllocError>
    requires { AreSubscriptions some.now }
    ensures { OnOk result (out.new.items ≡ out.old.items ++ subscriptions_spelling some.now) }
{
    put_u32(out, some.len() as u32)?;
    for subscription in some {
        put_subscription(out, subscription)?;
    }
    Ok(())
}
