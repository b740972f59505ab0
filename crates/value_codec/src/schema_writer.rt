ghost use Rattle.std.specs.Prelude.{◌≡◌, ◌≤◌, ◌<◌, ◌+◌, ◌++◌, length, take, OnOk, OnErr};
ghost use Rattle.std.specs.Vec.{vec_capacity, vec_len};
ghost use Rattle.value_codec.specs.SchemaSpelling.{HasSchemaSpelling, schema_spelling, kind_code, scheme_code};

use crate::writer::{Spelled, put_list, put_whole};
use row_value::{Column, ColumnKind, Schema, Scheme};
use stab_base::{put_bytes, put_u8, put_u32};
use std::alloc::AllocError;

fn kind_code(kind: ColumnKind) -> u8
    ensures { result ≡ kind_code kind }
{
    match kind {
        ColumnKind::Int => 1,
        ColumnKind::Bool => 2,
        ColumnKind::Text => 3,
        ColumnKind::Object => 4,
    }
}

fn scheme_code(scheme: Scheme) -> u8
    ensures { result ≡ scheme_code scheme }
{
    match scheme {
        Scheme::Strong => 1,
        Scheme::Causal => 2,
        Scheme::Eventual => 3,
    }
}

impl Spelled for Column {
    ghost use Rattle.value_codec.specs.SchemaSpelling.{HasColumnSpelling, column_spelling};

    ghost spelling = { column_spelling };

    ghost has_spelling = { HasColumnSpelling };

    fn put(&self, out: &mut Vec<u8>) -> Result<(), AllocError> {
        put_bytes(out, self.name.as_slice())?;
        put_u8(out, kind_code(self.kind))
    }
}

impl Spelled for Schema {
    ghost use Rattle.value_codec.specs.SchemaSpelling.{HasSchemaSpelling, schema_spelling};

    ghost spelling = { schema_spelling };

    ghost has_spelling = { HasSchemaSpelling };

    fn put(&self, out: &mut Vec<u8>) -> Result<(), AllocError> {
        put_bytes(out, self.name.as_slice())?;
        put_u8(out, scheme_code(self.scheme))?;
        put_u32(out, self.chunk)?;
        put_list(out, self.columns.as_slice())
    }
}

/// Appends the schema's spelling.
pub fn put_schema(out: &mut Vec<u8>, schema: &Schema) -> Result<(), AllocError>
    requires { HasSchemaSpelling schema.now }
    ensures ok { OnOk result (out.new.items ≡ out.old.items ++ schema_spelling schema.now) }
    ensures err { OnErr result (out.new.items ≡ out.old.items) }
    ensures full { OnErr result (vec_capacity out.old < vec_len out.old + length (schema_spelling schema.now)) }
    ensures capacity { vec_capacity out.old ≤ vec_capacity out.new }
{
    put_whole(out, schema)
}
