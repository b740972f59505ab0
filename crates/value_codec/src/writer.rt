ghost use Rattle.std.specs.Prelude.{◌≡◌, ◌≤◌, ◌<◌, ◌+◌, ◌^◌, ◌++◌, ℕ, List, length, take, OnOk, OnErr};
ghost use Rattle.std.specs.List.{AllByRecursion};
ghost use Rattle.std.specs.Vec.{vec_capacity, vec_len};
ghost use Rattle.value_codec.specs.Spelling.{list_spelling};

use stab_base::put_u32;
use std::alloc::AllocError;

/// A value that has a spelling.
pub(crate) trait Spelled {
    ghost use Rattle.std.specs.Prelude.{◌≡◌, ◌≤◌, ◌<◌, ◌+◌, ◌++◌, ℕ, List, length, take, OnOk, OnErr};
    ghost use Rattle.std.specs.Vec.{vec_capacity, vec_len};

    ghost spelling: { Self → List ℕ };

    ghost has_spelling: { Self → Type 0 };

    /// Appends the spelling, and a part of it where memory is refused.
    fn put(&self, out: &mut Vec<u8>) -> Result<(), AllocError>
        requires { has_spelling self.now }
        ensures ok { OnOk result (out.new.items ≡ out.old.items ++ spelling self.now) }
        ensures err { OnErr result (take (vec_len out.old) out.new.items ≡ out.old.items) }
        ensures full { OnErr result (vec_capacity out.old < vec_len out.old + length (spelling self.now)) }
        ensures capacity { vec_capacity out.old ≤ vec_capacity out.new };
}

/// Appends the spelling, or nothing where memory is refused.
pub(crate) fn put_whole<T: Spelled>(out: &mut Vec<u8>, value: &T) -> Result<(), AllocError>
    requires { T.has_spelling value.now }
    ensures ok { OnOk result (out.new.items ≡ out.old.items ++ T.spelling value.now) }
    ensures err { OnErr result (out.new.items ≡ out.old.items) }
    ensures full { OnErr result (vec_capacity out.old < vec_len out.old + length (T.spelling value.now)) }
    ensures capacity { vec_capacity out.old ≤ vec_capacity out.new }
{
    let start = out.len();
    match value.put(out) {
        Ok(()) => Ok(()),
        Err(refused) => {
            out.truncate(start);
            Err(refused)
        }
    }
}

/// Appends the number of the items and their spellings, and a part of it where memory is refused.
pub(crate) fn put_list<T: Spelled>(out: &mut Vec<u8>, items: &[T]) -> Result<(), AllocError>
    requires count { length items.now < 2 ^ 32 }
    requires each { AllByRecursion T.has_spelling items.now }
    ensures ok { OnOk result (out.new.items ≡ out.old.items ++ list_spelling T.spelling items.now) }
    ensures err { OnErr result (take (vec_len out.old) out.new.items ≡ out.old.items) }
    ensures full { OnErr result (vec_capacity out.old < vec_len out.old + length (list_spelling T.spelling items.now)) }
    ensures capacity { vec_capacity out.old ≤ vec_capacity out.new }
{
    put_u32(out, items.len() as u32)?;
    for item in items {
        item.put(out)?;
    }
    Ok(())
}
