//! Measures devices in memory. `vault_bench vault COUNT BYTES` appends so many payloads of so many bytes to a vault,
//! and then looks at it. `vault_bench rows PUTS ROWS` puts rows so often, going round so many of them, looks, and reads
//! each.
#![tactic(auto)]

mod filling;
mod rows;

use anyhow::{Context, Result};
use std::env;

fn main(rt: HostRuntime) -> Result<()> {
    let mut words = env::args(&rt)?;
    let _program = words.next();
    let device = words.next().context("no device")?;
    let count = words.next().context("no count")?;
    let other = words.next().context("no second number")?;
    let count = count.parse::<u64>().context("the count")?;
    let other = other.parse::<u32>().context("the second number")?;
    match device.as_str() {
        "vault" => {
            let found = filling::fill_and_look(rt.alloc(), count, other)?;
            println!(rt; "{found} payloads of {other} bytes")?;
        }
        "rows" => {
            let found = rows::put_look_and_read(rt.alloc(), count, u64::from(other))?;
            println!(rt; "{found} rows after {count} puts")?;
        }
        _ => None.context("no such device")?,
    }
    Ok(())
}
