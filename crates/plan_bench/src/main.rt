//! Measures a client's plans over three devices in memory. `plan_bench plans COUNT ROWS` does so many plans, each of
//! one new chunk of 64 bytes, going round so many rows. `plan_bench recovery COUNT ROWS` does the same, crashes behind
//! the commit of one plan more, and then looks, recovers and does what is left.
#![tactic(auto)]

mod calls;
mod fault;
mod old_name;
mod planning;
mod plans;
mod recovering;

use anyhow::{Context, Result};
use std::env;

fn main(rt: HostRuntime) -> Result<()> {
    let mut words = env::args(&rt)?;
    let _program = words.next();
    let measure = words.next().context("no measure")?;
    let count = words.next().context("no count")?;
    let rows = words.next().context("no number of rows")?;
    let count = count.parse::<u32>().context("the count")?;
    let rows = rows.parse::<u64>().context("the rows")?;
    let counts = match measure.as_str() {
        "plans" => planning::plan_often(rt.alloc(), count, rows)?,
        "recovery" => recovering::recover_once(rt.alloc(), count, rows)?,
        _ => None.context("no such measure")?,
    };
    let rows = counts.rows;
    let last = counts.last;
    println!(rt; "{last} plans: {rows} rows")?;
    Ok(())
}
