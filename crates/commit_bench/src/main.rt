//! Measures a table's updates over three devices in memory. `commit_bench updates COUNT CHUNKS ROWS` does so many
//! updates, each of so many new chunks of 64 bytes, going round so many rows. `commit_bench recovery COUNT CHUNKS ROWS`
//! does the same, crashes inside an update more, and then looks, scans, recovers and does what is left.
#![tactic(auto)]

mod devices;
mod recovering;
mod updating;

use anyhow::{Context, Result};
use devices::Counts;
use std::env;

fn main(rt: HostRuntime) -> Result<()> {
    let mut words = env::args(&rt)?;
    let _program = words.next();
    let measure = words.next().context("no measure")?;
    let count = words.next().context("no count")?;
    let chunks = words.next().context("no number of chunks")?;
    let rows = words.next().context("no number of rows")?;
    let count = count.parse::<u64>().context("the count")?;
    let chunks = chunks.parse::<u32>().context("the chunks")?;
    let rows = rows.parse::<u64>().context("the rows")?;
    let counts = match measure.as_str() {
        "updates" => updating::update_often(rt.alloc(), count, chunks, rows)?,
        "recovery" => recovering::recover_once(rt.alloc(), count, chunks, rows)?,
        _ => None.context("no such measure")?,
    };
    let Counts {
        rows,
        chunks,
        version,
    } = counts;
    println!(rt; "{version} updates: {rows} rows of {chunks} chunks")?;
    Ok(())
}
