//! Replays the journal on standard input and prints a line for each of its records.
#![tactic(auto)]

use std::io::{Read, Write};

/// One byte more than a journal may have, so that a longer one is seen to be too long and is not read on.
const ENOUGH: u64 = 32769;

fn replay_input(rt: &HostRuntime) -> anyhow::Result<()> {
    let mut journal: Vec<u8> = Vec::new(rt.alloc());
    rt.stdin().take(ENOUGH).read_to_end(&mut journal)?;
    let printout = replay::run(rt.alloc(), &journal)?;
    rt.stdout().write_all(&printout)?;
    Ok(())
}

fn main(rt: HostRuntime) -> anyhow::Result<()> {
    replay_input(&rt)
}
