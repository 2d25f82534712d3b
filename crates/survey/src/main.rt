//! Follows the readings of a blade from its two sensors to places, codes and the box that holds them all.
#![tactic(auto)]

mod enclosing;
mod lines;
mod sample;

use enclosing::enclosing;
use lines::PrintedBox;
use sample::{Sample, sample_of, survey};

/// The sample of a line of four words, if it is one.
fn sample_in(line: &str) -> Option<Sample> {
    let mut words = line.split_whitespace();
    let (motor, motor_time) = (words.next()?, words.next()?);
    let (root, root_time) = (words.next()?, words.next()?);
    // A fifth word is looked for before any is read as a number, so that a line of many words costs no more than finding them.
    if words.next().is_some() {
        return None;
    }
    sample_of(motor, motor_time, root, root_time)
}

/// Whether a line has nothing to read: it is empty, or a remark. No twin of the call in `pamtext`: white space is that of any
/// text here, and that of ASCII there.
fn passed_over(line: &str) -> bool {
    let text = line.trim();
    text.is_empty() || text.starts_with('#')
}

fn run(rt: &HostRuntime) -> anyhow::Result<()> {
    let mut codes: Vec<u32> = Vec::new(rt.alloc());
    // The readings are counted apart from the lines, some of which are none.
    let mut number = 0u64;
    for (at, line) in (1u64..).zip(rt.lines(rt.alloc())) {
        let line = line?;
        if passed_over(&line) {
            continue;
        }
        let Some(sample) = sample_in(&line) else {
            println!(rt; "line {at}: not a reading")?;
            continue;
        };
        number = number.saturating_add(1);
        match survey(sample) {
            Ok(accepted) => {
                codes.push(accepted.code)?;
                println!(rt; "{number} {accepted}")?;
            }
            Err(fault) => println!(rt; "{number} refused {}", fault.number())?,
        }
    }
    match enclosing(&codes) {
        Some(found) => {
            let depth = found.depth;
            let places = found.rectangle();
            println!(rt; "{}", PrintedBox { depth, places })?;
        }
        None => println!(rt; "no reading accepted")?,
    }
    Ok(())
}

fn main(rt: HostRuntime) -> anyhow::Result<()> {
    run(&rt)
}
