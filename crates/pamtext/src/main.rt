//! Writes on standard output the journal whose records standard input has as text.
#![tactic(auto)]

mod fault;
mod fields;
mod journal_text;
mod lines;
mod number;
mod record;
#[cfg(test)]
mod tests;

use journal_text::journal_of;
use std::io;
use std::io::Write;
use std::process::ExitCode;

fn main(rt: HostRuntime) -> anyhow::Result<ExitCode> {
    let text = io::read_to_string(rt.alloc(), rt.stdin())?;
    match journal_of(rt.alloc(), text.as_str()) {
        Ok(bytes) => {
            rt.stdout().write_all(bytes.as_slice())?;
            Ok(ExitCode::SUCCESS)
        }
        Err(fault) => {
            eprintln!(rt; "{fault}")?;
            Ok(ExitCode::FAILURE)
        }
    }
}
