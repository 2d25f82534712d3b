//! A journal made from its text.
ghost use Rattle.std.specs.Prelude.{Ok, Err, MatchResult};
ghost use Rattle.pamtext.specs.Journals.{Adds, Refuses, Writes, OneJournal};

use crate::fault::TextFault;
use crate::lines::{passed_over, trimmed_line};
use crate::record::entry_of;
use journal::encode;
use std::alloc::Global;

/// Adds the bytes of what the line says. The number is that of the line.
fn add_line(bytes: &mut Vec<u8>, line: &str, number: u64) -> Result<(), TextFault>
    ensures value { MatchResult result (λ _. Adds bytes.old.items line.now bytes.new.items) (λ fault. Refuses line.now number fault) }
{
    let text = trimmed_line(line);
    if passed_over(text) {
        return Ok(());
    }
    let entry = entry_of(text).ok_or(TextFault::Line(number))?;
    bytes.extend_from_slice(encode(entry).as_bytes())?;
    Ok(())
}

/// The bytes of the journal whose records the lines of the text say.
pub fn journal_of(heap: Global, text: &str) -> Result<Vec<u8>, TextFault>
    ensures value { MatchResult result (λ bytes. Writes text.now (Ok bytes.items)) (λ fault. Writes text.now (Err fault)) }
{
    let mut bytes = Vec::new(heap);
    bytes.extend_from_slice(b"PAM\x00\x01")?;
    for (number, line) in (1..).zip(text.split('\n')) {
        add_line(&mut bytes, line, number)?;
    }
    Ok(bytes)
}

/// The contract of `journal_of` leaves no choice while there is memory. Callers may rely on that.
pub fn one_journal()
    ensures value { OneJournal }
{}
