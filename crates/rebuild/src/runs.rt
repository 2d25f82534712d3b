//! A whole journal, replayed on a second map that is empty at first.
ghost use Rattle.std.specs.Prelude.{◌≡◌, ◌≤◌, [], length, Err, IfOk, MatchResult};
ghost use Rattle.journal.specs.Heading.{longest};
ghost use Rattle.quadtreap.specs.Rank.{Valid};
ghost use Rattle.replay.specs.declared.fault.StepFault.TheVariants.{Format};
ghost use Rattle.replay.specs.Runs.{places_used, Follows, Replays};
ghost use Rattle.rebuild.specs.Rolls.{readings};
ghost use Rattle.rebuild.specs.Steps.{Served};

use crate::roll::Roll;
use crate::steps::step;
use journal::{Entry, FormatFault, Report, heading};
use replay::{Entries, StepFault, numbered, put_line};
use std::alloc::{AllocError, Global};

/// Serves a record that was read. A fault of the bytes is passed up.
fn serve(
    roll: &mut Roll,
    heap: Global,
    read: Result<Entry, FormatFault>,
) -> Result<Result<Report, StepFault>, AllocError>
    ensures served { IfOk result (λ a. MatchResult read (λ entry. Valid (readings roll.old) → Served roll.old.places entry (readings roll.old) (readings roll.new) a) (λ fault. a ≡ Err (Format fault))) }
    ensures places { roll.new.places ≡ roll.old.places }
{
    match read {
        Ok(entry) => step(roll, heap, entry),
        Err(fault) => Ok(Err(StepFault::Format(fault))),
    }
}

/// Replays the records after the heading, and answers their lines.
fn replay(heap: Global, roll: &mut Roll, records: &[u8]) -> Result<Vec<u8>, AllocError>
    requires short { length records.now ≤ longest }
    requires empty { readings roll.old ≡ [] }
    ensures prints { IfOk result (λ v. Follows roll.old.places 1 [] records.now v.items) }
{
    let mut out = Vec::new(heap);
    for (number, read) in (1..).zip(Entries(records)) {
        let answer = serve(roll, heap, read)?;
        put_line(&mut out, number, numbered(number, answer))?;
    }
    Ok(out)
}

/// The printout of a journal on a second map of as many places as are asked for, for every sequence of bytes.
pub fn run_with(heap: Global, places: usize, journal: &[u8]) -> Result<Vec<u8>, AllocError>
    ensures prints { IfOk result (λ v. Replays (places_used places) journal.now v.items) }
{
    let records = match heading(journal) {
        Ok(records) => records,
        Err(fault) => {
            let mut out = Vec::new(heap);
            put_line(&mut out, 0, numbered(0, Err(StepFault::Format(fault))))?;
            return Ok(out);
        }
    };
    let mut roll = Roll::open(heap, places);
    replay(heap, &mut roll, records)
}
