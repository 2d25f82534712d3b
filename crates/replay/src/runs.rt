//! A whole journal, replayed on a map that is empty at first.
ghost use Rattle.std.specs.Prelude.{◌≡◌, ◌≤◌, [], length, Err, IfOk, MatchResult};
ghost use Rattle.map.specs.Maps.{state_of};
ghost use Rattle.tables.specs.Stands.{Stands};
ghost use Rattle.journal.specs.Heading.{longest};
ghost use Rattle.replay.specs.Weights.{joined, neutral};
ghost use Rattle.replay.specs.Steps.{Steps};
ghost use Rattle.replay.specs.declared.fault.StepFault.TheVariants.{Format};
ghost use Rattle.replay.specs.Runs.{places_used, Follows, Replays, OnePrintout};

use crate::entries::Entries;
use crate::fault::StepFault;
use crate::lines::{numbered, put_line};
use crate::steps::step;
use crate::weights::{Weighed, weigh};
use journal::{Entry, FormatFault, Report, heading};
use map::Map;
use records::BLANK;
use std::alloc::{AllocError, Global};

/// How many places the map of a run has.
const PLACES: usize = 1021;

/// Serves a record that was read. A fault of the bytes is passed up.
fn serve(map: &mut Map<Weighed>, read: Result<Entry, FormatFault>) -> Result<Report, StepFault>
    ensures steps { MatchResult read (λ entry. Steps (state_of map.old) (state_of map.new) entry result) (λ fault. result ≡ Err (Format fault)) }
{
    step(map, read?)
}

/// Replays the records after the heading, and answers their lines.
fn replay(heap: Global, map: &mut Map<Weighed>, records: &[u8]) -> Result<Vec<u8>, AllocError>
    requires short { length records.now ≤ longest }
    requires empty { Stands joined neutral (state_of map.old) [] }
    ensures prints { IfOk result (λ v. Follows (state_of map.old).places 1 [] records.now v.items) }
{
    let mut out = Vec::new(heap);
    for (number, read) in (1..).zip(Entries(records)) {
        let answer = serve(map, read);
        put_line(&mut out, number, numbered(number, answer))?;
    }
    Ok(out)
}

/// The printout of a journal on a map over tables of as many places as are asked for, for every sequence of bytes.
pub fn run_with(heap: Global, places: usize, journal: &[u8]) -> Result<Vec<u8>, AllocError>
    ensures prints { IfOk result (λ v. Replays (places_used places) journal.now v.items) }
{
    let records = match heading(journal) {
        Ok(records) => records,
        Err(fault) => {
            let mut out = Vec::new(heap);
            put_line(&mut out, 0, numbered(0, Err(StepFault::Format(fault))))?;
            return Ok(out);
        }
    };
    let mut nodes = vec![in heap; BLANK; places]?;
    let mut tallies = vec![in heap; weigh(0, 0); places]?;
    let mut map = Map::open(nodes.as_mut_slice(), tallies.as_mut_slice());
    replay(heap, &mut map, records)
}

/// The printout of a journal on a map of 1021 places.
pub fn run(heap: Global, journal: &[u8]) -> Result<Vec<u8>, AllocError>
    ensures prints { IfOk result (λ v. Replays 1021 journal.now v.items) }
{
    run_with(heap, PLACES, journal)
}

/// The contract of `run` leaves no choice. Callers may rely on that.
pub fn one_printout()
    ensures value { OnePrintout }
{}
