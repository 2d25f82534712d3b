//! One record of a journal, served by the second map.
ghost use Rattle.std.specs.Prelude.{◌≡◌, IfOk, IfErr};
ghost use Rattle.quadtreap.specs.Tree.{tree_of, map_height};
ghost use Rattle.quadtreap.specs.Rank.{Valid};
ghost use Rattle.quadtreap.specs.Walk.{answer};
ghost use Rattle.replay.specs.Steps.{IsQuestion, found, served};
ghost use Rattle.rebuild.specs.Rolls.{readings};
ghost use Rattle.rebuild.specs.Steps.{Served};

use crate::roll::Roll;
use journal::{Entry, Report};
use place::Place;
use reading::HalfReading;
use replay::{StepFault, Weighed, changed, weigh};
use shape::{Band, Disc};
use std::alloc::{AllocError, Global};
use tables::Tallied;

/// What is reported of a tally, with the height of the map beside it.
fn tallied(roll: &Roll, heap: Global, tallied: Tallied<Weighed>) -> Result<Report, AllocError>
    ensures value { IfOk result (λ r. r ≡ found (answer tallied.tally tallied.expanded) (map_height (tree_of (readings roll.now)))) }
{
    Ok(Report::Tally {
        sum: tallied.tally.first.value(),
        times: tallied.tally.second.times(),
        expanded: tallied.expanded,
        height: roll.height(heap)?,
    })
}

/// Answers the question of a record. A fault is matched and takes no `?`, since the error that `?` passes up here is that of
/// memory.
fn ask(roll: &Roll, heap: Global, question: Entry) -> Result<Result<Report, StepFault>, AllocError>
    requires asks { IsQuestion question }
    ensures answer { IfOk result (λ a. Valid (readings roll.now) → a ≡ served roll.now.places question (readings roll.now)) }
{
    match question {
        Entry::Disc {
            motor,
            root,
            inner,
            outer,
        } => {
            let disc = match Disc::new(Place { motor, root }, inner, outer) {
                Ok(disc) => disc,
                Err(fault) => return Ok(Err(StepFault::Shape(fault))),
            };
            let found = roll.tally(heap, &disc)?;
            Ok(Ok(tallied(roll, heap, found)?))
        }
        Entry::Band {
            lowest_motor,
            highest_motor,
            lowest_root,
            highest_root,
            margin,
        } => {
            let band = match Band::new(
                lowest_motor,
                highest_motor,
                lowest_root,
                highest_root,
                margin,
            ) {
                Ok(band) => band,
                Err(fault) => return Ok(Err(StepFault::Shape(fault))),
            };
            let found = roll.tally(heap, &band)?;
            Ok(Ok(tallied(roll, heap, found)?))
        }
        // The height: no other record asks.
        _ => Ok(Ok(Report::Height {
            height: roll.height(heap)?,
        })),
    }
}

/// Serves one record. The first error is of memory, and then the readings are as they were.
pub fn step(
    roll: &mut Roll,
    heap: Global,
    entry: Entry,
) -> Result<Result<Report, StepFault>, AllocError>
    ensures served { IfOk result (λ a. Valid (readings roll.old) → Served roll.old.places entry (readings roll.old) (readings roll.new) a) }
    ensures unchanged { IfErr result (λ e. readings roll.new ≡ readings roll.old) }
    ensures places { roll.new.places ≡ roll.old.places }
{
    match entry {
        Entry::Enter {
            motor,
            motor_time,
            root,
            root_time,
            priority,
            weight,
        } => {
            let half = HalfReading::take(motor, motor_time);
            let whole = match half.complete_or_give_up(root, root_time) {
                Ok(whole) => whole,
                Err(fault) => return Ok(Err(StepFault::Reading(fault))),
            };
            let reply = roll.enter(whole, priority, weigh(weight, root_time))?;
            Ok(changed(reply))
        }
        Entry::Again {
            motor,
            root,
            time,
            weight,
        } => Ok(changed(roll.again(Place { motor, root }, weigh(weight, time)))),
        Entry::Strike { motor, root } => Ok(changed(roll.strike(Place { motor, root }))),
        question => ask(roll, heap, question),
    }
}
