//! One record of a journal, served by the map.
ghost use Rattle.std.specs.Prelude.{◌≡◌};
ghost use Rattle.map.specs.Maps.{state_of, Lends};
ghost use Rattle.quadtreap.specs.Walk.{answer};
ghost use Rattle.replay.specs.Steps.{of_map, IsQuestion, Found, Steps};

use crate::fault::StepFault;
use crate::weights::{Weighed, weigh};
use journal::{Entry, Report};
use map::{Map, MapFault, Tallied};
use place::Place;
use reading::HalfReading;
use shape::{Band, Disc};

/// What is reported of a call that changes the map.
pub fn changed(reply: Result<u16, MapFault>) -> Result<Report, StepFault>
    ensures value { result ≡ of_map reply }
{
    let live = reply?;
    Ok(Report::Ok { live })
}

/// What is reported of a tally, with the height of the map beside it.
fn tallied(map: &mut Map<Weighed>, tallied: Tallied<Weighed>) -> Report
    ensures value { Found (state_of map.old) (answer tallied.tally tallied.expanded) result }
    ensures same { state_of map.new ≡ state_of map.old }
    ensures lends { Lends map.old map.new }
{
    Report::Tally {
        sum: tallied.tally.first.value(),
        times: tallied.tally.second.times(),
        expanded: tallied.expanded,
        height: map.height(),
    }
}

/// Asks the map the question of a record.
fn ask(map: &mut Map<Weighed>, question: Entry) -> Result<Report, StepFault>
    requires asks { IsQuestion question }
    ensures steps { Steps (state_of map.old) (state_of map.new) question result }
    ensures lends { Lends map.old map.new }
{
    match question {
        Entry::Disc {
            motor,
            root,
            inner,
            outer,
        } => {
            let disc = Disc::new(Place { motor, root }, inner, outer)?;
            let found = map.tally_disc(&disc);
            Ok(tallied(map, found))
        }
        Entry::Band {
            lowest_motor,
            highest_motor,
            lowest_root,
            highest_root,
            margin,
        } => {
            let band = Band::new(
                lowest_motor,
                highest_motor,
                lowest_root,
                highest_root,
                margin,
            )?;
            let found = map.tally(&band);
            Ok(tallied(map, found))
        }
        // The height: no other record asks.
        _ => Ok(Report::Height {
            height: map.height(),
        }),
    }
}

/// Serves one record. Its faults are passed up whole.
pub fn step(map: &mut Map<Weighed>, entry: Entry) -> Result<Report, StepFault>
    ensures steps { Steps (state_of map.old) (state_of map.new) entry result }
    ensures lends { Lends map.old map.new }
{
    match entry {
        Entry::Enter {
            motor,
            motor_time,
            root,
            root_time,
            priority,
            weight,
        } => {
            let half = HalfReading::take(motor, motor_time);
            let whole = half.complete_or_give_up(root, root_time)?;
            changed(map.enter(whole, priority, weigh(weight, root_time)))
        }
        Entry::Again {
            motor,
            root,
            time,
            weight,
        } => changed(map.again(Place { motor, root }, weigh(weight, time))),
        Entry::Strike { motor, root } => changed(map.strike(Place { motor, root })),
        question => ask(map, question),
    }
}
