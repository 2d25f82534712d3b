//! One line of a survey, and what becomes of it.
ghost use Rattle.survey.specs.Samples.{Sampled, Surveyed};

use place::Place;
use reading::{HalfReading, ReadingFault};

/// What the two sensors said: a motor count and a root count, each with its millisecond.
/// No `Counts` of crate reading: those are the numbers of a whole reading, and a sample may make none.
#[derive(Clone, Copy)]
pub struct Sample {
    pub motor: u16,
    pub motor_time: u32,
    pub root: u16,
    pub root_time: u32,
}

/// What is reported of an accepted sample.
#[derive(Clone, Copy)]
pub struct Accepted {
    pub place: Place,
    pub code: u32,
    pub lag: i32,
    pub delay: u32,
}

/// The sample that four words spell.
pub fn sample_of(motor: &str, motor_time: &str, root: &str, root_time: &str) -> Option<Sample>
    ensures value { Sampled motor.now motor_time.now root.now root_time.now result }
{
    Some(Sample {
        motor: motor.parse().ok()?,
        motor_time: motor_time.parse().ok()?,
        root: root.parse().ok()?,
        root_time: root_time.parse().ok()?,
    })
}

/// Takes the motor and completes it with the root; a refused half reading is given up.
pub fn survey(sample: Sample) -> Result<Accepted, ReadingFault>
    ensures value { Surveyed sample result }
{
    let half = HalfReading::take(sample.motor, sample.motor_time);
    let whole = half.complete_or_give_up(sample.root, sample.root_time)?;
    let delay = whole.delay();
    let counts = whole.spend();
    let place = Place {
        motor: counts.motor,
        root: counts.root,
    };
    Ok(Accepted {
        place,
        code: place.code(),
        lag: i32::from(counts.root) - i32::from(counts.motor),
        delay,
    })
}
