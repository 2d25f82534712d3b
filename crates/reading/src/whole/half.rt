ghost use Rattle.std.specs.Prelude.{◌≡◌, ℕ, ◌+◌, ◌<◌, ◌≤◌, ◌↔◌};
ghost use Rattle.reading.specs.Limit.{longest};
ghost use Rattle.reading.specs.Readings.{InTime, Explains, Completes, CompletesOrGivesUp, OneAnswer};
ghost use Rattle.reading.specs.declared.fault.ReadingFault.TheVariants.{Early, Late};

use super::WholeReading;
use crate::fault::ReadingFault;

/// How many milliseconds after the motor the root may be taken.
const LIMIT: u32 = 20;

/// Neither copied nor let go, so that it is either completed or given up by name.
pub struct HalfReading {
    motor: u16,
    time: u32,
}

impl HalfReading {
    /// Begins a reading with the motor's count and the millisecond at which it was read.
    pub fn take(motor: u16, time: u32) -> HalfReading
        ensures value { (result.motor ≡ motor) × (result.time ≡ time) }
    {
        Self { motor, time }
    }

    /// Adds the root's count and time. A half reading that is refused comes back as it was, so that it can be tried again or given up.
    pub fn complete(self, root: u16, time: u32) -> Result<WholeReading, (HalfReading, ReadingFault)>
        ensures value { Completes self root time result }
    {
        if time < self.time {
            return Err((self, ReadingFault::Early));
        }
        // The order is known here, so that the difference does not wrap.
        if time - self.time > LIMIT {
            return Err((self, ReadingFault::Late));
        }
        let HalfReading {
            motor,
            time: motor_time,
        } = self;
        Ok(WholeReading {
            motor,
            root,
            motor_time,
            root_time: time,
        })
    }

    /// Adds the root's count and time. A half reading that is refused is given up, and its fault is answered.
    pub fn complete_or_give_up(self, root: u16, time: u32) -> Result<WholeReading, ReadingFault>
        ensures value { CompletesOrGivesUp self root time result }
    {
        self.complete(root, time).map_err(|(half, fault)| {
            let _numbers = half.give_up();
            fault
        })
    }

    /// Ends the reading without a root. It answers the motor's count and time, so that nothing is lost.
    // A struct for these two numbers would be no plainer: the callers let them go.
    pub fn give_up(self) -> (u16, u32)
        ensures value { result ≡ (self.motor, self.time) }
    {
        let HalfReading { motor, time } = self;
        (motor, time)
    }
}

/// What the fault of two times means. Callers may rely on that.
pub fn times_mean()
    ensures in_time { (motor_time root_time : ℕ) → InTime motor_time root_time ↔ ((motor_time ≤ root_time) × (root_time ≤ motor_time + longest)) }
    ensures early { (motor_time root_time : ℕ) → Explains Early motor_time root_time ↔ (root_time < motor_time) }
    ensures late { (motor_time root_time : ℕ) → Explains Late motor_time root_time ↔ (motor_time + longest < root_time) }
{}

/// The contract of `complete` leaves no choice, neither of the case nor of the numbers in it. Callers may rely on that.
#[tactic(auto, using(crate::proofs::Readings::one_answer))]
pub fn one_answer()
    ensures value { OneAnswer }
{}
