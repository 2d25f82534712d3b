ghost use Rattle.std.specs.Prelude.{◌≡◌, ◌+◌, ◌≤◌};
ghost use Rattle.reading.specs.Limit.{longest};
ghost use Rattle.reading.specs.Readings.{numbers_of};

use super::WholeReading;
use crate::counts::Counts;

impl WholeReading {
    pub fn motor(&self) -> u16
        ensures value { result ≡ self.now.motor }
    {
        self.motor
    }

    pub fn root(&self) -> u16
        ensures value { result ≡ self.now.root }
    {
        self.root
    }

    pub fn motor_time(&self) -> u32
        ensures value { result ≡ self.now.motor_time }
    {
        self.motor_time
    }

    pub fn root_time(&self) -> u32
        ensures value { result ≡ self.now.root_time }
    {
        self.root_time
    }

    /// How many milliseconds after the motor the root was read.
    pub fn delay(&self) -> u32
        ensures value { self.now.motor_time + result ≡ self.now.root_time }
        ensures bounded { result ≤ longest }
    {
        self.root_time - self.motor_time
    }

    /// Uses the reading up and answers its numbers.
    pub fn spend(self) -> Counts
        ensures value { result ≡ numbers_of self }
    {
        let WholeReading {
            motor,
            root,
            motor_time,
            root_time,
        } = self;
        Counts {
            motor,
            root,
            motor_time,
            root_time,
        }
    }
}
