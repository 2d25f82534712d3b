//! The calls on intervals.
ghost use Rattle.std.specs.Prelude.{◌≡◌};
ghost use Rattle.place.specs.Values.{in_interval, overlap, inside, Widened, Spanned};

use crate::interval::Interval;

impl Interval {
    /// The interval with two ends, or none where the lowest is above the highest.
    pub fn new(lowest: u16, highest: u16) -> Option<Interval>
        ensures value { Spanned lowest highest result }
    {
        if lowest > highest {
            return None;
        }
        Some(Interval { lowest, highest })
    }

    /// Whether a count is in the interval.
    pub fn has(self, count: u16) -> bool
        ensures value { result ≡ in_interval self count }
    {
        (self.lowest..=self.highest).contains(&count)
    }

    /// Whether the two intervals have a count in common.
    pub fn overlaps(self, other: Interval) -> bool
        ensures value { result ≡ overlap self other }
    {
        self.lowest <= other.highest && other.lowest <= self.highest
    }

    /// Whether the interval lies within another.
    pub fn within(self, outer: Interval) -> bool
        ensures value { result ≡ inside self outer }
    {
        outer.lowest <= self.lowest && self.highest <= outer.highest
    }

    /// The interval widened by a margin on each side, stopping at 0 and 65535.
    pub fn widened(self, margin: u16) -> Interval
        ensures value { Widened self margin result }
    {
        Interval {
            lowest: self.lowest.saturating_sub(margin),
            highest: self.highest.saturating_add(margin),
        }
    }
}
