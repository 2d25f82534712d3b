//! How regions of places lie to a shape, and how many boxes cross one. Definitions and theorems only.
#![tactic(auto)]

ghost use Rattle.crossing.specs.Laws.{MissesMeans, HeldMeans, CrossesMeans, DiscMisses, DiscHolds, DiscCrossings};

/// What the three tests of a region mean, in places.
pub fn tests_mean()
    ensures misses { MissesMeans }
    ensures held { HeldMeans }
    ensures crosses { CrossesMeans }
{}

/// A rectangle lies to a disc as its nearest and its farthest place do.
pub fn disc_tests_are_exact()
    ensures misses { DiscMisses }
    ensures held { DiscHolds }
{}

/// The boxes that cross a disc are at most its crossing sum.
pub fn disc_crossings_are_bounded()
    ensures bound { DiscCrossings }
{}
