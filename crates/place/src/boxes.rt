//! The calls on boxes.
ghost use Rattle.std.specs.Prelude.{◌≡◌, ◌+◌, ◌^◌, ◌<◌, ◌≤◌, min};
ghost use Rattle.place.specs.Boxes.{cut, whole as whole_square, point as point_of, holds as holds_code, smallest as smallest_of, Deepest, motor_side, root_side};
ghost use Rattle.place.specs.Values.{box_of, Halved, Covers};

use crate::interval::Interval;
use crate::place::Place;
use crate::place_box::PlaceBox;
use crate::rectangle::Rectangle;

/// The interval of so many counts, from its lowest.
fn spanning(lowest: u16, counts: u32) -> Interval
    requires some { 0 < counts }
    requires room { lowest + counts ≤ 2 ^ 16 }
    ensures value { (result.lowest ≡ lowest) × (result.highest + 1 ≡ lowest + counts) }
{
    let more = (counts - 1) as u16;
    Interval {
        lowest,
        highest: lowest + more,
    }
}

impl PlaceBox {
    /// The box of a depth that contains a code; a depth above 32 counts as 32.
    /// Any two numbers make a box, so that stored numbers need no check first.
    pub fn new(depth: u8, code: u32) -> PlaceBox
        ensures value { box_of result ≡ cut (min depth 32) code }
    {
        let depth = depth.min(32);
        let low = 32 - depth;
        PlaceBox {
            depth,
            code: ((code as u64) >> low << low) as u32,
        }
    }

    /// The whole square.
    pub fn whole() -> PlaceBox
        ensures value { box_of result ≡ whole_square }
    {
        PlaceBox { depth: 0, code: 0 }
    }

    /// The box of one code.
    pub fn point(code: u32) -> PlaceBox
        ensures value { box_of result ≡ point_of code }
    {
        PlaceBox { depth: 32, code }
    }

    /// Whether the box contains a code.
    #[tactic(auto, using(crate::proofs::SmallestLaws::holds_xor, std::proofs::lemmas::Nat::xor_lt))]
    pub fn holds(self, code: u32) -> bool
        ensures value { result ≡ holds_code (box_of self) code }
    {
        ((code ^ self.code) as u64) >> (32 - self.depth) == 0
    }

    /// The half of the box that contains a code, or none where the box does not contain it or has no halves.
    pub fn half(self, code: u32) -> Option<PlaceBox>
        ensures value { Halved self code result }
    {
        if self.depth < 32 && self.holds(code) {
            Some(PlaceBox::new(self.depth + 1, code))
        } else {
            None
        }
    }

    /// The smallest box of this box and a code: the deepest that contains both.
    pub fn smallest(self, code: u32) -> PlaceBox
        ensures value { box_of result ≡ smallest_of (box_of self) (point_of code) }
        ensures deepest { Deepest (box_of self) (point_of code) (box_of result) }
    {
        let shared = (self.code ^ code).leading_zeros() as u8;
        PlaceBox::new(self.depth.min(shared), self.code)
    }

    /// The smallest box of two codes: the deepest that contains both.
    pub fn smallest_of(first: u32, second: u32) -> PlaceBox
        ensures value { box_of result ≡ smallest_of (point_of first) (point_of second) }
        ensures deepest { Deepest (point_of first) (point_of second) (box_of result) }
    {
        PlaceBox::point(first).smallest(second)
    }

    /// How many motor counts the box spans.
    pub fn motor_side(self) -> u32
        ensures value { result ≡ motor_side self.depth }
    {
        1 << (16 - (self.depth + 1) / 2)
    }

    /// How many root counts the box spans.
    pub fn root_side(self) -> u32
        ensures value { result ≡ root_side self.depth }
    {
        1 << (16 - self.depth / 2)
    }

    /// The rectangle whose places are exactly those of the box.
    #[tactic(auto, using(crate::proofs::SideLaws::last_motor, crate::proofs::SideLaws::last_root, crate::proofs::SideLaws::box_places))]
    pub fn rectangle(self) -> Rectangle
        ensures covers { Covers (box_of self) result }
    {
        let corner = Place::of_code(self.code);
        Rectangle {
            motors: spanning(corner.motor, self.motor_side()),
            roots: spanning(corner.root, self.root_side()),
        }
    }
}
