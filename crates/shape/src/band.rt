//! The band value.

use place::Rectangle;

/// A rectangle and a margin by which its outer set is wider on each side.
#[derive(Clone, Copy, Drop)]
pub struct Band {
    pub rectangle: Rectangle,
    pub margin: u16,
}
