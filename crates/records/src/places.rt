//! Places of a table: those of a pair, and those that are free.

/// The places of a pair that comes or goes: its shrink and its split node, its reading and its outer leaf.
#[derive(Clone, Copy)]
pub struct FourPlaces {
    pub shrink: u16,
    pub split: u16,
    pub reading: u16,
    pub outer: u16,
}

/// What a step of a strike ends in: the node to go on with, or the leaf that took the place of its pair and the places
/// that are now free, or a leaf that does not hold the code.
#[derive(Clone, Copy)]
pub enum Sinking {
    On(u16),
    Done(u16, FourPlaces),
    Lost,
}

/// The free places: those from `fresh` on were never used, and `freed` is the one given back last, if there is one.
#[derive(Clone, Copy)]
pub struct FreePlaces {
    pub fresh: u16,
    pub freed: Option<u16>,
}
