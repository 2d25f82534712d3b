//! The list of the live readings, apart from its calls, since its invariant may cite no definition that names it.
ghost use Rattle.std.specs.Prelude.{◌≤◌, length};

use crate::node::Live;

/// The live readings in rank order, in a map of so many places.
/// There are never more than the most places of any map have room for, so that their number and the nodes of their tree fit.
#[derive(Drop)]
pub struct Roll {
    pub(crate) places: u16,
    pub(crate) live: Vec<Live>,
    ghost limit: { places ≤ 65533 },
    ghost few: { length live.items ≤ 16384 },
}
