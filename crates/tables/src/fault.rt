//! The refusals of a map.

/// Why a call on a map is refused.
#[derive(Clone, Copy, PartialEq, Eq, Debug, Drop)]
pub enum MapFault {
    Taken,
    Full,
    Absent,
}
