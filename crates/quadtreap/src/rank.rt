//! What readings are ordered by.

/// A rank is a priority and a code. The smaller priority comes first, and at equal priority the smaller code.
#[derive(Clone, Copy, PartialEq, Eq, PartialOrd, Ord, Debug)]
pub struct Rank {
    pub priority: u32,
    pub code: u32,
}

/// The rank that stands for none. No `Option`, since ranks are compared only where there is one, and each of those places
/// would have to say what none is.
pub const UNRANKED: Rank = Rank {
    priority: 0,
    code: 0,
};
