//! The records of a journal.

/// One record, by the call that it asks for. The fields stand in the order of their bytes, plain numbers all: what they
/// make, a place or a shape or neither, is judged where the record is served.
#[derive(Clone, Copy, PartialEq, Eq, Debug)]
pub enum Entry {
    Enter {
        motor: u16,
        motor_time: u32,
        root: u16,
        root_time: u32,
        priority: u32,
        weight: u32,
    },
    Again {
        motor: u16,
        root: u16,
        time: u32,
        weight: u32,
    },
    Strike {
        motor: u16,
        root: u16,
    },
    Disc {
        motor: u16,
        root: u16,
        inner: u32,
        outer: u32,
    },
    Band {
        lowest_motor: u16,
        highest_motor: u16,
        lowest_root: u16,
        highest_root: u16,
        margin: u16,
    },
    Height,
}
