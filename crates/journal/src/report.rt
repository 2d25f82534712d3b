//! What a printed line says of a record.

/// `Ok` tells how many readings are live after the call, and `Tally` what a walk found.
/// `Refused` and `Stopped` tell the number of a fault; after a stop no record is read. The number and not the fault, since
/// this crate knows the bytes alone, and the line has no more.
#[derive(Clone, Copy)]
pub enum Report {
    Ok {
        live: u16,
    },
    Tally {
        sum: u64,
        times: Option<(u32, u32)>,
        expanded: u32,
        height: u16,
    },
    Height {
        height: u16,
    },
    Refused {
        number: u8,
    },
    Stopped {
        number: u8,
    },
}
