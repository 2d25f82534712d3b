ghost use Rattle.std.specs.Prelude.{◌+◌, ◌≤◌};
ghost use Rattle.reading.specs.Limit.{longest};

mod calls;
pub mod half;

/// Neither copied nor let go, so that each reading is used exactly once.
/// The fields are private and only `HalfReading::complete` fills them.
pub struct WholeReading {
    motor: u16,
    root: u16,
    motor_time: u32,
    root_time: u32,
    ghost in_order: { motor_time ≤ root_time },
    ghost in_time: { root_time ≤ motor_time + longest },
}
