//! The plain numbers of a whole reading, for whoever stores or prints them.
#[derive(Clone, Copy, PartialEq, Eq, Debug)]
pub struct Counts {
    pub motor: u16,
    pub root: u16,
    pub motor_time: u32,
    pub root_time: u32,
}
