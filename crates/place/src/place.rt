//! Places and their codes.
ghost use Rattle.std.specs.Prelude.{◌≡◌};
ghost use Rattle.place.specs.Codes.{code_of, motor_of, root_of, Interleaved};

/// A motor count and a root count.
#[derive(Clone, Copy, PartialEq, Eq, Debug, Drop)]
pub struct Place {
    pub motor: u16,
    pub root: u16,
}

impl Place {
    /// The code of the place: the bits of its two counts, interleaved.
    pub fn code(self) -> u32
        ensures value { result ≡ code_of self.motor self.root }
        ensures bits { Interleaved self.motor self.root result }
        ensures place { (motor_of result ≡ self.motor) × (root_of result ≡ self.root) }
    {
        let motor = self.motor;
        let root = self.root;
        let mut code: u32 = 0;
        for i in 0..16u32 {
            let shift = 15 - i;
            let m = (motor >> shift) % 2;
            let r = (root >> shift) % 2;
            code = code * 4 + (m as u32 * 2 + r as u32);
        }
        code
    }

    /// The place that has a code.
    /// A call with a name and no `From`, since a number alone does not say that it is a code.
    pub fn of_code(code: u32) -> Place
        ensures value { (result.motor ≡ motor_of code) × (result.root ≡ root_of code) }
        ensures code { code_of result.motor result.root ≡ code }
    {
        let mut motor: u16 = 0;
        let mut root: u16 = 0;
        for i in 0..16u32 {
            let pair = (code >> (30 - i * 2)) % 4;
            motor = motor * 2 + (pair / 2) as u16;
            root = root * 2 + (pair % 2) as u16;
        }
        Place { motor, root }
    }
}
