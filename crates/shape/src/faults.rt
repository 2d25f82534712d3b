//! The numbers of the refusals.
ghost use Rattle.std.specs.Prelude.{◌≡◌, ◌↔◌, ℕ, ◌<◌, ◌≤◌};
ghost use Rattle.shape.specs.Faults.{fault_number, DiscRefused, BandRefused};
ghost use Rattle.shape.specs.declared.fault.ShapeFault.TheVariants.{OuterRadiusTooLarge, InnerRadiusAboveOuter, MotorEndsReversed, RootEndsReversed};

use crate::fault::ShapeFault;

impl ShapeFault {
    /// The number by which the refusal is reported.
    /// It is a call of its own and no `From`, so that no refusal becomes a number unseen.
    pub fn number(self) -> u8
        ensures value { result ≡ fault_number self }
    {
        match self {
            ShapeFault::OuterRadiusTooLarge => 3,
            ShapeFault::InnerRadiusAboveOuter => 4,
            ShapeFault::MotorEndsReversed => 5,
            ShapeFault::RootEndsReversed => 6,
        }
    }
}

/// What each refusal means, in the numbers of the disc or of the band.
pub fn refusals_mean()
    ensures outer { (r R : ℕ) → DiscRefused r R OuterRadiusTooLarge ↔ (100000 < R) }
    ensures inner { (r R : ℕ) → DiscRefused r R InnerRadiusAboveOuter ↔ ((R ≤ 100000) × (R < r)) }
    ensures motors { (lm hm lr hr : ℕ) → BandRefused lm hm lr hr MotorEndsReversed ↔ (hm < lm) }
    ensures roots { (lm hm lr hr : ℕ) → BandRefused lm hm lr hr RootEndsReversed ↔ ((lm ≤ hm) × (hr < lr)) }
{}
