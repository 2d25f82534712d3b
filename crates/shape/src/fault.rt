//! The refusals of shapes.

/// Why a shape is refused.
#[derive(Clone, Copy, PartialEq, Eq, Debug, Drop)]
pub enum ShapeFault {
    OuterRadiusTooLarge,
    InnerRadiusAboveOuter,
    MotorEndsReversed,
    RootEndsReversed,
}
