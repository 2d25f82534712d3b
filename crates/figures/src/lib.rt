//! The worked figures, each of which follows from the definitions.
#![tactic(auto)]

ghost use Rattle.std.specs.List.{AllByRecursion};
ghost use Rattle.figures.specs.Figures.{Follows, figures};

/// Every figure of the list follows from the definitions.
pub fn figures_follow()
    ensures all { AllByRecursion Follows figures }
{}
