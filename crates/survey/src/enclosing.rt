//! The smallest box of many codes.
ghost use Rattle.survey.specs.Enclosing.{Enclosed};

use place::PlaceBox;

/// The smallest box that contains all the codes, or none where there is no code.
pub fn enclosing(codes: &[u32]) -> Option<PlaceBox>
    ensures value { Enclosed codes.now result }
{
    let (first, rest) = codes.split_first()?;
    Some(rest.iter().fold(PlaceBox::point(*first), |found, code| found.smallest(*code)))
}
