//! Numbers with commas between them.
ghost use Rattle.std.specs.Prelude.{◌<◌};
ghost use Rattle.pamtext.specs.Fields.{Numbers};

use crate::number::number_of;

/// The numbers that the text spells, of which there are as many as in `largest`.
pub(crate) fn numbers_of<const N: usize>(text: &str, largest: [u32; N]) -> Option<[u32; N]>
    requires { 0 < N }
    ensures value { Numbers largest.entry text.now result }
{
    let mut words = text.split(',');
    let mut numbers = [0; N];
    // Written by index: with `iter_mut` and `zip` the proof did not close, at what `zip` asks of its items.
    for (i, most) in largest.iter().enumerate() {
        numbers[i] = number_of(words.next()?, *most)?;
    }
    match words.next() {
        None => Some(numbers),
        Some(_) => None,
    }
}
