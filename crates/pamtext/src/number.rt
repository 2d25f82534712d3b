//! Numbers read from their decimal text.
ghost use Rattle.pamtext.specs.Numbers.{Number};

/// The number that the word is in decimal, if it is written without sign and leading zeros and does not pass `largest`.
pub(crate) fn number_of(word: &str, largest: u32) -> Option<u32>
    ensures value { Number largest word.now result }
{
    if word.starts_with('+') {
        return None;
    }
    // A single digit may be a zero.
    if word.len() > 1 && word.starts_with('0') {
        return None;
    }
    word.parse().ok().filter(|number| *number <= largest)
}
