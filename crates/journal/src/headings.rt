//! The heading of a journal.
ghost use Rattle.std.specs.Prelude.{Ok, Err, MatchResult};
ghost use Rattle.journal.specs.Heading.{Heads, OneHeading};

use crate::fault::FormatFault;

/// How many bytes a journal may have.
const LONGEST: usize = 32768;

/// The letters that a journal begins with.
const MARK: [u8; 3] = *b"PAM";

/// The bytes of the version, which is 1.
const VERSION: [u8; 2] = [0, 1];

/// The bytes after mark and version. Where several faults apply, the one with the least number is answered.
pub fn heading(bytes: &[u8]) -> Result<&[u8], FormatFault>
    ensures value { MatchResult result (λ x. Heads bytes.now (Ok x.now)) (λ f. Heads bytes.now (Err f)) }
{
    if bytes.len() > LONGEST {
        return Err(FormatFault::TooLong);
    }
    let marked = bytes.strip_prefix(&MARK).ok_or(FormatFault::WrongMark)?;
    marked
        .strip_prefix(&VERSION)
        .ok_or(FormatFault::WrongVersion)
}

/// The contract of `heading` leaves no choice. Callers may rely on that.
pub fn one_heading()
    ensures value { OneHeading }
{}
