//! The records of a journal, read one after another.
ghost use Rattle.std.specs.Prelude.{length};
ghost use Rattle.std.specs.Iterator.{at_most};
ghost use Rattle.replay.specs.Entries.{Gives};

use journal::{Entry, FormatFault, decode};

/// The bytes of the records that are left. Nothing is left behind a fault.
#[derive(Drop)]
pub struct Entries<'a>(pub &'a [u8]);

impl<'a> Iterator for Entries<'a> {
    type Item = Result<Entry, FormatFault>;

    ghost next_gives = { λ s r t. Gives s.0.now r t.0.now };

    ghost remaining = { λ s. at_most (length s.0.now) };

    fn next(&mut self) -> Option<Result<Entry, FormatFault>> {
        if self.0.is_empty() {
            return None;
        }
        match decode(self.0) {
            Ok((entry, rest)) => {
                self.0 = rest;
                Some(Ok(entry))
            }
            Err(fault) => {
                self.0 = &[];
                Some(Err(fault))
            }
        }
    }
}
