//! Bytes written one after another into an array, with zeros after them. Records and printed lines are both made so.
ghost use Rattle.std.specs.Prelude.{◌≡◌, ◌+◌, ◌≤◌, [], ◌++◌, length, take};
ghost use Rattle.journal.specs.Padded.{Holds};
ghost use Rattle.journal.specs.Written.{text};

use crate::decimal::{Decimal, digits_in};
use crate::padded::Padded;

/// What was written so far, with nothing but zeros after it.
#[derive(Clone, Copy)]
pub(crate) struct Writing<const N: usize> {
    pub(crate) padded: Padded<N>,
    ghost held: { Holds N padded.bytes padded.len (take padded.len padded.bytes) },
}

impl<const N: usize> Writing<N> {
    /// Zeros alone.
    pub(crate) fn new() -> Writing<N>
        ensures value { text result.padded ≡ [] }
        ensures place { result.padded.len ≡ 0 }
    {
        Writing {
            padded: Padded {
                bytes: [0; N],
                len: 0,
            },
        }
    }

    /// Writes bytes after those that were written before.
    pub(crate) fn put(&mut self, more: &[u8])
        requires { self.old.padded.len + length more.now ≤ N }
        ensures value { text self.new.padded ≡ text self.old.padded ++ more.now }
        ensures place { self.new.padded.len ≡ self.old.padded.len + length more.now }
    {
        let end = self.padded.len + more.len();
        let bytes = &mut self.padded.bytes[..];
        bytes[self.padded.len..end].copy_from_slice(more);
        self.padded.len = end;
    }

    /// Writes a number in decimal, without leading zeros: its digits are counted first, and then written where they belong.
    /// Not by `write!`, which may answer an error that no clause rules out. Inlined, since most numbers of a line are short, and
    /// a call takes as long as their digits.
    #[inline(always)]
    pub(crate) fn put_number<D: Decimal>(&mut self, n: D)
        requires { self.old.padded.len + D.MAX_STR_LEN ≤ N }
        ensures value { text self.new.padded ≡ text self.old.padded ++ D.text n }
        ensures place { self.new.padded.len ≤ self.old.padded.len + D.MAX_STR_LEN }
    {
        let wide = n.wide();
        let end = self.padded.len + digits_in(wide);
        itoa::write_digits(wide, &mut self.padded.bytes, end);
        self.padded.len = end;
    }

    /// What was written.
    pub(crate) fn done(self) -> Padded<N>
        ensures value { result ≡ self.entry.padded }
        ensures holds { Holds N result.bytes result.len (text self.entry.padded) }
    {
        self.padded
    }
}
