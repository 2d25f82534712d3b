//! The number that bytes begin with. The bytes after it are answered too, so that a reader of several numbers keeps no place.
ghost use Rattle.std.specs.Prelude.{◌≡◌, ℕ, ◌+◌, ◌<◌, List, ◌++◌, length, MatchOption};
ghost use Rattle.journal.specs.Layout.{be16, be32};

/// A number of the width of a field.
pub(crate) trait Front: Sized {
    ghost width: { ℕ };

    ghost spelled: { Self → List ℕ };

    /// The number that the bytes begin with, and the bytes after it.
    fn front(bytes: &[u8]) -> Option<(Self, &[u8])>
        ensures value { MatchOption result (length bytes.now < width) (λ x. bytes.now ≡ spelled x.0 ++ x.1.now) }
        ensures left { MatchOption result (length bytes.now < width) (λ x. length bytes.now ≡ length x.1.now + width) };
}

impl Front for u16 {
    ghost width = { 2 };

    ghost spelled = { be16 };

    fn front(bytes: &[u8]) -> Option<(u16, &[u8])> {
        let (first, left) = bytes.split_first_chunk()?;
        Some((u16::from_be_bytes(*first), left))
    }
}

impl Front for u32 {
    ghost width = { 4 };

    ghost spelled = { be32 };

    fn front(bytes: &[u8]) -> Option<(u32, &[u8])> {
        let (first, left) = bytes.split_first_chunk()?;
        Some((u32::from_be_bytes(*first), left))
    }
}
