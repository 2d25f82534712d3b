//! Bytes in an array of fixed size, with zeros after them, as records and printed lines are both answered.
ghost use Rattle.std.specs.Prelude.{◌≡◌};

/// Bytes, zeros after them, and how many bytes stand before the zeros. A line is promised as 96 bytes and its length, without
/// a heap, and a record is made alike. What one holds is said by the call that answers it, and whoever has it may change it.
#[derive(Clone, Copy)]
pub struct Padded<const N: usize> {
    pub bytes: [u8; N],
    pub len: usize,
}

impl<const N: usize> Padded<N> {
    ghost use Rattle.journal.specs.Written.{text};

    /// As many of the first bytes as are counted, and all where more are counted than there are.
    pub fn as_bytes(&self) -> &[u8]
        ensures value { result.now ≡ text self.now }
    {
        &self.bytes[..self.len.min(N)]
    }
}
