//! The way of a code down the tree.
ghost use Rattle.std.specs.Prelude.{◌≡◌};
ghost use Rattle.records.specs.Writes.{descended};
ghost use Rattle.records.specs.Promises.{Descends};

use records::{Record, read};

/// The leaf where a code leads from `root`, in at most `budget` steps.
pub fn descend<K>(records: &[Record], root: u16, code: u32, budget: u32) -> u16
    ensures value { result ≡ descended budget records.now root code }
    ensures stands { Descends K records.now root code budget result }
{
    let mut i = root;
    for _ in 0..budget {
        let r = read(records, i);
        if r.kind.is_leaf() {
            return i;
        }
        if read(records, r.first).outer.holds(code) {
            i = r.first;
        } else {
            i = r.second;
        }
    }
    i
}
