//! A reading is struck in one way down.
ghost use Rattle.std.specs.Prelude.{◌≡◌};
ghost use Rattle.records.specs.Writes.{struck_in};
ghost use Rattle.records.specs.Promises.{Strikes};

use crate::sinking::sink;
use records::{Record, Sinking};

/// Strikes the reading with a code from the tree at `root`, in at most `budget` steps.
pub fn strike<K>(records: &mut [Record], root: u16, code: u32, budget: u32) -> Sinking
    ensures table { records.new ≡ (struck_in budget records.old root code).table }
    ensures ends { result ≡ (struck_in budget records.old root code).ends }
    ensures stands { Strikes K records.old records.new root code budget result }
{
    let mut s = root;
    for _ in 0..budget {
        match sink::<K>(records, s, code) {
            Sinking::On(next) => {
                s = next;
            }
            Sinking::Done(leaf, places) => {
                return Sinking::Done(leaf, places);
            }
            Sinking::Lost => {
                return Sinking::Lost;
            }
        }
    }
    Sinking::On(s)
}
