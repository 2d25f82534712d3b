//! The height of a tree.
ghost use Rattle.std.specs.Prelude.{◌≡◌, ◌≤◌};
ghost use Rattle.records.specs.Heights.{height_in, Heights};

use records::{Record, read};

/// The height of the tree under the node at `i`, where at most `left` nodes are left.
/// The number left falls at each call, so that any records give an answer.
pub fn height<K>(records: &[Record], i: u16, left: u16) -> u16
    ensures bound { result ≤ left }
    ensures value { result ≡ height_in left records.now i }
    ensures stands { Heights K records.now i left result }
{
    if left == 0 {
        return 0;
    }
    let r = read(records, i);
    if r.kind.is_leaf() {
        return 0;
    }
    let a = height::<K>(records, r.first, left - 1);
    let b = height::<K>(records, r.second, left - 1);
    a.max(b) + 1
}
