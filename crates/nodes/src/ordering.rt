//! The rank of a pair, and the order of its left and right child.
ghost use Rattle.std.specs.Prelude.{◌≡◌};
ghost use Rattle.records.specs.Writes.{ranked, swapped, ordered_in};
ghost use Rattle.records.specs.Promises.{Orders};

use quadtreap::{Rank, UNRANKED};
use records::{Record, read, set_children, set_rank};

/// Gives the pair at `s` a rank.
#[tactic(auto, using(records::proofs::FieldLaws::rank_again))]
pub fn rank(records: &mut [Record], s: u16, rank: Rank)
    ensures table { records.new ≡ ranked records.old s rank }
{
    let first = read(records, s).first;
    set_rank(records, s, rank);
    set_rank(records, first, rank);
}

/// Left and right of the pair at `s` change places, and it takes the rank of the new left.
#[tactic(auto, using(records::proofs::FieldLaws::children_again))]
pub fn exchange(records: &mut [Record], s: u16)
    ensures table { records.new ≡ swapped records.old s }
{
    let rs = read(records, s);
    let rw = read(records, rs.first);
    let rb = read(records, rw.second);
    rank(records, s, rb.rank);
    set_children(records, rs.first, rw.second, rw.first);
}

/// Puts left and right of the pair at `s` in the order of their ranks, where it has no inner box, and ranks it.
pub fn order<K>(records: &mut [Record], s: u16)
    ensures table { records.new ≡ ordered_in records.old s }
    ensures stands { Orders K records.old records.new s }
{
    let rs = read(records, s);
    if rs.inner.is_some() {
        rank(records, s, UNRANKED);
        return;
    }
    let rw = read(records, rs.first);
    let ra = read(records, rw.first);
    let rb = read(records, rw.second);
    if rb.ranks_before(ra) {
        exchange(records, s);
        return;
    }
    rank(records, s, ra.rank);
}
