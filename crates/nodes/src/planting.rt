//! A leaf becomes a pair.
ghost use Rattle.std.specs.Prelude.{◌≡◌};
ghost use Rattle.place.specs.Values.{box_of as box_in};
ghost use Rattle.records.specs.Writes.{first_planted, joined_in, planted};
ghost use Rattle.records.specs.Promises.{PlantsFirst, Plants};

use crate::ordering::order;
use place::PlaceBox;
use quadtreap::{Rank, UNRANKED};
use records::{BoxNumbers, FourPlaces, Kind, Record, read, relink, write};

/// Writes the first reading of an empty tree, which has a rank: a leaf over the whole square.
/// The last reading needs no such call: the tree without it is empty, and nothing is written.
pub fn plant_first<K>(records: &mut [Record], at: u16, rank: Rank)
    ensures table { records.new ≡ first_planted records.old at rank }
    ensures stands { PlantsFirst K records.old records.new at rank }
{
    let whole = BoxNumbers::from(PlaceBox::whole());
    let leaf = Record::leaf(Kind::Reading, whole, None, None, rank);
    write(records, at, leaf);
}

/// Makes the leaf at `i` the left child of a new pair on `e`, and a new reading with a rank its right child.
fn join_leaf(records: &mut [Record], i: u16, e: PlaceBox, rank: Rank, n: FourPlaces)
    ensures table { records.new ≡ joined_in records.old i (box_in e) rank n }
{
    let ri = read(records, i);
    let near = BoxNumbers::half(e, ri.content().code);
    let far = BoxNumbers::half(e, rank.code);
    let old = ri.with_outer(near).with_parent(Some(n.split));
    let new = Record::leaf(Kind::Reading, far, None, Some(n.split), rank);
    let on = BoxNumbers::from(e);
    let rest = Record::leaf(Kind::Box, ri.outer, Some(on), Some(n.shrink), UNRANKED);
    let split = Record::node(Kind::Split, on, ri.inner, i, n.reading, Some(n.shrink));
    let pair = Record::node(
        Kind::Shrink,
        ri.outer,
        ri.inner,
        n.split,
        n.outer,
        ri.parent,
    );
    relink(records, ri.parent, i, n.shrink);
    write(records, i, old);
    write(records, n.reading, new);
    write(records, n.outer, rest);
    write(records, n.split, split);
    write(records, n.shrink, pair);
}

/// The leaf at `i` becomes a pair over what it held and a new reading with a rank, in the order of their ranks.
pub fn plant<K>(records: &mut [Record], i: u16, rank: Rank, n: FourPlaces)
    ensures table { records.new ≡ planted records.old i rank n }
    ensures stands { Plants K records.old records.new i rank n }
{
    let e = read(records, i).content().smallest(rank.code);
    join_leaf(records, i, e, rank, n);
    order::<K>(records, n.shrink);
}
