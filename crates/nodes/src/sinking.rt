//! One step down, to strike a reading: the pair above it sinks until only leaves are below it.
ghost use Rattle.std.specs.Prelude.{◌≡◌};
ghost use Rattle.records.specs.Writes.{least_in, above_leaves_in, replaced_in, freed_in, raised_outer, sunk_right, sunk_left, child_toward, sunk_pair, sunk_in};
ghost use Rattle.records.specs.Promises.{Sinks};

use crate::ordering::{exchange, rank};
use crate::promotion::{promote_left, promote_outer};
use crate::rise::made_earlier;
use quadtreap::UNRANKED;
use records::{FourPlaces, Kind, Record, Sinking, read, relink, write};

/// Whether the node at `a` is a pair, and made first of the three.
fn made_first(records: &[Record], a: u16, b: u16, c: u16) -> bool
    ensures value { result ≡ least_in records.now a b c }
{
    made_earlier(records, a, b) && made_earlier(records, a, c)
}

/// Whether no child of the pair at `s` is a pair.
fn above_leaves(records: &[Record], s: u16) -> bool
    ensures value { result ≡ above_leaves_in records.now s }
{
    let rs = read(records, s);
    let rw = read(records, rs.first);
    read(records, rw.first).kind.is_leaf()
        && read(records, rw.second).kind.is_leaf()
        && read(records, rs.second).kind.is_leaf()
}

/// The leaf at `i` takes the place of the pair at `s`.
fn replace_pair(records: &mut [Record], s: u16, i: u16)
    ensures table { records.new ≡ replaced_in records.old s i }
{
    let rs = read(records, s);
    let ri = read(records, i);
    relink(records, rs.parent, s, i);
    write(records, i, ri.with_outer(rs.outer).with_parent(rs.parent));
}

/// The places of the pair at `s` whose leaf at `i` goes.
fn freed_places(records: &[Record], s: u16, i: u16) -> FourPlaces
    ensures value { result ≡ freed_in records.now s i }
{
    let rs = read(records, s);
    FourPlaces {
        shrink: s,
        split: rs.first,
        reading: i,
        outer: rs.second,
    }
}

/// The outer child rises over the pair at `s`, and takes the rank of the node at `i` if there is no inner box.
fn raise_outer<K>(records: &mut [Record], s: u16, i: u16)
    ensures table { records.new ≡ raised_outer records.old s i }
{
    let rs = read(records, s);
    let ri = read(records, i);
    promote_outer::<K>(records, s);
    if rs.inner.is_some() {
        rank(records, rs.second, UNRANKED);
        return;
    }
    rank(records, rs.second, ri.rank);
}

/// A step down where the struck reading is the first of the right child.
fn sink_right<K>(records: &mut [Record], s: u16) -> Sinking
    ensures table { records.new ≡ (sunk_right records.old s).table }
    ensures ends { result ≡ (sunk_right records.old s).ends }
{
    let rs = read(records, s);
    let rw = read(records, rs.first);
    if above_leaves(records, s) {
        let places = freed_places(records, s, rw.second);
        replace_pair(records, s, rw.first);
        return Sinking::Done(rw.first, places);
    }
    if made_first(records, rw.first, rw.second, rs.second) {
        promote_left::<K>(records, s);
        return Sinking::On(s);
    }
    if made_first(records, rs.second, rw.first, rw.second) {
        raise_outer::<K>(records, s, rw.first);
        return Sinking::On(s);
    }
    Sinking::On(rw.second)
}

/// A step down where the struck reading is the first of the left child, and there is no inner box.
/// It is no twin of the step before: left and right change places where the struck reading would else be first.
fn sink_left<K>(records: &mut [Record], s: u16) -> Sinking
    ensures table { records.new ≡ (sunk_left records.old s).table }
    ensures ends { result ≡ (sunk_left records.old s).ends }
{
    let rs = read(records, s);
    let rw = read(records, rs.first);
    if above_leaves(records, s) {
        let places = freed_places(records, s, rw.first);
        replace_pair(records, s, rw.second);
        return Sinking::Done(rw.second, places);
    }
    if made_first(records, rw.second, rw.first, rs.second) {
        exchange(records, s);
        promote_left::<K>(records, s);
        return Sinking::On(s);
    }
    if made_first(records, rs.second, rw.first, rw.second) {
        raise_outer::<K>(records, s, rw.second);
        return Sinking::On(s);
    }
    exchange(records, s);
    Sinking::On(rw.first)
}

/// The child of the pair at `s` in which a code lies.
fn child_toward(records: &[Record], s: u16, code: u32) -> u16
    ensures value { result ≡ child_toward records.now s code }
{
    let rs = read(records, s);
    let rw = read(records, rs.first);
    if !rw.outer.holds(code) {
        return rs.second;
    }
    if read(records, rw.first).outer.holds(code) {
        return rw.first;
    }
    rw.second
}

/// One step down from the pair at `s`, to strike the reading with a code.
fn sink_pair<K>(records: &mut [Record], s: u16, code: u32) -> Sinking
    ensures table { records.new ≡ (sunk_pair records.old s code).table }
    ensures ends { result ≡ (sunk_pair records.old s code).ends }
{
    let rs = read(records, s);
    let rw = read(records, rs.first);
    if code == read(records, rw.second).rank.code {
        return sink_right::<K>(records, s);
    }
    if rs.inner.is_none() && code == read(records, rw.first).rank.code {
        return sink_left::<K>(records, s);
    }
    Sinking::On(child_toward(records, s, code))
}

/// One step down from the node at `s`, to strike the reading with a code.
pub fn sink<K>(records: &mut [Record], s: u16, code: u32) -> Sinking
    ensures table { records.new ≡ (sunk_in records.old s code).table }
    ensures ends { result ≡ (sunk_in records.old s code).ends }
    ensures stands { Sinks K records.old records.new s code result }
{
    if read(records, s).kind != Kind::Shrink {
        return Sinking::Lost;
    }
    sink_pair::<K>(records, s, code)
}
