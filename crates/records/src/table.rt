//! One entry of a table: read, written, or a record linked to another child.
ghost use Rattle.std.specs.Prelude.{◌≡◌, slice_index_or, slice_set};
ghost use Rattle.records.specs.Writes.{at, with_rank, with_first, with_second, relinked};

use crate::kind::Kind;
use crate::record::{BoxNumbers, Record};
use quadtreap::{Rank, UNRANKED};

/// A record of zeros and no inner box, for tables that hold nothing yet.
pub const BLANK: Record = Record {
    kind: Kind::Reading,
    outer: BoxNumbers { depth: 0, code: 0 },
    inner: None,
    first: 0,
    second: 0,
    parent: None,
    rank: UNRANKED,
};

/// The entry at a place, `past_end` past the end.
pub fn read_or<T: Copy>(entries: &[T], place: u16, past_end: T) -> T
    ensures value { result ≡ slice_index_or entries.now place past_end }
{
    entries.get(usize::from(place)).copied().unwrap_or(past_end)
}

/// The record at a place, blank past the end.
pub fn read(records: &[Record], place: u16) -> Record
    ensures value { result ≡ at records.now place }
{
    read_or(records, place, BLANK)
}

/// Writes an entry, if its place is in the table.
pub fn write<T: Copy>(entries: &mut [T], place: u16, value: T)
    ensures table { entries.new ≡ slice_set entries.old place value }
{
    // By its place, since the contract of `get_mut` does not say what the slice ends as.
    let place = usize::from(place);
    if place < entries.len() {
        entries[place] = value;
    }
}

/// Gives the record at a place, if there is one, another rank. Nothing else of it is read or written, where a record written
/// whole would be built anew from its parts.
pub fn set_rank(records: &mut [Record], place: u16, rank: Rank)
    ensures table { records.new ≡ slice_set records.old place (with_rank (at records.old place) rank) }
{
    let place = usize::from(place);
    if place < records.len() {
        records[place].rank = rank;
    }
}

/// Gives the record at a place, if there is one, another first child. Nothing else of it is read or written.
pub fn set_first(records: &mut [Record], place: u16, child: u16)
    ensures table { records.new ≡ slice_set records.old place (with_first (at records.old place) child) }
{
    let place = usize::from(place);
    if place < records.len() {
        records[place].first = child;
    }
}

/// Gives the record at a place, if there is one, another second child. Nothing else of it is read or written.
pub fn set_second(records: &mut [Record], place: u16, child: u16)
    ensures table { records.new ≡ slice_set records.old place (with_second (at records.old place) child) }
{
    let place = usize::from(place);
    if place < records.len() {
        records[place].second = child;
    }
}

/// Gives the record at a place, if there is one, two other children. Nothing else of it is read or written.
pub fn set_children(records: &mut [Record], place: u16, first: u16, second: u16)
    ensures table { records.new ≡ slice_set records.old place (with_second (with_first (at records.old place) first) second) }
{
    let place = usize::from(place);
    if place < records.len() {
        records[place].first = first;
        records[place].second = second;
    }
}

/// Has the node at a place, if there is one, name the child `new` where it names `old`.
pub fn relink(records: &mut [Record], place: Option<u16>, old: u16, new: u16)
    ensures table { records.new ≡ relinked records.old place old new }
{
    let Some(place) = place else {
        return;
    };
    if read(records, place).first == old {
        set_first(records, place, new);
        return;
    }
    set_second(records, place, new);
}
