// A map over two lent tables.
#![tactic(auto)]

ghost use Rattle.std.specs.Prelude.{◌≡◌, ◌&&◌, nat_eq, min, [], slice_index_or, MatchOption};
ghost use Rattle.map.specs.Maps.{state_of, Lends};
ghost use Rattle.records.specs.Kinds.{is_reading as is_reading_kind};
ghost use Rattle.records.specs.Writes.{at};
ghost use Rattle.records.specs.Promises.{Descends};
ghost use Rattle.tables.specs.Calls.{repeats};
ghost use Rattle.tables.specs.Finds.{LeafOf, Lacks};
ghost use Rattle.tables.specs.Stands.{Stands, Keeps};

mod calls;
mod comparison;
mod enter;
mod heights;
mod renewal;
mod strike;
mod tallies;

use crate::renewal::climb;
pub use comparison::{Compared, compare};
use records::{FreePlaces, Kind, Record, read_or, write};
pub use tables::{MapFault, Tallied};
use tally::Tally;

/// The tally at `i`, neutral past the end.
pub(crate) fn entry<K: Tally>(tallies: &[K], i: u16) -> K
    ensures { result ≡ slice_index_or tallies.now i K.Tally.neutral }
{
    read_or(tallies, i, K::neutral_value())
}

/// Whether a record is the leaf of the reading with a code.
pub(crate) fn is_reading(record: Record, code: u32) -> bool
    ensures value { result ≡ (is_reading_kind «record».kind && nat_eq «record».rank.code code) }
{
    record.kind == Kind::Reading && record.rank.code == code
}

/// How many places both tables have, 65,533 at most.
fn common(a: usize, b: usize) -> u16
    ensures { result ≡ min (min a b) 65533 }
{
    a.min(b).min(65533) as u16
}

/// A map of readings in two tables that its caller lent it. It takes no heap, so its nodes lie in the table of records and
/// name one another by their places. The tables stay two slices, as they are lent: an inner call takes the one that it
/// writes, or both. Each public call says in `lends` that they are those, and each question in `same` that nothing changed:
/// both speak of the map before and after a call, which an invariant cannot.
#[derive(Drop)]
pub struct Map<'a, K> {
    pub(crate) records: &'a mut [Record],
    pub(crate) tallies: &'a mut [K],
    pub(crate) places: u16,
    pub(crate) root: Option<u16>,
    pub(crate) live: u16,
    pub(crate) free: FreePlaces,
}

impl<'a, K: Tally> Map<'a, K> {
    /// An empty map over both tables. It writes nothing.
    pub fn open(records: &'a mut [Record], tallies: &'a mut [K]) -> Map<'a, K>
        ensures stands { Stands K.Tally.joined K.Tally.neutral (state_of result) [] }
        ensures same { (result.records.now ≡ records.old) × (result.tallies.now ≡ tallies.old) }
        ensures lends { (result.records.ghost_name ≡ records.entry.ghost_name) × (result.tallies.ghost_name ≡ tallies.entry.ghost_name) }
    {
        let places = common(records.len(), tallies.len());
        Map {
            records,
            tallies,
            places,
            root: None,
            live: 0,
            free: nodes::none_used(),
        }
    }

    /// The record at `i`, blank past the end.
    pub(crate) fn node(&self, i: u16) -> Record
        ensures { result ≡ at self.now.records.now i }
    {
        records::read(self.records, i)
    }

    /// The tally at `i`, neutral past the end.
    fn entry(&self, i: u16) -> K
        ensures { result ≡ slice_index_or self.now.tallies.now i K.Tally.neutral }
    {
        entry(self.tallies, i)
    }

    /// The leaf where a code leads from the root.
    pub(crate) fn descend(&self, root: u16, code: u32) -> u16
        ensures { Descends K self.now.records.now root code self.now.places result }
    {
        nodes::descend::<K>(self.records, root, code, self.places as u32)
    }

    /// The leaf of the reading with a code, and its record.
    pub(crate) fn find(&self, code: u32) -> Option<(u16, Record)>
        ensures value { MatchOption result (Lacks K.Tally.joined K.Tally.neutral (state_of self.now) code) (λ f. LeafOf (state_of self.now) code f.0 f.1) }
    {
        let root = self.root?;
        let leaf = self.descend(root, code);
        let r = self.node(leaf);
        if is_reading(r, code) {
            return Some((leaf, r));
        }
        None
    }

    /// Joins a tally to that of the reading with a code.
    pub(crate) fn again_code(&mut self, code: u32, extra: K) -> Result<u16, MapFault>
        ensures keeps { Keeps K.Tally.joined K.Tally.neutral (state_of self.old) (state_of self.new) (repeats code extra) result }
        ensures lends { Lends self.old self.new }
    {
        let Some((leaf, r)) = self.find(code) else {
            return Err(MapFault::Absent);
        };
        let places = self.places;
        let old = self.entry(leaf);
        write(self.tallies, leaf, old.join(extra));
        climb(self.records, self.tallies, places, r.parent);
        Ok(self.live)
    }
}
