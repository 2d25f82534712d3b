//! Entering a reading.
ghost use Rattle.std.specs.Prelude.{◌≡◌, ◌+◌, ◌/◌, ◌^◌, ◌<◌, false, nat_le};
ghost use Rattle.map.specs.Maps.{state_of, Lends};
ghost use Rattle.records.specs.Free.{next as next_free, left_after, four_taken, four_left};
ghost use Rattle.tables.specs.Calls.{enters};
ghost use Rattle.tables.specs.Stands.{Keeps, started, grown};

use crate::renewal::mend_and_rise;
use crate::{Map, is_reading};
use quadtreap::Rank;
use records::{FourPlaces, FreePlaces, write};
use tables::MapFault;
use tally::Tally;

impl<'a, K: Tally> Map<'a, K> {
    /// Whether as many readings are live as the places have room for.
    fn is_full(&self) -> bool
        ensures value { result ≡ nat_le ((self.now.places + 3) / 4) self.now.live }
        ensures room { result ≡ false → self.now.live + 1 < 2 ^ 16 }
    {
        (self.places as u32 + 3) / 4 <= self.live as u32
    }

    /// The next free place, and the free places once it is taken. It is asked by a shared reference, since the check does
    /// not follow a field of a map that is lent as `&` where the map is held as `&mut`.
    fn one_free(&self) -> (u16, FreePlaces)
        ensures value { result ≡ (next_free self.now.free, left_after self.now.records.now self.now.free) }
    {
        let place = nodes::next_free(self.free);
        (place, nodes::take(self.records, self.free))
    }

    /// Four free places, and the free places once they are taken. By a shared reference, as the call before.
    fn four_free(&self) -> (FourPlaces, FreePlaces)
        ensures value { result ≡ (four_taken self.now.records.now self.now.free, four_left self.now.records.now self.now.free) }
    {
        nodes::take_four(self.records, self.free)
    }

    /// Makes the first reading the tree, at one free place.
    fn start(&mut self, rank: Rank, extra: K)
        ensures run { state_of self.new ≡ started (state_of self.old) rank.code rank.priority extra }
        ensures lends { Lends self.old self.new }
    {
        let (i, left) = self.one_free();
        nodes::plant_first::<K>(self.records, i, rank);
        write(self.tallies, i, extra);
        self.root = Some(i);
        self.live = 1;
        self.free = left;
    }

    /// Makes the leaf at `i` a pair over what it held and a new reading, at four free places, and settles each pair up to the root.
    fn grow(&mut self, i: u16, rank: Rank, extra: K)
        requires { self.old.live + 1 < 2 ^ 16 }
        ensures run { state_of self.new ≡ grown K.Tally.joined K.Tally.neutral (state_of self.old) i rank.code rank.priority extra }
        ensures lends { Lends self.old self.new }
    {
        let (n, left) = self.four_free();
        let places = self.places;
        nodes::plant::<K>(self.records, i, rank, n);
        write(self.tallies, n.reading, extra);
        write(self.tallies, n.outer, K::neutral_value());
        let top = mend_and_rise(self.records, self.tallies, places, n.shrink);
        self.root = Some(top);
        self.live += 1;
        self.free = left;
    }

    /// Puts the reading with a rank on the roll, with a tally.
    /// It does not ask `find`, so that it goes down once: a new reading needs the leaf that holds none with its code.
    pub(crate) fn enter_ranked(&mut self, rank: Rank, extra: K) -> Result<u16, MapFault>
        ensures keeps { Keeps K.Tally.joined K.Tally.neutral (state_of self.old) (state_of self.new) (enters rank.code rank.priority extra) result }
        ensures lends { Lends self.old self.new }
    {
        let Some(root) = self.root else {
            if self.is_full() {
                return Err(MapFault::Full);
            }
            self.start(rank, extra);
            return Ok(1);
        };
        let leaf = self.descend(root, rank.code);
        let record = self.node(leaf);
        if is_reading(record, rank.code) {
            return Err(MapFault::Taken);
        }
        if self.is_full() {
            return Err(MapFault::Full);
        }
        self.grow(leaf, rank, extra);
        Ok(self.live)
    }
}
