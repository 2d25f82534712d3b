//! The calls on the list of the live readings.
ghost use Rattle.std.specs.Prelude.{◌≡◌, ◌≤◌, [], length, map, IfOk, IfErr};
ghost use Rattle.std.specs.List.{position_or_len};
ghost use Rattle.quadtreap.specs.Carry.{carry, carry_all};
ghost use Rattle.tables.specs.Calls.{present, full, more, enters, repeats, strikes, enter_at, again_at, strike_at};
ghost use Rattle.replay.specs.Runs.{places_used};
ghost use Rattle.replay.specs.Weights.{joined};
ghost use Rattle.rebuild.specs.Trees.{reading_of};
ghost use Rattle.rebuild.specs.Rolls.{readings, comes_after, Called};

use crate::node::Live;
use crate::roll::Roll;
use place::Place;
use quadtreap::Rank;
use reading::WholeReading;
use replay::Weighed;
use std::alloc::{AllocError, Global};
use tables::MapFault;
use tally::Tally;

/// Whether a live reading has a code.
/// A loop and no `any`: the proof of what that answers did not close.
fn present(readings: &[Live], code: u32) -> bool
    ensures value { result ≡ present code (map reading_of readings.now) }
{
    for reading in readings {
        if reading.rank.code == code {
            return true;
        }
    }
    false
}

/// How many readings stand before the first that ranks after a rank.
/// A loop that counts, and no `position`: the proof of what that answers did not close.
#[tactic(auto, unfolding(quadtreap::specs::Rank::earlier))]
fn place_of(readings: &[Live], rank: Rank) -> usize
    ensures bound { result ≤ length readings.now }
    ensures value { result ≡ position_or_len (comes_after rank) readings.now }
{
    let mut i = 0;
    for reading in readings {
        if rank < reading.rank {
            return i;
        }
        i += 1;
    }
    i
}

/// A reading with a tally joined to its own, if it has the code.
fn joined_to(reading: Live, code: u32, extra: Weighed) -> Live
    ensures value { reading_of result ≡ carry (more joined code extra) (reading_of reading) }
{
    if reading.rank.code == code {
        Live {
            tally: reading.tally.join(extra),
            ..reading
        }
    } else {
        reading
    }
}

/// Joins a tally to that of each reading with a code.
fn join_all(readings: &mut [Live], code: u32, extra: Weighed)
    ensures value { map reading_of readings.new ≡ carry_all (more joined code extra) (map reading_of readings.old) }
{
    for reading in readings.iter_mut() {
        *reading = joined_to(*reading, code, extra);
    }
}

impl Roll {
    /// A map of as many places as are asked for, with no reading.
    pub fn open(heap: Global, places: usize) -> Roll
        ensures places { result.places ≡ places_used places }
        ensures empty { readings result ≡ [] }
    {
        Roll {
            places: places.min(65533) as u16,
            live: Vec::new(heap),
        }
    }

    /// How many readings are live.
    pub fn number_live(&self) -> u16
        ensures value { result ≡ length (readings self.now) }
    {
        self.live.len() as u16
    }

    /// Whether as many readings are live as the places have room for.
    fn is_full(&self) -> bool
        ensures value { result ≡ full self.now.places (readings self.now) }
    {
        (self.places as usize + 3) / 4 <= self.live.len()
    }

    /// Puts a reading at its rank, if its code is new and there is room.
    fn put(&mut self, new: Live) -> Result<Result<u16, MapFault>, AllocError>
        ensures called { IfOk result (λ a. Called self.old.places (enters new.rank.code new.rank.priority new.tally) (readings self.old) (readings self.new) a) }
        ensures unchanged { IfErr result (λ e. readings self.new ≡ readings self.old) }
        ensures places { self.new.places ≡ self.old.places }
    {
        if present(&self.live, new.rank.code) {
            return Ok(Err(MapFault::Taken));
        }
        if self.is_full() {
            return Ok(Err(MapFault::Full));
        }
        let i = place_of(&self.live, new.rank);
        self.live.insert(i, new)?;
        Ok(Ok(self.number_live()))
    }

    /// Joins a tally to that of the reading with a code.
    fn join(&mut self, code: u32, extra: Weighed) -> Result<u16, MapFault>
        ensures called { Called self.old.places (repeats code extra) (readings self.old) (readings self.new) result }
        ensures places { self.new.places ≡ self.old.places }
    {
        if !present(&self.live, code) {
            return Err(MapFault::Absent);
        }
        join_all(&mut self.live, code, extra);
        Ok(self.number_live())
    }

    /// Takes the reading with a code off the list.
    fn take(&mut self, code: u32) -> Result<u16, MapFault>
        ensures called { Called self.old.places (strikes code) (readings self.old) (readings self.new) result }
        ensures places { self.new.places ≡ self.old.places }
    {
        if !present(&self.live, code) {
            return Err(MapFault::Absent);
        }
        self.live.retain(|reading| reading.rank.code != code);
        Ok(self.number_live())
    }

    /// Enters a whole reading with a priority and a tally, and uses the reading up, accepted or refused.
    pub fn enter(
        &mut self,
        reading: WholeReading,
        priority: u32,
        tally: Weighed,
    ) -> Result<Result<u16, MapFault>, AllocError>
        ensures called { IfOk result (λ a. Called self.old.places (enter_at reading.motor reading.root priority tally) (readings self.old) (readings self.new) a) }
        ensures unchanged { IfErr result (λ e. readings self.new ≡ readings self.old) }
        ensures places { self.new.places ≡ self.old.places }
    {
        let counts = reading.spend();
        let place = Place {
            motor: counts.motor,
            root: counts.root,
        };
        let code = place.code();
        self.put(Live {
            rank: Rank { priority, code },
            tally,
        })
    }

    /// Joins a tally to that of the reading at a place.
    pub fn again(&mut self, place: Place, tally: Weighed) -> Result<u16, MapFault>
        ensures called { Called self.old.places (again_at place.motor place.root tally) (readings self.old) (readings self.new) result }
        ensures places { self.new.places ≡ self.old.places }
    {
        let code = place.code();
        self.join(code, tally)
    }

    /// Strikes the reading at a place.
    pub fn strike(&mut self, place: Place) -> Result<u16, MapFault>
        ensures called { Called self.old.places (strike_at place.motor place.root) (readings self.old) (readings self.new) result }
        ensures places { self.new.places ≡ self.old.places }
    {
        let code = place.code();
        self.take(code)
    }
}
