//! The calls on a map, by places and readings.
ghost use Rattle.std.specs.Prelude.{◌≡◌};
ghost use Rattle.map.specs.Maps.{state_of, Lends};
ghost use Rattle.tables.specs.Calls.{enter_at, again_at, strike_at};
ghost use Rattle.tables.specs.Stands.{Keeps};
ghost use Rattle.tables.specs.Heights.{LiveCount};

use crate::Map;
use place::Place;
use quadtreap::Rank;
use reading::WholeReading;
use tables::MapFault;
use tally::Tally;

impl<'a, K: Tally> Map<'a, K> {
    /// Enters a whole reading with a priority and a tally, and uses the reading up, accepted or refused.
    pub fn enter(&mut self, reading: WholeReading, priority: u32, tally: K) -> Result<u16, MapFault>
        ensures keeps { Keeps K.Tally.joined K.Tally.neutral (state_of self.old) (state_of self.new) (enter_at reading.motor reading.root priority tally) result }
        ensures lends { Lends self.old self.new }
    {
        let counts = reading.spend();
        let place = Place {
            motor: counts.motor,
            root: counts.root,
        };
        let code = place.code();
        self.enter_ranked(Rank { priority, code }, tally)
    }

    /// Joins a tally to that of the reading at a place.
    pub fn again(&mut self, place: Place, tally: K) -> Result<u16, MapFault>
        ensures keeps { Keeps K.Tally.joined K.Tally.neutral (state_of self.old) (state_of self.new) (again_at place.motor place.root tally) result }
        ensures lends { Lends self.old self.new }
    {
        let code = place.code();
        self.again_code(code, tally)
    }

    /// Strikes the reading at a place.
    pub fn strike(&mut self, place: Place) -> Result<u16, MapFault>
        ensures keeps { Keeps K.Tally.joined K.Tally.neutral (state_of self.old) (state_of self.new) (strike_at place.motor place.root) result }
        ensures lends { Lends self.old self.new }
    {
        let code = place.code();
        self.strike_code(code)
    }

    /// How many readings are live.
    pub fn number_live(&mut self) -> u16
        ensures value { LiveCount K.Tally.joined K.Tally.neutral (state_of self.old) result }
        ensures same { state_of self.new ≡ state_of self.old }
        ensures lends { Lends self.old self.new }
    {
        self.live
    }
}
