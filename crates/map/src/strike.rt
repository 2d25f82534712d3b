// A reading is struck, and its places are given back.
ghost use Rattle.std.specs.Prelude.{◌≡◌};
ghost use Rattle.map.specs.Maps.{state_of, Lends};
ghost use Rattle.tables.specs.Calls.{strikes};
ghost use Rattle.tables.specs.Stands.{Keeps};
ghost use Rattle.tables.specs.Removal.{root_above, struck_state, emptied_state};

use crate::Map;
use crate::renewal::climb;
use records::{FourPlaces, Sinking};
use tables::MapFault;
use tally::Tally;

impl<'a, K: Tally> Map<'a, K> {
    /// The root of the tree that has the node at `from`.
    fn root_above(&self, from: u16) -> u16
        ensures { result ≡ root_above self.now.places self.now.records.now from }
    {
        let mut i = from;
        for _ in 0..self.places {
            let Some(up) = self.node(i).parent else {
                return i;
            };
            i = up;
        }
        i
    }

    /// Renews the tallies above the leaf at `i`, which took the place of a pair, and gives the places of that pair back.
    fn finish_strike(&mut self, i: u16, n: FourPlaces)
        ensures run { state_of self.new ≡ struck_state K.Tally.joined K.Tally.neutral (state_of self.old) i n }
        ensures lends { Lends self.old self.new }
    {
        let places = self.places;
        let r = self.node(i);
        let top = self.root_above(i);
        climb(self.records, self.tallies, places, r.parent);
        self.root = Some(top);
        self.live = self.live.saturating_sub(1);
        let before = self.free;
        let after = nodes::give_four(self.records, before, n);
        self.free = after;
    }

    /// Takes the only reading, at `i`, out of the map.
    fn strike_last(&mut self, i: u16)
        ensures run { state_of self.new ≡ emptied_state (state_of self.old) i }
        ensures lends { Lends self.old self.new }
    {
        self.root = None;
        self.live = self.live.saturating_sub(1);
        let before = self.free;
        self.free = nodes::give(self.records, before, i);
    }

    /// Strikes the reading with a code.
    pub(crate) fn strike_code(&mut self, code: u32) -> Result<u16, MapFault>
        ensures keeps { Keeps K.Tally.joined K.Tally.neutral (state_of self.old) (state_of self.new) (strikes code) result }
        ensures lends { Lends self.old self.new }
    {
        let (Some(root), Some((leaf, r))) = (self.root, self.find(code)) else {
            return Err(MapFault::Absent);
        };
        if r.parent.is_none() {
            self.strike_last(leaf);
            return Ok(self.live);
        }
        let budget = self.places as u32;
        match nodes::strike::<K>(self.records, root, code, budget) {
            Sinking::Done(i, places) => {
                self.finish_strike(i, places);
                Ok(self.live)
            }
            Sinking::On(_) | Sinking::Lost => Err(MapFault::Absent),
        }
    }
}
