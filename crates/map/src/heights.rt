//! The question for the height.
ghost use Rattle.std.specs.Prelude.{◌≡◌};
ghost use Rattle.map.specs.Maps.{state_of, Lends};
ghost use Rattle.tables.specs.Heights.{Heights};

use crate::Map;
use tally::Tally;

impl<'a, K: Tally> Map<'a, K> {
    /// The height of the tree, 0 where no reading is live.
    pub fn height(&mut self) -> u16
        ensures value { Heights K.Tally.joined K.Tally.neutral (state_of self.old) result }
        ensures same { state_of self.new ≡ state_of self.old }
        ensures lends { Lends self.old self.new }
    {
        self.levels()
    }

    /// The height, by a shared reference.
    fn levels(&self) -> u16
        ensures value { Heights K.Tally.joined K.Tally.neutral (state_of self.now) result }
    {
        let Some(root) = self.root else {
            return 0;
        };
        nodes::height::<K>(self.records, root, self.places)
    }
}
