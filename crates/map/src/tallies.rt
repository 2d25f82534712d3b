//! The question for the tally of a shape.
ghost use Rattle.std.specs.Prelude.{◌≡◌, ◌+◌, ◌*◌, ◌^◌, ◌<◌, slice_index_or};
ghost use Rattle.quadtreap.specs.Walk.{answer};
ghost use Rattle.map.specs.Maps.{state_of, Lends};
ghost use Rattle.records.specs.Writes.{at};
ghost use Rattle.tables.specs.Walks.{numbered, crossed, seen, arrived, returned, ran, starts};
ghost use Rattle.tables.specs.Tallies.{Answers};

use crate::Map;
use place::{Place, PlaceBox};
use records::{Kind, Record};
use shape::Shape;
use tables::{Position, Sight, Spot, Tallied};
use tally::Tally;

/// How a walk takes a node: by its outer box, and where that crosses by what `cross` says.
#[tactic(auto, using(tables::proofs::Sights::seen_in))]
fn look<S: Shape>(r: Record, shape: &S) -> Sight
    ensures value { result ≡ seen (numbered (S.Shape.inner shape.now) (S.Shape.outer shape.now)) r }
{
    let region = PlaceBox::new(r.outer.depth, r.outer.code).rectangle();
    if shape.misses(region) {
        return Sight::Misses;
    }
    if shape.held(region) {
        return Sight::Held;
    }
    cross(r, shape)
}

/// How a walk takes a node whose box crosses the shape.
fn cross<S: Shape>(r: Record, shape: &S) -> Sight
    ensures value { result ≡ crossed (numbered (S.Shape.inner shape.now) (S.Shape.outer shape.now)) r }
{
    match r.kind {
        Kind::Reading => {
            if shape.has(Place::of_code(r.rank.code)) {
                Sight::Held
            } else {
                Sight::Misses
            }
        }
        Kind::Box => Sight::Misses,
        Kind::Shrink | Kind::Split => Sight::Crosses,
    }
}

impl<'a, K: Tally> Map<'a, K> {
    /// The walk has come down to a node: passes it over, joins its tally, or goes down to its first child.
    /// It asks that there is room for one more expanded node, since the count is exact and its bound is that of the turns.
    fn arrive<S: Shape>(&self, shape: &S, node: u16, found: Tallied<K>) -> Spot<K>
        requires { found.expanded + 1 < 2 ^ 32 }
        ensures value { result ≡ arrived K.Tally.joined node (at self.now.records.now node) (slice_index_or self.now.tallies.now node K.Tally.neutral) found (seen (numbered (S.Shape.inner shape.now) (S.Shape.outer shape.now)) (at self.now.records.now node)) }
    {
        let r = self.node(node);
        match look(r, shape) {
            Sight::Misses => Spot {
                position: Position::Back(node),
                found,
            },
            Sight::Held => Spot {
                position: Position::Back(node),
                found: Tallied {
                    tally: found.tally.join(self.entry(node)),
                    ..found
                },
            },
            Sight::Crosses => Spot {
                position: Position::Down(r.first),
                found: Tallied {
                    expanded: found.expanded + 1,
                    ..found
                },
            },
        }
    }

    /// Where the walk goes from a node that it is done with: to the second child after the first, to the parent after the second.
    fn go_back(&self, node: u16) -> Position
        ensures value { result ≡ returned self.now.records.now (at self.now.records.now node).parent node }
    {
        let Some(parent) = self.node(node).parent else {
            return Position::Finished;
        };
        let r = self.node(parent);
        if r.first == node {
            Position::Down(r.second)
        } else {
            Position::Back(parent)
        }
    }

    /// A walk that has come down to the root, or is finished where there is none, with nothing tallied.
    fn first_spot(&self) -> Spot<K>
        ensures value { result ≡ starts self.now.root K.Tally.neutral }
    {
        Spot {
            position: match self.root {
                Some(root) => Position::Down(root),
                None => Position::Finished,
            },
            found: Tallied {
                tally: K::neutral_value(),
                expanded: 0,
            },
        }
    }

    /// What the walk from the root finds. It has at most two turns to each place, so that any tables give an answer.
    #[tactic(auto, using(tables::proofs::Runs::stops, tables::proofs::Runs::turns, tables::proofs::Runs::arrived_few))]
    fn walk<S: Shape>(&self, shape: &S) -> Tallied<K>
        ensures value { result ≡ ran K.Tally.joined K.Tally.neutral (numbered (S.Shape.inner shape.now) (S.Shape.outer shape.now)) self.now.records.now self.now.tallies.now (self.now.places * 2) (starts self.now.root K.Tally.neutral) }
    {
        let mut spot = self.first_spot();
        for _ in 0..(self.places as u32 * 2) {
            spot = match spot.position {
                Position::Down(node) => self.arrive(shape, node, spot.found),
                Position::Back(node) => Spot {
                    position: self.go_back(node),
                    ..spot
                },
                Position::Finished => return spot.found,
            };
        }
        spot.found
    }

    /// The tally of a shape: it has every live reading of the inner set, and none outside the outer set.
    pub fn tally<S: Shape>(&mut self, shape: &S) -> Tallied<K>
        ensures answers { Answers K.Tally.joined K.Tally.neutral (S.Shape.inner shape.now) (S.Shape.outer shape.now) (state_of self.old) (answer result.tally result.expanded) }
        ensures same { state_of self.new ≡ state_of self.old }
        ensures lends { Lends self.old self.new }
    {
        self.walk(shape)
    }
}
