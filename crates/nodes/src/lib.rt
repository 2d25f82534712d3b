//! The nodes of a tree in a lent table of records: the way down to a leaf, a new pair, promotions, the steps of a rise
//! and of a strike, and the free places.
#![tactic(auto)]

mod descent;
mod free;
mod heights;
mod ordering;
mod planting;
mod promotion;
mod rise;
mod sinking;
mod striking;

pub use descent::descend;
pub use free::{give, give_four, next_free, none_used, take, take_four};
pub use heights::height;
pub use ordering::order;
pub use planting::{plant, plant_first};
pub use promotion::{promote_left, promote_outer};
pub use rise::{Settled, settle};
pub use sinking::sink;
pub use striking::strike;

#[cfg(test)]
mod tests {
    use super::*;
    use quadtreap::{Rank, UNRANKED};
    use records::{BoxNumbers, FreePlaces, Kind, NONE, Record, Sinking, read};

    const VACANT: Record = Record {
        kind: Kind::Reading,
        outer: BoxNumbers { depth: 0, code: 0 },
        inner: None,
        first: NONE,
        second: NONE,
        parent: None,
        rank: UNRANKED,
    };

    // A tree, by its root, and the places that are free.
    #[derive(Clone, Copy)]
    struct Grown {
        root: u16,
        free: FreePlaces,
    }

    // The root of the tree that has the node at `i`.
    fn top(records: &[Record], i: u16) -> u16 {
        let mut at = i;
        for _ in 0..64 {
            at = read(records, at).parent.unwrap_or(at);
        }
        at
    }

    fn rise(records: &mut [Record], s: u16) -> u16 {
        let mut at = s;
        for _ in 0..64 {
            if read(records, at).parent.is_some() {
                at = settle::<u8>(records, at).top;
            }
        }
        at
    }

    fn begin(records: &mut [Record], code: u32, priority: u32) -> Grown {
        let free = none_used();
        let root = next_free(free);
        let free = take(records, free);
        plant_first::<u8>(records, root, Rank { priority, code });
        Grown { root, free }
    }

    fn enter(records: &mut [Record], tree: Grown, code: u32, priority: u32) -> Grown {
        let leaf = descend::<u8>(records, tree.root, code, 64);
        let (places, free) = take_four(records, tree.free);
        plant::<u8>(records, leaf, Rank { priority, code }, places);
        let root = rise(records, places.shrink);
        Grown { root, free }
    }

    // The tree without a reading, with no root where no reading has the code.
    fn leave(records: &mut [Record], tree: Grown, code: u32) -> Grown {
        match strike::<u8>(records, tree.root, code, 64) {
            Sinking::Done(i, places) => {
                let root = top(records, i);
                let free = give_four(records, tree.free, places);
                Grown { root, free }
            }
            Sinking::On(_) => Grown { root: NONE, ..tree },
            Sinking::Lost => Grown { root: NONE, ..tree },
        }
    }

    fn holds(records: &[Record], tree: Grown, code: u32) -> bool {
        let r = read(records, descend::<u8>(records, tree.root, code, 64));
        r.kind == Kind::Reading && r.rank.code == code
    }

    fn three(records: &mut [Record]) -> Grown {
        let one = begin(records, 24, 5);
        let two = enter(records, one, 27, 7);
        enter(records, two, 2191532032, 6)
    }

    #[test]
    fn readings_that_come_are_found(rt: HostRuntime) {
        let mut table = [VACANT; 16];
        let tree = three(&mut table);
        assert!(rt; holds(&table, tree, 24));
        assert!(rt; holds(&table, tree, 27));
        assert!(rt; holds(&table, tree, 2191532032));
        assert!(rt; !holds(&table, tree, 25));
        let tree = enter(&mut table, tree, 0, 1);
        assert!(rt; holds(&table, tree, 0));
        assert_eq!(rt; read(&table, tree.root).rank.priority, 1);
        assert_eq!(rt; read(&table, tree.root).parent, None);
    }

    #[test]
    fn a_reading_that_is_struck_is_gone(rt: HostRuntime) {
        let mut table = [VACANT; 16];
        let tree = three(&mut table);
        let tree = leave(&mut table, tree, 27);
        assert!(rt; holds(&table, tree, 24));
        assert!(rt; holds(&table, tree, 2191532032));
        assert!(rt; !holds(&table, tree, 27));
        let split = read(&table, tree.root).first;
        assert_eq!(rt; read(&table, split).outer.depth, 0);
        assert_eq!(rt; leave(&mut table, tree, 25).root, NONE);
    }

    #[test]
    fn places_given_back_serve_again(rt: HostRuntime) {
        let mut table = [VACANT; 16];
        let tree = three(&mut table);
        assert_eq!(rt; tree.free.fresh, 9);
        let fewer = leave(&mut table, tree, 27);
        assert_eq!(rt; fewer.free.fresh, 9);
        let again = enter(&mut table, fewer, 28, 3);
        assert_eq!(rt; again.free.fresh, 9);
        assert_eq!(rt; again.free.freed, None);
    }
}
