//! Tests of the map by its public calls.
#![tactic(auto)]

#[cfg(test)]
mod tests {
    use map::{Map, MapFault};
    use place::Place;
    use quadtreap::Rank;
    use reading::{HalfReading, WholeReading};
    use records::{BoxNumbers, Kind, Record};
    use shape::Disc;
    use std::test::Fail;
    use tally::Sum;

    const USED_BOX: BoxNumbers = BoxNumbers { depth: 7, code: 7 };

    // What a table held before is of no matter.
    const USED: Record = Record {
        kind: Kind::Split,
        outer: USED_BOX,
        inner: Some(USED_BOX),
        first: 1,
        second: 2,
        parent: Some(3),
        rank: Rank {
            priority: 4,
            code: 5,
        },
    };

    fn whole(motor: u16, root: u16) -> Result<WholeReading, Fail> {
        HalfReading::take(motor, 0)
            .complete_or_give_up(root, 0)
            .map_err(|_| Fail::new("refused"))
    }

    #[test]
    fn five_places_take_two_readings(rt: HostRuntime) -> Result<(), Fail> {
        let mut records = [USED; 5];
        let mut tallies = [Sum::of(9); 6];
        let mut map = Map::open(&mut records, &mut tallies);
        assert_eq!(rt; map.enter(whole(0, 0)?, 10, Sum::of(1)), Ok(1));
        assert_eq!(rt;
            map.enter(whole(0, 0)?, 1, Sum::of(1)),
            Err(MapFault::Taken)
        );
        assert_eq!(rt; map.enter(whole(3, 0)?, 20, Sum::of(2)), Ok(2));
        assert_eq!(rt;
            map.enter(whole(0, 0)?, 1, Sum::of(1)),
            Err(MapFault::Taken)
        );
        assert_eq!(rt;
            map.enter(whole(9, 9)?, 30, Sum::of(4)),
            Err(MapFault::Full)
        );
        assert_eq!(rt; map.strike(Place { motor: 3, root: 0 }), Ok(1));
        assert_eq!(rt; map.enter(whole(9, 9)?, 30, Sum::of(4)), Ok(2));
        assert_eq!(rt;
            map.strike(Place { motor: 3, root: 0 }),
            Err(MapFault::Absent)
        );
        assert_eq!(rt; map.number_live(), 2);
        Ok(())
    }

    #[test]
    fn small_tables(rt: HostRuntime) -> Result<(), Fail> {
        let mut none: [Record; 0] = [];
        let mut tallies = [Sum::of(0); 4];
        let mut map = Map::open(&mut none, &mut tallies);
        assert_eq!(rt; map.enter(whole(1, 1)?, 0, Sum::of(1)), Err(MapFault::Full));
        assert_eq!(rt; map.height(), 0);
        let mut four = [USED; 4];
        let mut map = Map::open(&mut four, &mut tallies);
        assert_eq!(rt;
            map.enter(whole(65535, 65535)?, 4294967295, Sum::of(1)),
            Ok(1)
        );
        assert_eq!(rt; map.enter(whole(0, 0)?, 0, Sum::of(1)), Err(MapFault::Full));
        assert_eq!(rt;
            map.strike(Place {
                motor: 65535,
                root: 65535,
            }),
            Ok(0)
        );
        assert_eq!(rt; map.enter(whole(0, 0)?, 0, Sum::of(1)), Ok(1));
        Ok(())
    }

    #[test]
    fn figures_of_three_readings(rt: HostRuntime) -> Result<(), Fail> {
        let mut records = [USED; 12];
        let mut tallies = [Sum::of(0); 12];
        let mut map = Map::open(&mut records, &mut tallies);
        assert_eq!(rt; map.enter(whole(40000, 0)?, 30, Sum::of(4)), Ok(1));
        assert_eq!(rt; map.enter(whole(3, 0)?, 20, Sum::of(2)), Ok(2));
        assert_eq!(rt; map.enter(whole(0, 0)?, 10, Sum::of(1)), Ok(3));
        assert_eq!(rt; map.height(), 3);
        let Ok(disc) = Disc::new(Place { motor: 0, root: 0 }, 2, 5) else {
            return Err(Fail::new("a disc"));
        };
        let answer = map.tally(&disc);
        assert_eq!(rt; answer.tally.value(), 3);
        assert_eq!(rt; answer.expanded, 3);
        assert_eq!(rt; map.again(Place { motor: 0, root: 0 }, Sum::of(10)), Ok(3));
        assert_eq!(rt; map.tally(&disc).tally.value(), 13);
        assert_eq!(rt; map.strike(Place { motor: 3, root: 0 }), Ok(2));
        let answer = map.tally_disc(&disc);
        assert_eq!(rt; answer.tally.value(), 11);
        assert_eq!(rt; answer.expanded, 2);
        assert_eq!(rt; map.height(), 2);
        Ok(())
    }

    #[test]
    fn one_and_two_places_take_one_reading(rt: HostRuntime) -> Result<(), Fail> {
        let mut one = [USED; 1];
        let mut tallies = [Sum::of(0); 3];
        let mut map = Map::open(&mut one, &mut tallies);
        assert_eq!(rt; map.enter(whole(7, 7)?, 0, Sum::of(1)), Ok(1));
        assert_eq!(rt; map.enter(whole(8, 8)?, 0, Sum::of(1)), Err(MapFault::Full));
        let mut two = [USED; 2];
        let mut map = Map::open(&mut two, &mut tallies);
        assert_eq!(rt; map.enter(whole(7, 7)?, 0, Sum::of(1)), Ok(1));
        assert_eq!(rt; map.enter(whole(8, 8)?, 0, Sum::of(1)), Err(MapFault::Full));
        assert_eq!(rt; map.strike(Place { motor: 7, root: 7 }), Ok(0));
        assert_eq!(rt; map.enter(whole(7, 7)?, 0, Sum::of(1)), Ok(1));
        Ok(())
    }

    #[test]
    fn equal_priorities_and_a_struck_place_again(rt: HostRuntime) -> Result<(), Fail> {
        let mut records = [USED; 13];
        let mut tallies = [Sum::of(0); 13];
        let mut map = Map::open(&mut records, &mut tallies);
        assert_eq!(rt;
            map.enter(whole(65535, 65535)?, 4294967295, Sum::of(1)),
            Ok(1)
        );
        assert_eq!(rt; map.enter(whole(0, 0)?, 0, Sum::of(2)), Ok(2));
        assert_eq!(rt; map.enter(whole(5, 5)?, 0, Sum::of(4)), Ok(3));
        assert_eq!(rt; map.strike(Place { motor: 0, root: 0 }), Ok(2));
        assert_eq!(rt; map.enter(whole(0, 0)?, 0, Sum::of(8)), Ok(3));
        let Ok(disc) = Disc::new(Place { motor: 0, root: 0 }, 8, 8) else {
            return Err(Fail::new("a disc"));
        };
        assert_eq!(rt; map.tally(&disc).tally.value(), 12);
        assert_eq!(rt;
            map.again(Place { motor: 1, root: 0 }, Sum::of(1)),
            Err(MapFault::Absent)
        );
        Ok(())
    }
}
