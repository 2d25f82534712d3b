//! Shapes: an inner and an outer set of places, and exact tests of rectangles and places against them.
#![tactic(auto)]

mod band;
mod bands;
mod disc;
mod discs;
mod fault;
mod faults;
mod shapes;

pub use band::Band;
pub use disc::Disc;
pub use fault::ShapeFault;
pub use faults::refusals_mean;
pub use shapes::Shape;

#[cfg(test)]
mod tests {
    use super::*;
    use place::{Place, PlaceBox};
    use std::test::Fail;

    const CORNER: Place = Place { motor: 0, root: 0 };

    #[test]
    fn discs_refuse_by_number(rt: HostRuntime) -> Result<(), Fail> {
        assert!(rt; Disc::new(CORNER, 0, 0).is_ok());
        assert!(rt; Disc::new(CORNER, 100000, 100000).is_ok());
        match Disc::new(CORNER, 100002, 100001) {
            Ok(_) => Err(Fail::new("a radius above the limit"))?,
            Err(fault) => assert_eq!(rt; fault.number(), 3),
        }
        match Disc::new(CORNER, 6, 5) {
            Ok(_) => Err(Fail::new("an inner radius above the outer")),
            Err(fault) => {
                assert_eq!(rt; fault.number(), 4);
                Ok(())
            },
        }
    }

    #[test]
    fn bands_refuse_by_number(rt: HostRuntime) -> Result<(), Fail> {
        assert!(rt; Band::new(7, 7, 9, 9, 0).is_ok());
        match Band::new(2, 1, 2, 1, 0) {
            Ok(_) => Err(Fail::new("reversed motor ends"))?,
            Err(fault) => assert_eq!(rt; fault.number(), 5),
        }
        match Band::new(1, 2, 2, 1, 0) {
            Ok(_) => Err(Fail::new("reversed root ends")),
            Err(fault) => {
                assert_eq!(rt; fault.number(), 6);
                Ok(())
            },
        }
    }

    #[test]
    fn discs_test_by_squares(rt: HostRuntime) -> Result<(), Fail> {
        let Ok(disc) = Disc::new(
            Place {
                motor: 100,
                root: 100,
            },
            5,
            10,
        ) else {
            return Err(Fail::new("a disc"));
        };
        assert!(rt;
            disc.has(Place {
                motor: 103,
                root: 104,
            })
        );
        assert!(rt;
            !disc.has(Place {
                motor: 104,
                root: 104,
            })
        );
        assert!(rt; !disc.misses(PlaceBox::whole().rectangle()));
        assert!(rt; !disc.held(PlaceBox::whole().rectangle()));
        assert!(rt;
            disc.held(PlaceBox::point(Place {
                motor: 106,
                root: 108,
            }
            .code())
            .rectangle())
        );
        assert!(rt;
            !disc.held(PlaceBox::point(Place {
                motor: 107,
                root: 108,
            }
            .code())
            .rectangle())
        );
        assert!(rt;
            disc.misses(PlaceBox::point(Place {
                motor: 104,
                root: 104,
            }
            .code())
            .rectangle())
        );
        Ok(())
    }

    #[test]
    fn discs_of_one_place_and_at_corners(rt: HostRuntime) -> Result<(), Fail> {
        let last = Place {
            motor: 65535,
            root: 65535,
        };
        let Ok(spot) = Disc::new(last, 0, 100000) else {
            return Err(Fail::new("a disc"));
        };
        assert!(rt; spot.has(last));
        assert!(rt;
            !spot.has(Place {
                motor: 65535,
                root: 65534,
            })
        );
        assert!(rt; spot.held(PlaceBox::whole().rectangle()));
        assert_eq!(rt; spot.crossing_sum(), 0);
        let Ok(edge) = Disc::new(CORNER, 2, 5) else {
            return Err(Fail::new("a disc"));
        };
        assert_eq!(rt; edge.crossing_sum(), 135);
        Ok(())
    }

    #[test]
    fn bands_widen_by_their_margin(rt: HostRuntime) -> Result<(), Fail> {
        let Ok(band) = Band::new(7, 7, 9, 9, 1) else {
            return Err(Fail::new("a band"));
        };
        let near = PlaceBox::point(Place { motor: 8, root: 10 }.code()).rectangle();
        assert!(rt; band.has(Place { motor: 7, root: 9 }));
        assert!(rt; !band.has(Place { motor: 8, root: 9 }));
        assert!(rt; band.misses(near));
        assert!(rt; band.held(near));
        let Ok(wide) = Band::new(65535, 65535, 0, 0, 65535) else {
            return Err(Fail::new("a band"));
        };
        assert!(rt; wide.held(PlaceBox::whole().rectangle()));
        assert!(rt; !wide.misses(PlaceBox::whole().rectangle()));
        Ok(())
    }
}
