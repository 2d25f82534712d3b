//! Places, their codes, the boxes that codes share, and intervals of counts and rectangles of places.
#![tactic(auto)]

mod boxes;
mod interval;
mod intervals;
mod place;
mod place_box;
mod rectangle;

pub use interval::Interval;
pub use place::Place;
pub use place_box::PlaceBox;
pub use rectangle::Rectangle;

#[cfg(test)]
mod tests {
    use super::*;
    use std::test::Fail;

    #[test]
    fn codes_interleave_the_counts(rt: HostRuntime) {
        assert_eq!(rt; Place { motor: 3, root: 0 }.code(), 10);
        assert_eq!(rt; Place { motor: 0, root: 3 }.code(), 5);
        assert_eq!(rt;
            Place {
                motor: 65535,
                root: 0,
            }
            .code(),
            0xaaaa_aaaa
        );
        assert_eq!(rt;
            Place {
                motor: 0,
                root: 65535,
            }
            .code(),
            0x5555_5555
        );
        assert_eq!(rt;
            Place {
                motor: 65535,
                root: 65535,
            }
            .code(),
            u32::MAX
        );
        assert_eq!(rt;
            Place::of_code(18937353),
            Place {
                motor: 1234,
                root: 4321,
            }
        );
        assert_eq!(rt;
            Place::of_code(u32::MAX),
            Place {
                motor: 65535,
                root: 65535,
            }
        );
    }

    #[test]
    fn boxes_clear_the_bits_below_their_depth(rt: HostRuntime) {
        assert_eq!(rt; PlaceBox::new(0, u32::MAX), PlaceBox::whole());
        assert_eq!(rt; PlaceBox::new(31, u32::MAX).code, u32::MAX - 1);
        assert_eq!(rt; PlaceBox::new(32, u32::MAX), PlaceBox::point(u32::MAX));
        assert_eq!(rt; PlaceBox::new(255, 7), PlaceBox::point(7));
        assert_eq!(rt; PlaceBox::new(1, 0x8000_0001).code, 0x8000_0000);
    }

    #[test]
    fn boxes_hold_the_codes_that_share_their_bits(rt: HostRuntime) {
        assert!(rt; PlaceBox::whole().holds(u32::MAX));
        assert!(rt; PlaceBox::new(31, 6).holds(7));
        assert!(rt; !PlaceBox::new(31, 6).holds(5));
        assert!(rt; PlaceBox::point(7).holds(7));
        assert!(rt; !PlaceBox::point(7).holds(6));
    }

    #[test]
    fn halves_hold_their_code(rt: HostRuntime) {
        assert_eq!(rt; PlaceBox::whole().half(7), Some(PlaceBox::new(1, 0)));
        assert_eq!(rt; PlaceBox::new(31, 6).half(7), Some(PlaceBox::point(7)));
        assert_eq!(rt; PlaceBox::new(31, 6).half(8), None);
        assert_eq!(rt; PlaceBox::point(7).half(7), None);
    }

    #[test]
    fn smallest_boxes_hold_both(rt: HostRuntime) {
        assert_eq!(rt; PlaceBox::smallest_of(7, 7), PlaceBox::point(7));
        assert_eq!(rt; PlaceBox::smallest_of(0, u32::MAX), PlaceBox::whole());
        assert_eq!(rt; PlaceBox::smallest_of(6, 7), PlaceBox::new(31, 6));
        assert_eq!(rt; PlaceBox::new(28, 0).smallest(3), PlaceBox::new(28, 0));
        assert_eq!(rt; PlaceBox::new(28, 0).smallest(16), PlaceBox::new(27, 0));
    }

    #[test]
    fn intervals_reach_to_their_ends(rt: HostRuntime) -> Result<(), Fail> {
        let (Some(some), Some(next)) = (Interval::new(3, 5), Interval::new(6, 9)) else {
            return Err(Fail::new("two intervals"));
        };
        assert_eq!(rt; Interval::new(5, 3), None);
        assert!(rt; some.has(3) && some.has(5));
        assert!(rt; !some.has(2) && !some.has(6));
        assert!(rt; !some.overlaps(next));
        assert!(rt; some.overlaps(next.widened(1)));
        assert!(rt; !some.within(next));
        assert!(rt; some.within(next.widened(3)));
        assert_eq!(rt; Some(some.widened(65535)), Interval::new(0, 65535));
        Ok(())
    }

    #[test]
    fn rectangles_have_the_places_of_their_box(rt: HostRuntime) {
        let whole = PlaceBox::whole().rectangle();
        assert_eq!(rt; Rectangle::new(0, 65535, 0, 65535), Some(whole));
        let upper = PlaceBox::new(1, u32::MAX).rectangle();
        assert_eq!(rt; Rectangle::new(32768, 65535, 0, 65535), Some(upper));
        let two = PlaceBox::smallest_of(0, 1).rectangle();
        assert_eq!(rt; Rectangle::new(0, 0, 0, 1), Some(two));
        let one = PlaceBox::point(10).rectangle();
        assert_eq!(rt; Rectangle::new(3, 3, 0, 0), Some(one));
        assert_eq!(rt; Rectangle::new(1, 0, 0, 0), None);
        assert_eq!(rt; Rectangle::new(0, 0, 1, 0), None);
    }

    #[test]
    fn rectangles_reach_to_their_ends(rt: HostRuntime) {
        let all = PlaceBox::whole().rectangle();
        let one = PlaceBox::point(10).rectangle();
        assert!(rt;
            all.has(Place {
                motor: 0,
                root: 65535,
            })
        );
        assert!(rt; one.has(Place { motor: 3, root: 0 }));
        assert!(rt; !one.has(Place { motor: 4, root: 0 }));
        assert!(rt; !one.has(Place { motor: 3, root: 1 }));
        assert!(rt; !one.has(Place { motor: 2, root: 0 }));
    }
}
