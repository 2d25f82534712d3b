use crate::{Counts, HalfReading, ReadingFault};
use std::test::Fail;

/// The delay of a reading that is to be accepted.
fn accepted(from: u32, to: u32) -> Result<u32, Fail> {
    match HalfReading::take(7, from).complete_or_give_up(9, to) {
        Ok(whole) => {
            let delay = whole.delay();
            let _counts = whole.spend();
            Ok(delay)
        }
        Err(_fault) => Err(Fail::new("refused")),
    }
}

/// The number of the fault of a reading that is to be refused, with the half reading that came back.
fn refused(from: u32, to: u32) -> Result<(u8, (u16, u32)), Fail> {
    match HalfReading::take(7, from).complete(9, to) {
        Ok(whole) => {
            let _counts = whole.spend();
            Err(Fail::new("accepted"))
        }
        Err((half, fault)) => Ok((fault.number(), half.give_up())),
    }
}

#[test]
fn a_root_up_to_the_limit_is_accepted(rt: HostRuntime) -> Result<(), Fail> {
    assert_eq!(rt; accepted(1000, 1000)?, 0);
    assert_eq!(rt; accepted(1000, 1020)?, 20);
    Ok(())
}

#[test]
fn a_root_past_the_limit_is_late(rt: HostRuntime) -> Result<(), Fail> {
    assert_eq!(rt; refused(1000, 1021)?, (2, (7, 1000)));
    Ok(())
}

#[test]
fn a_root_before_its_motor_is_early(rt: HostRuntime) -> Result<(), Fail> {
    assert_eq!(rt; refused(1000, 999)?, (1, (7, 1000)));
    Ok(())
}

#[test]
fn times_do_not_wrap(rt: HostRuntime) -> Result<(), Fail> {
    assert_eq!(rt; accepted(4294967295, 4294967295)?, 0);
    assert_eq!(rt; refused(4294967295, 0)?, (1, (7, 4294967295)));
    assert_eq!(rt; accepted(4294967285, 4294967295)?, 10);
    Ok(())
}

#[test]
fn every_count_is_kept(rt: HostRuntime) -> Result<(), Fail> {
    match HalfReading::take(0, 5).complete_or_give_up(65535, 6) {
        Ok(whole) => {
            let seen = (
                whole.motor(),
                whole.root(),
                whole.motor_time(),
                whole.root_time(),
            );
            let counts = whole.spend();
            assert_eq!(rt; seen, (0, 65535, 5, 6));
            assert_eq!(rt;
                counts,
                Counts {
                    motor: 0,
                    root: 65535,
                    motor_time: 5,
                    root_time: 6,
                }
            );
            Ok(())
        }
        Err(_fault) => Err(Fail::new("refused")),
    }
}

#[test]
fn a_half_reading_that_is_refused_leaves_its_fault(rt: HostRuntime) -> Result<(), Fail> {
    match HalfReading::take(7, 5).complete_or_give_up(9, 26) {
        Ok(whole) => {
            let _counts = whole.spend();
            Err(Fail::new("accepted"))
        }
        Err(fault) => {
            assert_eq!(rt; fault, ReadingFault::Late);
            Ok(())
        }
    }
}

#[test]
fn a_half_reading_is_given_up_with_its_numbers(rt: HostRuntime) {
    assert_eq!(rt; HalfReading::take(65535, 8).give_up(), (65535, 8));
    assert_eq!(rt; ReadingFault::Early.number(), 1);
    assert_eq!(rt; ReadingFault::Late.number(), 2);
}
