use crate::{run, run_with};
use journal::{Entry, encode};
use std::alloc::Global;
use std::process::Abort;
use std::test::Fail;

/// The record of a reading whose root was read 5 ms after its motor.
fn enter(motor: u16, root: u16, priority: u32, weight: u32) -> Entry {
    Entry::Enter {
        motor,
        motor_time: 100,
        root,
        root_time: 105,
        priority,
        weight,
    }
}

fn disc(motor: u16, root: u16, inner: u32, outer: u32) -> Entry {
    Entry::Disc {
        motor,
        root,
        inner,
        outer,
    }
}

fn band(motors: (u16, u16), roots: (u16, u16), margin: u16) -> Entry {
    Entry::Band {
        lowest_motor: motors.0,
        highest_motor: motors.1,
        lowest_root: roots.0,
        highest_root: roots.1,
        margin,
    }
}

/// The journal of some records.
fn journal_of(heap: Global, records: &[Entry]) -> Result<Vec<u8>, Fail> {
    let mut bytes = Vec::new(heap);
    bytes.extend_from_slice(b"PAM\x00\x01")?;
    for entry in records {
        bytes.extend_from_slice(encode(*entry).as_bytes())?;
    }
    Ok(bytes)
}

/// A journal of bytes has the given printout.
fn prints_bytes(rt: &impl Abort, heap: Global, bytes: &[u8], text: &[u8]) -> Result<(), Fail> {
    let printout = run(heap, bytes)?;
    assert!(rt; printout.as_slice() == text);
    Ok(())
}

/// A journal of records has the given printout.
fn prints(rt: &impl Abort, heap: Global, records: &[Entry], text: &[u8]) -> Result<(), Fail> {
    let journal = journal_of(heap, records)?;
    prints_bytes(rt, heap, &journal, text)
}

#[test]
fn readings_are_refused_by_1_and_2(rt: HostRuntime) -> Result<(), Fail> {
    let early = Entry::Enter {
        motor: 1,
        motor_time: 100,
        root: 1,
        root_time: 99,
        priority: 0,
        weight: 1,
    };
    let late = Entry::Enter {
        motor: 1,
        motor_time: 100,
        root: 1,
        root_time: 121,
        priority: 0,
        weight: 1,
    };
    prints(
        &rt,
        rt.alloc(),
        &[early, late, Entry::Height, enter(1, 1, 0, 1)],
        b"1 refused 1\n2 refused 2\n3 height 0\n4 ok 1\n",
    )
}

#[test]
fn shapes_are_refused_by_3_to_6(rt: HostRuntime) -> Result<(), Fail> {
    prints(
        &rt,
        rt.alloc(),
        &[
            disc(0, 0, 100002, 100001),
            disc(0, 0, 6, 5),
            disc(0, 0, 100000, 100000),
            band((2, 1), (2, 1), 0),
            band((1, 2), (2, 1), 0),
            band((0, 65535), (0, 65535), 65535),
        ],
        b"1 refused 3\n2 refused 4\n3 tally 0 - - 0 0\n4 refused 5\n5 refused 6\n6 tally 0 - - 0 0\n",
    )
}

#[test]
fn the_map_refuses_by_7_and_9(rt: HostRuntime) -> Result<(), Fail> {
    let again = Entry::Again {
        motor: 3,
        root: 4,
        time: 90,
        weight: 2,
    };
    let strike = Entry::Strike { motor: 3, root: 4 };
    prints(
        &rt,
        rt.alloc(),
        &[
            again,
            strike,
            enter(3, 4, 9, 1),
            enter(3, 4, 9, 1),
            again,
            disc(3, 4, 0, 0),
            band((3, 3), (4, 4), 0),
            strike,
            strike,
        ],
        b"1 refused 9\n2 refused 9\n3 ok 1\n4 refused 7\n5 ok 1\n6 tally 3 90 105 0 0\n7 tally 3 90 105 0 0\n8 ok 0\n9 refused 9\n",
    )
}

#[test]
fn the_map_takes_256_readings_and_refuses_by_8(rt: HostRuntime) -> Result<(), Fail> {
    let mut records = Vec::new(rt.alloc());
    for motor in 0..257u16 {
        records.push(enter(motor, 0, 7, 1))?;
    }
    records.push(Entry::Strike { motor: 0, root: 0 })?;
    records.push(enter(256, 0, 7, 1))?;
    let journal = journal_of(rt.alloc(), &records)?;
    let printout = run(rt.alloc(), &journal)?;
    assert!(rt;
        printout
            .as_slice()
            .ends_with(b"\n256 ok 256\n257 refused 8\n258 ok 255\n259 ok 256\n")
    );
    Ok(())
}

#[test]
fn headings_stop_the_run_by_10_to_12(rt: HostRuntime) -> Result<(), Fail> {
    let heap = rt.alloc();
    prints_bytes(&rt, heap, b"", b"0 stopped 11\n")?;
    prints_bytes(&rt, heap, b"PAN\x00\x01H", b"0 stopped 11\n")?;
    prints_bytes(&rt, heap, b"PAM\x00", b"0 stopped 12\n")?;
    prints_bytes(&rt, heap, b"PAM\x00\x02H", b"0 stopped 12\n")?;
    prints_bytes(&rt, heap, b"PAM\x00\x01", b"")?;
    let mut bytes = Vec::new(heap);
    bytes.extend_from_slice(b"PAM\x00\x01")?;
    bytes.resize(32768, b'H')?;
    let printout = run(heap, &bytes)?;
    assert!(rt; printout.as_slice().ends_with(b"\n32763 height 0\n"));
    bytes.push(b'H')?;
    prints_bytes(&rt, heap, &bytes, b"0 stopped 10\n")
}

#[test]
fn records_stop_the_run_by_13_and_14(rt: HostRuntime) -> Result<(), Fail> {
    let heap = rt.alloc();
    prints_bytes(&rt, heap, b"PAM\x00\x01HhH", b"1 height 0\n2 stopped 13\n")?;
    prints_bytes(
        &rt,
        heap,
        b"PAM\x00\x01HS\x00\x01\x00",
        b"1 height 0\n2 stopped 14\n",
    )?;
    prints_bytes(&rt, heap, b"PAM\x00\x01\x00", b"1 stopped 13\n")
}

#[test]
fn every_cut_of_a_journal_stops_at_its_record(rt: HostRuntime) -> Result<(), Fail> {
    let heap = rt.alloc();
    let again = Entry::Again {
        motor: 1,
        root: 2,
        time: 3,
        weight: 4,
    };
    let strike = Entry::Strike { motor: 1, root: 2 };
    let records = [
        enter(1, 2, 3, 4),
        again,
        disc(1, 2, 3, 4),
        band((1, 2), (3, 4), 5),
        strike,
    ];
    for record in records {
        let journal = journal_of(heap, &[record])?;
        for end in 6..journal.len() {
            prints_bytes(&rt, heap, &journal[..end], b"1 stopped 14\n")?;
        }
    }
    Ok(())
}

#[test]
fn five_places_take_two_readings_and_no_place_takes_none(rt: HostRuntime) -> Result<(), Fail> {
    let heap = rt.alloc();
    let records = [
        enter(0, 0, 10, 1),
        enter(3, 0, 20, 2),
        enter(9, 9, 30, 4),
        Entry::Strike { motor: 3, root: 0 },
        enter(9, 9, 30, 4),
    ];
    let journal = journal_of(heap, &records)?;
    let five = run_with(heap, 5, &journal)?;
    assert!(rt; five.as_slice() == b"1 ok 1\n2 ok 2\n3 refused 8\n4 ok 1\n5 ok 2\n".as_slice());
    let none = run_with(heap, 0, &journal)?;
    assert!(rt;
        none.as_slice()
            == b"1 refused 8\n2 refused 8\n3 refused 8\n4 refused 9\n5 refused 8\n".as_slice()
    );
    Ok(())
}
