use crate::run_with;
use journal::{Entry, encode};
use std::alloc::Global;
use std::process::Abort;
use std::test::Fail;

/// The record of a reading whose root was read 5 ms after its motor.
fn enter(motor: u16, root: u16, priority: u32, weight: u32) -> Entry {
    Entry::Enter {
        motor,
        motor_time: 100,
        root,
        root_time: 105,
        priority,
        weight,
    }
}

fn disc(motor: u16, root: u16, inner: u32, outer: u32) -> Entry {
    Entry::Disc {
        motor,
        root,
        inner,
        outer,
    }
}

fn band(motors: (u16, u16), roots: (u16, u16), margin: u16) -> Entry {
    Entry::Band {
        lowest_motor: motors.0,
        highest_motor: motors.1,
        lowest_root: roots.0,
        highest_root: roots.1,
        margin,
    }
}

/// The journal of some records.
fn journal_of(heap: Global, records: &[Entry]) -> Result<Vec<u8>, Fail> {
    let mut bytes = Vec::new(heap);
    bytes.extend_from_slice(b"PAM\x00\x01")?;
    for entry in records {
        bytes.extend_from_slice(encode(*entry).as_bytes())?;
    }
    Ok(bytes)
}

/// Both maps print the same of the bytes, and that has the given end.
fn agree(
    rt: &impl Abort,
    heap: Global,
    places: usize,
    bytes: &[u8],
    end: &[u8],
) -> Result<(), Fail> {
    let built = run_with(heap, places, bytes)?;
    let kept = replay::run_with(heap, places, bytes)?;
    assert!(rt; built.as_slice() == kept.as_slice());
    assert!(rt; built.as_slice().ends_with(end));
    Ok(())
}

#[test]
fn both_maps_print_the_same_of_every_kind_of_record(rt: HostRuntime) -> Result<(), Fail> {
    let heap = rt.alloc();
    let again = Entry::Again {
        motor: 3,
        root: 4,
        time: 90,
        weight: 2,
    };
    let strike = Entry::Strike { motor: 3, root: 4 };
    let late = Entry::Enter {
        motor: 1,
        motor_time: 100,
        root: 1,
        root_time: 121,
        priority: 0,
        weight: 1,
    };
    let journal = journal_of(
        heap,
        &[
            again,
            strike,
            enter(3, 4, 9, 1),
            enter(3, 4, 9, 1),
            again,
            late,
            enter(9, 9, 5, 4),
            enter(65535, 0, 5, 8),
            disc(3, 4, 0, 0),
            disc(3, 4, 6, 9),
            disc(3, 4, 6, 5),
            disc(0, 0, 100000, 100000),
            band((3, 9), (4, 9), 1),
            band((9, 3), (4, 9), 1),
            band((0, 65535), (0, 65535), 65535),
            Entry::Height,
            strike,
            Entry::Height,
            strike,
        ],
    )?;
    agree(&rt, heap, 1021, &journal, b"\n19 refused 9\n")?;
    agree(&rt, heap, 5, &journal, b"\n19 refused 9\n")?;
    agree(&rt, heap, 0, &journal, b"\n19 refused 9\n")
}

#[test]
fn both_maps_print_the_same_of_many_readings(rt: HostRuntime) -> Result<(), Fail> {
    let heap = rt.alloc();
    let mut records = Vec::new(heap);
    for i in 0..120u32 {
        let motor = (i * 7919 % 251) as u16;
        let root = (i * 104729 % 241) as u16;
        records.push(enter(motor, root, i * 31 % 17, i))?;
        records.push(disc(120, 120, i, 2 * i))?;
        if i % 3 == 2 {
            records.push(Entry::Strike { motor, root })?;
        }
        records.push(band((20, 100), (20, 200), 3))?;
        records.push(Entry::Height)?;
    }
    let journal = journal_of(heap, &records)?;
    agree(&rt, heap, 1021, &journal, b"")?;
    agree(&rt, heap, 101, &journal, b"")
}

#[test]
fn both_maps_stop_at_the_same_bytes(rt: HostRuntime) -> Result<(), Fail> {
    let heap = rt.alloc();
    agree(&rt, heap, 9, b"", b"0 stopped 11\n")?;
    agree(&rt, heap, 9, b"PAM\x00\x02H", b"0 stopped 12\n")?;
    agree(
        &rt,
        heap,
        9,
        b"PAM\x00\x01HhH",
        b"1 height 0\n2 stopped 13\n",
    )?;
    agree(
        &rt,
        heap,
        9,
        b"PAM\x00\x01HS\x00",
        b"1 height 0\n2 stopped 14\n",
    )
}
