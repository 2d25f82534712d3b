use crate::{Entry, FormatFault, Report, decode, encode, heading, line_of};
use std::process::Abort;
use std::test::Fail;

/// One record of each kind, with numbers at the ends of their ranges among them.
const ENTER: Entry = Entry::Enter {
    motor: 258,
    motor_time: 16909060,
    root: 65535,
    root_time: 4294967295,
    priority: 0,
    weight: 7,
};

const AGAIN: Entry = Entry::Again {
    motor: 1,
    root: 2,
    time: 3,
    weight: 4294967295,
};

const STRIKE: Entry = Entry::Strike {
    motor: 65535,
    root: 256,
};

const DISC: Entry = Entry::Disc {
    motor: 0,
    root: 65535,
    inner: 65536,
    outer: 100000,
};

const BAND: Entry = Entry::Band {
    lowest_motor: 1,
    highest_motor: 2,
    lowest_root: 3,
    highest_root: 65535,
    margin: 256,
};

/// The number of the fault that decoding is refused with, or 0.
fn decode_fault(bytes: &[u8]) -> u8 {
    match decode(bytes) {
        Ok(_) => 0,
        Err(fault) => fault.number(),
    }
}

/// The number of the fault that a heading is refused with, or 0.
fn heading_fault(bytes: &[u8]) -> u8 {
    match heading(bytes) {
        Ok(_) => 0,
        Err(fault) => fault.number(),
    }
}

/// A record is spelled by the given bytes, is read back from them, and is cut short at every place before their end.
fn spelled(rt: &impl Abort, entry: Entry, bytes: &[u8]) -> Result<(), Fail> {
    let encoded = encode(entry);
    let text = encoded.as_bytes();
    assert!(rt; text == bytes);
    let (read, left) = decode(text)?;
    assert_eq!(rt; read, entry);
    assert_eq!(rt; left.len(), 0);
    for end in 0..text.len() {
        assert_eq!(rt; decode_fault(&text[..end]), 14);
    }
    Ok(())
}

/// The line of a report is the given text, with zeros after it.
fn printed(rt: &impl Abort, number: u32, report: Report, text: &[u8]) {
    let line = line_of(number, report);
    assert!(rt; line.as_bytes() == text);
    for byte in &line.bytes[line.len..] {
        assert_eq!(rt; *byte, 0);
    }
}

#[test]
fn every_record_is_read_back_whole_and_cut_short_before(rt: HostRuntime) -> Result<(), Fail> {
    spelled(
        &rt,
        ENTER,
        b"A\x01\x02\x01\x02\x03\x04\xff\xff\xff\xff\xff\xff\x00\x00\x00\x00\x00\x00\x00\x07",
    )?;
    spelled(
        &rt,
        AGAIN,
        b"G\x00\x01\x00\x02\x00\x00\x00\x03\xff\xff\xff\xff",
    )?;
    spelled(&rt, STRIKE, b"S\xff\xff\x01\x00")?;
    spelled(
        &rt,
        DISC,
        b"D\x00\x00\xff\xff\x00\x01\x00\x00\x00\x01\x86\xa0",
    )?;
    spelled(&rt, BAND, b"B\x00\x01\x00\x02\x00\x03\xff\xff\x01\x00")?;
    spelled(&rt, Entry::Height, b"H")
}

#[test]
fn a_record_leaves_the_bytes_after_it(rt: HostRuntime) -> Result<(), Fail> {
    let (first, left) = decode(b"S\x00\x01\x00\x02Hx")?;
    assert_eq!(rt; first, Entry::Strike { motor: 1, root: 2 });
    assert!(rt; left == b"Hx".as_slice());
    let (second, left) = decode(left)?;
    assert_eq!(rt; second, Entry::Height);
    assert!(rt; left == b"x".as_slice());
    assert_eq!(rt; decode_fault(left), 13);
    Ok(())
}

#[test]
fn other_letters_are_unknown(rt: HostRuntime) {
    let mut known = 0u32;
    for letter in 0..=255u8 {
        if decode_fault(&[letter]) != 13 {
            known = known.saturating_add(1);
        }
    }
    assert_eq!(rt; known, 6);
    assert_eq!(rt; decode_fault(b"a\x00\x01\x00\x02"), 13);
    assert_eq!(rt; decode_fault(b""), 14);
}

#[test]
fn headings_are_told_apart(rt: HostRuntime) -> Result<(), Fail> {
    assert_eq!(rt; heading_fault(b""), 11);
    assert_eq!(rt; heading_fault(b"PA"), 11);
    assert_eq!(rt; heading_fault(b"pAM\x00\x01"), 11);
    assert_eq!(rt; heading_fault(b"PaM\x00\x01"), 11);
    assert_eq!(rt; heading_fault(b"PAm\x00\x01"), 11);
    assert_eq!(rt; heading_fault(b"PAM"), 12);
    assert_eq!(rt; heading_fault(b"PAM\x00"), 12);
    assert_eq!(rt; heading_fault(b"PAM\x00\x02"), 12);
    assert_eq!(rt; heading_fault(b"PAM\x01\x00"), 12);
    assert_eq!(rt; heading(b"PAM\x00\x01")?.len(), 0);
    assert!(rt; heading(b"PAM\x00\x01H\x00")? == b"H\x00".as_slice());
    Ok(())
}

#[test]
fn a_journal_of_32768_bytes_is_the_longest(rt: HostRuntime) -> Result<(), Fail> {
    let mut bytes = Vec::new(rt.alloc());
    bytes.extend_from_slice(b"PAM\x00\x01")?;
    bytes.resize(32768, 0u8)?;
    assert_eq!(rt; heading(&bytes)?.len(), 32763);
    bytes.push(0)?;
    assert_eq!(rt; heading_fault(&bytes), 10);
    Ok(())
}

#[test]
fn lines_are_printed_byte_by_byte(rt: HostRuntime) {
    printed(&rt, 1, Report::Ok { live: 0 }, b"1 ok 0\n");
    printed(&rt, 10, Report::Ok { live: 65535 }, b"10 ok 65535\n");
    printed(&rt, 2, Report::Height { height: 109 }, b"2 height 109\n");
    printed(&rt, 3, Report::Refused { number: 9 }, b"3 refused 9\n");
    printed(&rt, 0, Report::Stopped { number: 10 }, b"0 stopped 10\n");
    printed(
        &rt,
        4,
        Report::Tally {
            sum: 30,
            times: Some((5, 60)),
            expanded: 7,
            height: 8,
        },
        b"4 tally 30 5 60 7 8\n",
    );
    printed(
        &rt,
        5,
        Report::Tally {
            sum: 0,
            times: None,
            expanded: 0,
            height: 0,
        },
        b"5 tally 0 - - 0 0\n",
    );
}

#[test]
fn the_longest_line_has_77_bytes(rt: HostRuntime) {
    let report = Report::Tally {
        sum: 18446744073709551615,
        times: Some((4294967295, 4294967295)),
        expanded: 4294967295,
        height: 65535,
    };
    assert_eq!(rt; line_of(4294967295, report).len, 77);
    printed(
        &rt,
        4294967295,
        report,
        b"4294967295 tally 18446744073709551615 4294967295 4294967295 4294967295 65535\n",
    );
}

#[test]
fn whoever_has_a_line_may_change_it(rt: HostRuntime) {
    let mut line = line_of(7, Report::Height { height: 3 });
    line.len = line.len.saturating_sub(1);
    assert!(rt; line.as_bytes() == b"7 height 3".as_slice());
    line.len = 97;
    assert_eq!(rt; line.as_bytes().len(), 96);
}

#[test]
fn faults_are_numbered_from_10_to_14(rt: HostRuntime) {
    assert_eq!(rt; FormatFault::TooLong.number(), 10);
    assert_eq!(rt; FormatFault::WrongMark.number(), 11);
    assert_eq!(rt; FormatFault::WrongVersion.number(), 12);
    assert_eq!(rt; FormatFault::UnknownLetter.number(), 13);
    assert_eq!(rt; FormatFault::CutShort.number(), 14);
}
