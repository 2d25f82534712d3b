use crate::fault::TextFault;
use crate::journal_text::journal_of;
use crate::record::entry_of;
use journal::Entry;
use std::alloc::Global;
use std::process::Abort;
use std::test::Fail;

/// The text is refused by the number of a line.
fn stops_at(rt: &impl Abort, heap: Global, text: &str, number: u64) -> Result<(), Fail> {
    match journal_of(heap, text) {
        Ok(_) => Err(Fail::new("a journal was written")),
        Err(fault) => {
            assert_eq!(rt; fault, TextFault::Line(number));
            Ok(())
        },
    }
}

/// A text of one line is refused.
fn refused(rt: &impl Abort, heap: Global, line: &str) -> Result<(), Fail> {
    assert_eq!(rt; entry_of(line), None);
    stops_at(rt, heap, line, 1)
}

#[test]
fn each_kind_of_record_is_read(rt: HostRuntime) {
    assert_eq!(rt;
        entry_of("A 65535,4294967295,0,1,2,3"),
        Some(Entry::Enter {
            motor: 65535,
            motor_time: 4294967295,
            root: 0,
            root_time: 1,
            priority: 2,
            weight: 3,
        })
    );
    assert_eq!(rt;
        entry_of("G 1,2,3,4"),
        Some(Entry::Again {
            motor: 1,
            root: 2,
            time: 3,
            weight: 4,
        })
    );
    assert_eq!(rt;
        entry_of("S 10,0"),
        Some(Entry::Strike { motor: 10, root: 0 })
    );
    assert_eq!(rt;
        entry_of("D 0,1,2,100000"),
        Some(Entry::Disc {
            motor: 0,
            root: 1,
            inner: 2,
            outer: 100000,
        })
    );
    assert_eq!(rt;
        entry_of("B 1,2,3,4,65535"),
        Some(Entry::Band {
            lowest_motor: 1,
            highest_motor: 2,
            lowest_root: 3,
            highest_root: 4,
            margin: 65535,
        })
    );
    assert_eq!(rt; entry_of("H"), Some(Entry::Height));
}

#[test]
fn a_wrong_letter_is_refused(rt: HostRuntime) -> Result<(), Fail> {
    for line in ["X 1,2", "s 1,2", "SS 1,2", "H 1", "HH"] {
        refused(&rt, rt.alloc(), line)?;
    }
    Ok(())
}

#[test]
fn a_wrong_number_of_fields_is_refused(rt: HostRuntime) -> Result<(), Fail> {
    for line in ["S", "S 1", "S 1,", "S 1,2,3", "S 1,2,"] {
        refused(&rt, rt.alloc(), line)?;
    }
    Ok(())
}

#[test]
fn a_number_that_is_written_otherwise_is_refused(rt: HostRuntime) -> Result<(), Fail> {
    for line in [
        "S 01,2", "S 1,00", "S +1,2", "S -1,2", "S 1, 2", "S  1,2", "S 1,2x",
    ] {
        refused(&rt, rt.alloc(), line)?;
    }
    Ok(())
}

#[test]
fn a_number_that_does_not_fit_is_refused(rt: HostRuntime) -> Result<(), Fail> {
    for line in [
        "S 65536,0",
        "S 0,65536",
        "B 0,0,0,0,65536",
        "D 0,0,0,4294967296",
        "D 0,0,0,99999999999999999999",
    ] {
        refused(&rt, rt.alloc(), line)?;
    }
    Ok(())
}

#[test]
fn lines_count_from_1_with_those_that_are_passed_over(rt: HostRuntime) -> Result<(), Fail> {
    stops_at(&rt, rt.alloc(), "S 1", 1)?;
    stops_at(&rt, rt.alloc(), "# remark\n\n H \nS 1,2\nS 1\n", 5)?;
    stops_at(&rt, rt.alloc(), "H\r\n  \t\nnone", 3)
}

#[test]
fn white_space_around_a_line_is_passed_over(rt: HostRuntime) -> Result<(), Fail> {
    let bytes = journal_of(rt.alloc(), " # remark\r\n\r\n\tS 258,1 \r\nH")?;
    assert!(rt; bytes.as_slice() == b"PAM\x00\x01S\x01\x02\x00\x01H".as_slice());
    let none = journal_of(rt.alloc(), "")?;
    assert!(rt; none.as_slice() == b"PAM\x00\x01".as_slice());
    Ok(())
}

#[test]
fn a_fault_is_printed_with_its_line(rt: HostRuntime) -> Result<(), Fail> {
    let text = format!(in rt.alloc(); "{}", TextFault::Line(12))?;
    assert!(rt; text.as_str() == "line 12: not a record");
    Ok(())
}
