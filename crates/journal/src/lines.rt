//! The lines that are printed, one for each record.
ghost use Rattle.std.specs.Prelude.{◌≡◌, ◌+◌, ◌≤◌, ◌++◌, decimal};
ghost use Rattle.journal.specs.Lines.{blank, times_text, told, printed};
ghost use Rattle.journal.specs.Padded.{Holds};
ghost use Rattle.journal.specs.Written.{text};

use crate::padded::Padded;
use crate::report::Report;
use crate::writing::Writing;

/// The bytes of one line, zeros after them, and how many of them belong to the line.
pub type Line = Padded<96>;

/// Writes a blank and a number.
fn put_field(line: &mut Writing<96>, n: u32)
    requires { line.old.padded.len + 11 ≤ 96 }
    ensures value { text line.new.padded ≡ text line.old.padded ++ (blank ++ decimal n) }
    ensures place { line.new.padded.len ≤ line.old.padded.len + 11 }
{
    line.put(b" ");
    line.put_number(n);
}

/// Writes the first and the last time, or a dash for each.
fn put_times(line: &mut Writing<96>, times: Option<(u32, u32)>)
    requires { line.old.padded.len + 21 ≤ 96 }
    ensures value { text line.new.padded ≡ text line.old.padded ++ times_text times }
    ensures place { line.new.padded.len ≤ line.old.padded.len + 21 }
{
    match times {
        Some((first, last)) => {
            line.put_number(first);
            put_field(line, last);
        }
        None => line.put(b"- -"),
    }
}

/// Writes what a walk found.
fn put_tally(
    line: &mut Writing<96>,
    sum: u64,
    times: Option<(u32, u32)>,
    expanded: u32,
    height: u16,
)
    requires { line.old.padded.len + 70 ≤ 96 }
    ensures value { text line.new.padded ≡ text line.old.padded ++ told (Report.Tally sum times expanded height) }
    ensures place { line.new.padded.len ≤ line.old.padded.len + 70 }
{
    line.put(b"tally ");
    line.put_number(sum);
    line.put(b" ");
    put_times(line, times);
    put_field(line, expanded);
    put_field(line, u32::from(height));
}

/// Writes a word and the one number after it.
fn put_told(line: &mut Writing<96>, report: Report)
    requires { line.old.padded.len + 70 ≤ 96 }
    ensures value { text line.new.padded ≡ text line.old.padded ++ told report }
    ensures place { line.new.padded.len ≤ line.old.padded.len + 70 }
{
    match report {
        Report::Ok { live } => {
            line.put(b"ok ");
            line.put_number(live);
        }
        Report::Tally {
            sum,
            times,
            expanded,
            height,
        } => put_tally(line, sum, times, expanded, height),
        Report::Height { height } => {
            line.put(b"height ");
            line.put_number(height);
        }
        Report::Refused { number } => {
            line.put(b"refused ");
            line.put_number(number);
        }
        Report::Stopped { number } => {
            line.put(b"stopped ");
            line.put_number(number);
        }
    }
}

/// The line of the record with the given number. No line is longer than 96 bytes.
pub fn line_of(number: u32, report: Report) -> Line
    ensures value { Holds 96 result.bytes result.len (printed number report) }
{
    let mut line = Writing::new();
    line.put_number(number);
    line.put(b" ");
    put_told(&mut line, report);
    line.put(b"\n");
    line.done()
}
