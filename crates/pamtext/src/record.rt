//! A record read from its text.
ghost use Rattle.pamtext.specs.Texts.{Makes, Reads, OneReading};

use crate::fields::numbers_of;
use journal::Entry;

/// The largest number of 16 bits: counts, the ends of a band and its margin.
/// A number up to it is cast to 16 bits by `as`, which is proved to lose nothing; `try_from` would be no plainer.
const LARGEST16: u32 = 65535;

/// The largest number of 32 bits: all other fields.
const LARGEST32: u32 = 4294967295;

/// The record that the fields after the letter A make. Crate journal has calls of the same names, which read the fields from
/// bytes and not from words: the two share no step.
fn enter(fields: &str) -> Option<Entry>
    ensures value { Makes 65 fields.now result }
{
    let [motor, motor_time, root, root_time, priority, weight] = numbers_of(
        fields,
        [
            LARGEST16, LARGEST32, LARGEST16, LARGEST32, LARGEST32, LARGEST32,
        ],
    )?;
    Some(Entry::Enter {
        motor: motor as u16,
        motor_time,
        root: root as u16,
        root_time,
        priority,
        weight,
    })
}

/// The record that the fields after the letter G make.
fn again(fields: &str) -> Option<Entry>
    ensures value { Makes 71 fields.now result }
{
    let [motor, root, time, weight] = numbers_of(
        fields,
        [LARGEST16, LARGEST16, LARGEST32, LARGEST32],
    )?;
    Some(Entry::Again {
        motor: motor as u16,
        root: root as u16,
        time,
        weight,
    })
}

/// The record that the fields after the letter S make.
fn strike(fields: &str) -> Option<Entry>
    ensures value { Makes 83 fields.now result }
{
    let [motor, root] = numbers_of(fields, [LARGEST16, LARGEST16])?;
    Some(Entry::Strike {
        motor: motor as u16,
        root: root as u16,
    })
}

/// The record that the fields after the letter D make.
fn disc(fields: &str) -> Option<Entry>
    ensures value { Makes 68 fields.now result }
{
    let [motor, root, inner, outer] = numbers_of(
        fields,
        [LARGEST16, LARGEST16, LARGEST32, LARGEST32],
    )?;
    Some(Entry::Disc {
        motor: motor as u16,
        root: root as u16,
        inner,
        outer,
    })
}

/// The record that the fields after the letter B make.
fn band(fields: &str) -> Option<Entry>
    ensures value { Makes 66 fields.now result }
{
    let [
        lowest_motor,
        highest_motor,
        lowest_root,
        highest_root,
        margin,
    ] = numbers_of(
        fields,
        [LARGEST16, LARGEST16, LARGEST16, LARGEST16, LARGEST16],
    )?;
    Some(Entry::Band {
        lowest_motor: lowest_motor as u16,
        highest_motor: highest_motor as u16,
        lowest_root: lowest_root as u16,
        highest_root: highest_root as u16,
        margin: margin as u16,
    })
}

/// The record that a trimmed line says.
pub fn entry_of(line: &str) -> Option<Entry>
    ensures value { Reads line.now result }
{
    if line == "H" {
        return Some(Entry::Height);
    }
    let (letter, fields) = line.split_once(' ')?;
    match letter {
        "A" => enter(fields),
        "G" => again(fields),
        "S" => strike(fields),
        "D" => disc(fields),
        "B" => band(fields),
        _ => None,
    }
}

/// The contract of `entry_of` leaves no choice. Callers may rely on that.
pub fn one_reading()
    ensures value { OneReading }
{}
