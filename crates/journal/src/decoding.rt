//! A record is read from the bytes that it begins.
ghost use Rattle.std.specs.Prelude.{◌<◌, length, Ok, Err, MatchOption, MatchResult};
ghost use Rattle.journal.specs.Records.{ReadsFields, Decodes, OneDecoding, DecodesBack};

use crate::entry::Entry;
use crate::fault::FormatFault;
use crate::front::Front;

/// The record that the fields after the letter A make.
fn enter(bytes: &[u8]) -> Option<(Entry, &[u8])>
    ensures value { MatchOption result (length bytes.now < 20) (λ x. ReadsFields 65 bytes.now x.0 x.1.now) }
{
    let (motor, bytes) = u16::front(bytes)?;
    let (motor_time, bytes) = u32::front(bytes)?;
    let (root, bytes) = u16::front(bytes)?;
    let (root_time, bytes) = u32::front(bytes)?;
    let (priority, bytes) = u32::front(bytes)?;
    let (weight, bytes) = u32::front(bytes)?;
    Some((
        Entry::Enter {
            motor,
            motor_time,
            root,
            root_time,
            priority,
            weight,
        },
        bytes,
    ))
}

/// The record that the fields after the letter S make.
fn strike(bytes: &[u8]) -> Option<(Entry, &[u8])>
    ensures value { MatchOption result (length bytes.now < 4) (λ x. ReadsFields 83 bytes.now x.0 x.1.now) }
{
    let (motor, bytes) = u16::front(bytes)?;
    let (root, bytes) = u16::front(bytes)?;
    Some((Entry::Strike { motor, root }, bytes))
}

/// The record that the fields after the letter G make.
fn again(bytes: &[u8]) -> Option<(Entry, &[u8])>
    ensures value { MatchOption result (length bytes.now < 12) (λ x. ReadsFields 71 bytes.now x.0 x.1.now) }
{
    let (motor, bytes) = u16::front(bytes)?;
    let (root, bytes) = u16::front(bytes)?;
    let (time, bytes) = u32::front(bytes)?;
    let (weight, bytes) = u32::front(bytes)?;
    Some((
        Entry::Again {
            motor,
            root,
            time,
            weight,
        },
        bytes,
    ))
}

/// The record that the fields after the letter D make.
fn disc(bytes: &[u8]) -> Option<(Entry, &[u8])>
    ensures value { MatchOption result (length bytes.now < 12) (λ x. ReadsFields 68 bytes.now x.0 x.1.now) }
{
    let (motor, bytes) = u16::front(bytes)?;
    let (root, bytes) = u16::front(bytes)?;
    let (inner, bytes) = u32::front(bytes)?;
    let (outer, bytes) = u32::front(bytes)?;
    Some((
        Entry::Disc {
            motor,
            root,
            inner,
            outer,
        },
        bytes,
    ))
}

/// The record that the fields after the letter B make.
fn band(bytes: &[u8]) -> Option<(Entry, &[u8])>
    ensures value { MatchOption result (length bytes.now < 10) (λ x. ReadsFields 66 bytes.now x.0 x.1.now) }
{
    let (lowest_motor, bytes) = u16::front(bytes)?;
    let (highest_motor, bytes) = u16::front(bytes)?;
    let (lowest_root, bytes) = u16::front(bytes)?;
    let (highest_root, bytes) = u16::front(bytes)?;
    let (margin, bytes) = u16::front(bytes)?;
    Some((
        Entry::Band {
            lowest_motor,
            highest_motor,
            lowest_root,
            highest_root,
            margin,
        },
        bytes,
    ))
}

/// The record that the bytes begin with, and the bytes after it.
pub fn decode(bytes: &[u8]) -> Result<(Entry, &[u8]), FormatFault>
    ensures value { MatchResult result (λ x. Decodes bytes.now (Ok (x.0, x.1.now))) (λ f. Decodes bytes.now (Err f)) }
{
    let (letter, fields) = bytes.split_first().ok_or(FormatFault::CutShort)?;
    let read = match *letter {
        b'A' => enter(fields),
        b'G' => again(fields),
        b'S' => strike(fields),
        b'D' => disc(fields),
        b'B' => band(fields),
        b'H' => Some((Entry::Height, fields)),
        _ => return Err(FormatFault::UnknownLetter),
    };
    read.ok_or(FormatFault::CutShort)
}

/// The contract of `decode` leaves no choice. Callers may rely on that.
pub fn one_decoding()
    ensures value { OneDecoding }
{}

/// What `encode` spelled is read as the same record again.
pub fn decodes_back()
    ensures value { DecodesBack }
{}
