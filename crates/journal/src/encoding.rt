//! A record is spelled as the bytes that `decode` reads.
ghost use Rattle.std.specs.Prelude.{◌≡◌, ◌+◌, ◌≤◌, ◌++◌};
ghost use Rattle.journal.specs.Layout.{letter, fields, spelled};
ghost use Rattle.journal.specs.Padded.{Holds};
ghost use Rattle.journal.specs.Written.{text};

use crate::entry::Entry;
use crate::padded::Padded;
use crate::writing::Writing;

/// The bytes of one record, zeros after them, and how many of them belong to the record.
pub type Encoded = Padded<21>;

/// The letter that the record begins with.
fn letter_of(entry: Entry) -> u8
    ensures value { result ≡ letter entry }
{
    match entry {
        Entry::Enter { .. } => b'A',
        Entry::Again { .. } => b'G',
        Entry::Strike { .. } => b'S',
        Entry::Disc { .. } => b'D',
        Entry::Band { .. } => b'B',
        Entry::Height => b'H',
    }
}

/// Writes the fields of a record. It is one arm for each kind of record, and splitting the arms would make it no plainer.
fn put_fields(encoded: &mut Writing<21>, entry: Entry)
    requires { encoded.old.padded.len + 20 ≤ 21 }
    ensures value { text encoded.new.padded ≡ text encoded.old.padded ++ fields entry }
{
    match entry {
        Entry::Enter {
            motor,
            motor_time,
            root,
            root_time,
            priority,
            weight,
        } => {
            encoded.put(&motor.to_be_bytes());
            encoded.put(&motor_time.to_be_bytes());
            encoded.put(&root.to_be_bytes());
            encoded.put(&root_time.to_be_bytes());
            encoded.put(&priority.to_be_bytes());
            encoded.put(&weight.to_be_bytes());
        }
        Entry::Again {
            motor,
            root,
            time,
            weight,
        } => {
            encoded.put(&motor.to_be_bytes());
            encoded.put(&root.to_be_bytes());
            encoded.put(&time.to_be_bytes());
            encoded.put(&weight.to_be_bytes());
        }
        Entry::Strike { motor, root } => {
            encoded.put(&motor.to_be_bytes());
            encoded.put(&root.to_be_bytes());
        }
        Entry::Disc {
            motor,
            root,
            inner,
            outer,
        } => {
            encoded.put(&motor.to_be_bytes());
            encoded.put(&root.to_be_bytes());
            encoded.put(&inner.to_be_bytes());
            encoded.put(&outer.to_be_bytes());
        }
        Entry::Band {
            lowest_motor,
            highest_motor,
            lowest_root,
            highest_root,
            margin,
        } => {
            encoded.put(&lowest_motor.to_be_bytes());
            encoded.put(&highest_motor.to_be_bytes());
            encoded.put(&lowest_root.to_be_bytes());
            encoded.put(&highest_root.to_be_bytes());
            encoded.put(&margin.to_be_bytes());
        }
        Entry::Height => {}
    }
}

/// The bytes of a record.
pub fn encode(entry: Entry) -> Encoded
    ensures value { Holds 21 result.bytes result.len (spelled entry) }
{
    let mut encoded = Writing::new();
    encoded.put(&[letter_of(entry)]);
    put_fields(&mut encoded, entry);
    encoded.done()
}
