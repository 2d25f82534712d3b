//! The entries of the tally table, made anew on the way up to the root.
ghost use Rattle.std.specs.Prelude.{◌≡◌};
ghost use Rattle.tables.specs.Totals.{renewed, climbed, mended, tables, raised};

use crate::entry;
use records::{Record, read, write};
use tally::Tally;

/// The tally at `i` anew, from those of two children.
fn renew<K: Tally>(tallies: &mut [K], i: u16, x: u16, y: u16)
    ensures { tallies.new ≡ renewed K.Tally.joined K.Tally.neutral tallies.old i x y }
{
    let a = entry(tallies, x);
    let b = entry(tallies, y);
    write(tallies, i, a.join(b));
}

/// Renews the tallies from the node at `from`, if there is one, up to the root. The records are only read; they come as `&mut`, since the
/// check does not follow a field of a map that is lent as `&` beside one that is lent as `&mut`.
pub(crate) fn climb<K: Tally>(
    records: &mut [Record],
    tallies: &mut [K],
    places: u16,
    from: Option<u16>,
)
    ensures run { tallies.new ≡ climbed K.Tally.joined K.Tally.neutral records.old places from tallies.old }
    ensures same { records.new ≡ records.old }
{
    let mut at = from;
    for _ in 0..places {
        let Some(i) = at else {
            return;
        };
        let r = read(records, i);
        renew(tallies, i, r.first, r.second);
        at = r.parent;
    }
}

/// Renews the two tallies of the pair at `x`, if there is one.
fn mend<K: Tally>(records: &[Record], tallies: &mut [K], x: Option<u16>)
    ensures run { tallies.new ≡ mended K.Tally.joined K.Tally.neutral records.now x tallies.old }
{
    let Some(x) = x else {
        return;
    };
    let rx = read(records, x);
    let rw = read(records, rx.first);
    renew(tallies, rx.first, rw.first, rw.second);
    renew(tallies, x, rx.first, rx.second);
}

/// Settles each pair from the one at `from` up to the root. Answers the root.
fn rise<K: Tally>(records: &mut [Record], tallies: &mut [K], places: u16, from: u16) -> u16
    ensures run { tables records.new tallies.new result ≡ raised K.Tally.joined K.Tally.neutral places records.old tallies.old from }
{
    let mut s = from;
    for _ in 0..places {
        if read(records, s).parent.is_none() {
            return s;
        }
        let v = nodes::settle::<K>(records, s);
        mend(records, tallies, v.low);
        mend(records, tallies, Some(v.top));
        s = v.top;
    }
    s
}

/// Renews the two tallies of the pair at `from`, and settles each pair up to the root. Answers the root.
pub(crate) fn mend_and_rise<K: Tally>(
    records: &mut [Record],
    tallies: &mut [K],
    places: u16,
    from: u16,
) -> u16
    ensures run { tables records.new tallies.new result ≡ raised K.Tally.joined K.Tally.neutral places records.old (mended K.Tally.joined K.Tally.neutral records.old (Some from) tallies.old) from }
{
    mend(records, tallies, Some(from));
    rise(records, tallies, places, from)
}
