//! One step up: a pair that was made earlier rises over the pair above it.
ghost use Rattle.std.specs.Prelude.{◌≡◌, Some};
ghost use Rattle.records.specs.Writes.{earlier_in, settled_outside, settled_inside, settled_in};
ghost use Rattle.records.specs.Promises.{Settles};

use crate::ordering::order;
use crate::promotion::{promote_left, promote_outer};
use records::{Kind, Record, read};

/// The pair that is in its place after a step up, and the pair that it rose over, if it did, whose two tallies are to
/// be renewed.
#[derive(Clone, Copy)]
pub struct Settled {
    pub top: u16,
    pub low: Option<u16>,
}

/// Whether the node at `a` is a pair, made earlier than the one at `b` if that is a pair.
pub fn made_earlier(records: &[Record], a: u16, b: u16) -> bool
    ensures value { result ≡ earlier_in records.now a b }
{
    let ra = read(records, a);
    if ra.kind != Kind::Shrink {
        return false;
    }
    let rb = read(records, b);
    if rb.kind != Kind::Shrink {
        return true;
    }
    let x = read(records, read(records, ra.first).second);
    let y = read(records, read(records, rb.first).second);
    x.ranks_before(y)
}

/// One step up from the pair at `s`, an outer child of the pair at `up`: it rises over that if it was made earlier.
fn settle_outside<K>(records: &mut [Record], s: u16, up: u16) -> Settled
    ensures table { records.new ≡ (settled_outside records.old s up).table }
    ensures top { result.top ≡ (settled_outside records.old s up).top }
    ensures low { result.low ≡ (settled_outside records.old s up).low }
{
    if made_earlier(records, s, up) {
        promote_outer::<K>(records, up);
        order::<K>(records, s);
        return Settled {
            top: s,
            low: Some(up),
        };
    }
    Settled { top: up, low: None }
}

/// One step up from the pair at `s`, a left or right child of the pair at `x`: it rises over that if it is the left one
/// and was made earlier, and the pair on top is ordered.
fn settle_inside<K>(records: &mut [Record], s: u16, is_left: bool, x: u16) -> Settled
    ensures table { records.new ≡ (settled_inside records.old s is_left (Some x)).table }
    ensures top { result.top ≡ (settled_inside records.old s is_left (Some x)).top }
    ensures low { result.low ≡ (settled_inside records.old s is_left (Some x)).low }
{
    if is_left && made_earlier(records, s, x) {
        promote_left::<K>(records, x);
        order::<K>(records, s);
        return Settled {
            top: s,
            low: Some(x),
        };
    }
    order::<K>(records, x);
    Settled { top: x, low: None }
}

/// One step up from the pair at `s`: it rises over the pair above it, if there is one, if it was made earlier.
pub fn settle<K>(records: &mut [Record], s: u16) -> Settled
    ensures table { records.new ≡ (settled_in records.old s).table }
    ensures top { result.top ≡ (settled_in records.old s).top }
    ensures low { result.low ≡ (settled_in records.old s).low }
    ensures stands { Settles K records.old records.new s result.top result.low }
{
    let Some(up) = read(records, s).parent else {
        return Settled { top: s, low: None };
    };
    let rp = read(records, up);
    if rp.kind != Kind::Split {
        return settle_outside::<K>(records, s, up);
    }
    let Some(x) = rp.parent else {
        return Settled { top: s, low: None };
    };
    settle_inside::<K>(records, s, rp.first == s, x)
}
