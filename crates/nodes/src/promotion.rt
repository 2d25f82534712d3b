//! A child pair takes the place of the pair above it.
ghost use Rattle.std.specs.Prelude.{◌≡◌};
ghost use Rattle.records.specs.Writes.{promoted_left, promoted_outer};
ghost use Rattle.records.specs.Promises.{LeftRises, OuterRises};

use quadtreap::UNRANKED;
use records::{Record, read, relink, write};

/// The left child of the pair at `x` rises over it.
pub fn promote_left<K>(records: &mut [Record], x: u16)
    ensures table { records.new ≡ promoted_left records.old x }
    ensures stands { LeftRises K records.old records.new x }
{
    let rx = read(records, x);
    let rw = read(records, rx.first);
    let ry = read(records, rw.first);
    let inner = read(records, ry.first).outer;
    let ro = read(records, ry.second);
    let down = rx.with_rank(UNRANKED).with_inner(Some(inner));
    let cut = rw.with_rank(UNRANKED).with_inner(Some(inner));
    let up = ry.with_outer(rx.outer).with_second(x);
    relink(records, rx.parent, x, rw.first);
    write(records, x, down.with_parent(Some(rw.first)));
    write(records, rx.first, cut.with_first(ry.second));
    write(records, rw.first, up.with_parent(rx.parent));
    write(records, ry.second, ro.with_parent(Some(rx.first)));
}

/// The outer child of the pair at `s` rises over it. It is no twin of the call before, which moves other children.
pub fn promote_outer<K>(records: &mut [Record], s: u16)
    ensures table { records.new ≡ promoted_outer records.old s }
    ensures stands { OuterRises K records.old records.new s }
{
    let rs = read(records, s);
    let rx = read(records, rs.second);
    let rw = read(records, rx.first);
    let rl = read(records, rw.first);
    let down = rs.with_outer(rl.outer).with_second(rw.first);
    let up = rx.with_inner(rs.inner);
    let cut = rw.with_inner(rs.inner);
    relink(records, rs.parent, s, rs.second);
    write(records, s, down.with_parent(Some(rx.first)));
    write(records, rs.second, up.with_parent(rs.parent));
    write(records, rx.first, cut.with_first(s));
    write(records, rw.first, rl.with_parent(Some(s)));
}
