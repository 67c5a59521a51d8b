// Document 01, section 7: the place of the one with a given number in a mask, and a walk right behind the place of a record with a given number in its
// piece.
#![tactic(auto)]

ghost use Rattle.std.specs.Prelude.{◌≡◌, ◌+◌, ◌*◌, ◌≤◌, ◌<◌};
ghost use Rattle.masks.specs.Masks.{mask_bit, count_below};
ghost use Rattle.masks.specs.Inner.{IsMask};
ghost use Rattle.nth.specs.Inner.{stored_of, IsOne, HasOne, BehindOne};

use coordinates::Index;
use forms::Stored;
use slots::Inside;

// The place of the one with the number k, from 0, among those from a place on.
fn one_from(s: &[u8], at: usize, n: usize, from: u32, k: u32) -> Index
    requires { IsMask s.now at n × (from ≤ 8 * n) × (count_below (mask_bit s.now at) from + k < count_below (mask_bit s.now at) (8 * n)) }
    ensures { IsOne (mask_bit s.now at) (8 * n) (count_below (mask_bit s.now at) from + k) result.0 }
{
    let mut p = from;
    let mut left = k;
    while let Some(q) = masks::next_one(s, at, n, Index(p)) {
        if left == 0 {
            return q;
        }
        left -= 1;
        p = q.0 + 1;
    }
    Index(0)
}

// The place of the one with the number k, from 0: words with fewer ones are passed whole.
fn nth_one(s: &[u8], at: usize, n: usize, k: u32) -> Index
    requires { IsMask s.now at n × (k < count_below (mask_bit s.now at) (8 * n)) }
    ensures { IsOne (mask_bit s.now at) (8 * n) k result.0 }
{
    let mut left = k;
    for j in 0..n / 8 {
        let i = 8 * j;
        let ones = masks::word(s, at, n, i).count_ones();
        if left < ones {
            return one_from(s, at, n, 8 * i as u32, left);
        }
        left -= ones;
    }
    Index(0)
}

// Which places of a piece are stored, by the number that a walk keeps.
fn stored_of(number: u32) -> Stored
    ensures { result ≡ stored_of number }
{
    match number {
        0 => Stored::Every,
        1 => Stored::Active,
        _ => Stored::Childless,
    }
}

// The walk right behind the record with the number k, from 0, of the piece that it stands in, wherever in it. What it says of the stored places passed
// is not used.
pub fn stand_behind(s: &[u8], w: Inside, k: u32) -> Inside
    requires { HasOne s.now w k }
    ensures { BehindOne s.now w k result }
{
    let n = slots::mask_bytes(w.level);
    let p = nth_one(s, w.value_mask, n, k);
    let stored = stored_of(w.stored);
    let number = runs::number_of(s, stored, n, w.child_mask, w.value_mask, p);
    let mut r = w;
    r.from = p.0 + 1;
    r.number = number + 1;
    r
}
