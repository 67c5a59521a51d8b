// Document 01, section 7: the records of the places of one mask word, from any of its places on, into lent slots.
#![tactic(auto)]

ghost use Rattle.std.specs.Prelude.{◌≡◌, ◌+◌, ◌-◌, ◌≤◌, ◌<◌, ◌^◌};
ghost use Rattle.std.specs.Int.Count.{count_trailing_zeros};
ghost use Rattle.masks.specs.Masks.{digit, count_below};
ghost use Rattle.slots.specs.Slots.{slots_of};
ghost use Rattle.slots.specs.Inner.{Room, Readable, standing};
ghost use Rattle.bits.specs.Inner.{Fills, InWord, LeafWord, SumsFit, hand_word, skipped, passed, shifted, past_active, number_in};

use coordinates::Index;
use forms::Coding;
use slots::Inside;

// The places of one mask word that are left, `left` of them: their bits of the value mask and of the child mask, the next place's lowest.
#[derive(Clone, Copy)]
pub struct Bits {
    pub inside: Inside,
    pub left: u32,
    pub ones: u64,
    pub children: u64,
}

// Where the walk stands when it stops, the first slot that it did not fill, and whether all that it needed lies in the file: a flag and no Result, as the
// other two hold in either case.
#[derive(Clone, Copy)]
pub struct Run {
    pub inside: Inside,
    pub filled: usize,
    pub whole: bool,
}

// The ones among the lowest z bits.
fn count_low(b: u64, z: u32) -> u32
    requires { (z ≤ 64) × (b < 2 ^ 64) }
    ensures { (result ≡ count_below (digit b) z) × (result ≤ z) }
{
    if z == 64 {
        return b.count_ones();
    }
    masks::low_bits(b, z as usize).count_ones()
}

// How many of the next z places are stored, none of them being active; b has their bits of the child mask.
fn skip(stored: u32, b: u64, z: u32) -> usize
    requires { (z ≤ 64) × (b < 2 ^ 64) }
    ensures { (result ≡ skipped stored b z) × (result ≤ z) }
{
    match stored {
        0 => z as usize,
        1 => 0,
        _ => (z - count_low(b, z)) as usize,
    }
}

// The walk behind the next z places, none of which is active.
fn pass(b: Bits, z: u32) -> Inside
    requires { (z ≤ b.left) × SumsFit b }
    ensures { result ≡ passed b z }
{
    let mut w = b.inside;
    w.number += skip(w.stored, b.children, z);
    w.from += z;
    w
}

// The word from its next active place on, of which there is one.
fn to_active(b: Bits) -> Bits
    requires { SumsFit b × (b.ones < 2 ^ b.left) × (b.ones ≡ 0 → ⊥) }
    ensures { result ≡ shifted b (count_trailing_zeros 64 b.ones) }
{
    let z = b.ones.trailing_zeros();
    Bits {
        inside: pass(b, z),
        left: b.left - z,
        ones: masks::high_bits(b.ones, z as usize),
        children: masks::high_bits(b.children, z as usize),
    }
}

// The word behind its next place, which is active.
fn past_active(b: Bits) -> Bits
    requires { SumsFit b × (0 < b.left) }
    ensures { result ≡ past_active b 1 }
{
    let mut inside = b.inside;
    inside.from += 1;
    inside.number += 1;
    Bits {
        inside,
        left: b.left - 1,
        ones: b.ones / 2,
        children: b.children / 2,
    }
}

// The records of a word's places, of whatever piece, into the slots from `slot` on, no further than `limit`. A value is read only where its number
// is below `room`, so that it lies in the file.
pub fn fill_any(
    s: &[u8],
    c: Coding,
    room: usize,
    word: Bits,
    slot: usize,
    limit: usize,
    x: &mut [i32],
    y: &mut [i32],
    z: &mut [i32],
    level: &mut [u32],
    value: &mut [u32],
) -> Run
    requires { Readable s.now c room word.inside × InWord s.now word × Room limit (slots_of x.old y.old z.old level.old value.old) }
    ensures { Fills slot (hand_word s.now c (limit - slot) word) (slots_of x.old y.old z.old level.old value.old) (slots_of x.new y.new z.new level.new value.new) result }
{
    let mut b = word;
    for at in slot..limit {
        if b.ones == 0 {
            return Run {
                inside: pass(b, b.left),
                filled: at,
                whole: true,
            };
        }
        b = to_active(b);
        let w = b.inside;
        if room <= w.number {
            return Run {
                inside: w,
                filled: at,
                whole: false,
            };
        }
        let v = values::stored_value(s, c, w.start, w.number);
        slots::put_record(
            at,
            slots::corner(w.level, w.origin, Index(w.from)),
            w.level,
            v,
            x,
            y,
            z,
            level,
            value,
        );
        b = past_active(b);
    }
    Run {
        inside: b.inside,
        filled: slot.max(limit),
        whole: true,
    }
}

// The number of the next stored value behind p places of a leaf, k of them active: all are stored, or the active ones.
fn number_behind(w: Inside, p: u32, k: usize) -> usize
    requires { (w.number + p ≤ 1024) × (k ≤ p) }
    ensures { result ≡ number_in w p k }
{
    if w.stored == 0 {
        return w.number + p as usize;
    }
    w.number + k
}

// The walk behind these places.
fn stand(w: Inside, p: u32, k: usize) -> Inside
    requires { (w.number ≤ w.from) × (w.from + p ≤ 512) × (k ≤ p) }
    ensures { result ≡ standing w (w.from + p) (number_in w p k) }
{
    let mut v = w;
    v.from = w.from + p;
    v.number = number_behind(w, p, k);
    v
}

// The same as `fill_any` for a leaf's places, whose values lie in the file: one by one from the lowest bit that is set on. Level, side and step are
// constants here, and the next one does not wait for the place of the one before.
pub fn fill_ones(
    s: &[u8],
    c: Coding,
    room: usize,
    word: Bits,
    slot: usize,
    limit: usize,
    x: &mut [i32],
    y: &mut [i32],
    z: &mut [i32],
    level: &mut [u32],
    value: &mut [u32],
) -> Run
    requires { Readable s.now c room word.inside × InWord s.now word × LeafWord room word × Room limit (slots_of x.old y.old z.old level.old value.old) }
    ensures { Fills slot (hand_word s.now c (limit - slot) word) (slots_of x.old y.old z.old level.old value.old) (slots_of x.new y.new z.new level.new value.new) result }
{
    let w = word.inside;
    let mut ones = word.ones;
    let mut p: u32 = 0;
    for i in slot..limit {
        if ones == 0 {
            return Run {
                inside: stand(w, word.left, i - slot),
                filled: i,
                whole: true,
            };
        }
        let q = ones.trailing_zeros();
        let v = values::stored_value(s, c, w.start, number_behind(w, q, i - slot));
        slots::put_record(
            i,
            slots::corner(0, w.origin, Index(w.from + q)),
            0,
            v,
            x,
            y,
            z,
            level,
            value,
        );
        ones = masks::past_lowest(ones);
        p = q + 1;
    }
    let filled = slot.max(limit);
    Run {
        inside: stand(w, p, filled - slot),
        filled,
        whole: true,
    }
}
