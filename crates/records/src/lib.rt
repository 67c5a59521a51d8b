// Document 01, section 7: the records of a piece, from where a walk stands in it, into five lent slices.
#![tactic(auto)]

ghost use Rattle.std.specs.Prelude.{◌≡◌, ◌+◌, ◌-◌, ◌*◌, ◌%◌, ◌<◌, leb};
ghost use Rattle.coordinates.specs.Inner.{Divides};
ghost use Rattle.half.specs.Inner.{IsWidth};
ghost use Rattle.tree.specs.Active.{side_of, edge_of};
ghost use Rattle.slots.specs.Slots.{slots_of};
ghost use Rattle.slots.specs.Inner.{Room, Readable, mask_bytes};
ghost use Rattle.bits.specs.Inner.{Fills, InWord, hand_out, hand_word};
ghost use Rattle.records.specs.Inner.{Masks, is_full, is_leaf, is_inside, hand_piece};

use bits::{Bits, Run};
use forms::Coding;
use slots::Inside;

// Whether n more than a number are no more than another. No sum that could wrap is formed.
fn fits(a: usize, n: usize, most: usize) -> bool
    ensures { result ≡ leb (a + n) most }
{
    n <= most && a <= most - n
}

// Whether a word's places are a leaf's, stored all or where active, with values in the file.
fn is_leaf(b: Bits, room: usize) -> bool
    ensures { result ≡ is_leaf b room }
{
    b.inside.level == 0 && b.inside.stored <= 1 && fits(b.inside.number, b.left as usize, room)
}

// Whether all 64 places of a word are active, with slots and values for them.
fn is_full(b: Bits, room: usize, slot: usize, limit: usize) -> bool
    ensures { result ≡ is_full b room slot limit }
{
    b.ones == u64::MAX && fits(slot, 64, limit) && fits(b.inside.number, 64, room)
}

// The records of a word's places into the slots from `slot` on, no further than `limit`. Full words stand apart, of which a dense cloud has many, and
// so do leaves, which have most of the places.
fn fill_word(
    s: &[u8],
    c: Coding,
    room: usize,
    word: Bits,
    slot: usize,
    limit: usize,
    x: &mut [i32],
    y: &mut [i32],
    z: &mut [i32],
    level: &mut [u32],
    value: &mut [u32],
) -> Run
    requires { Readable s.now c room word.inside × InWord s.now word × Room limit (slots_of x.old y.old z.old level.old value.old) }
    ensures { Fills slot (hand_word s.now c (limit - slot) word) (slots_of x.old y.old z.old level.old value.old) (slots_of x.new y.new z.new level.new value.new) result }
{
    if is_full(word, room, slot, limit) {
        let mut inside = word.inside;
        slots::fill_full(s, c, room, inside, slot, x, y, z, level, value);
        inside.from += 64;
        inside.number += 64;
        return Run {
            inside,
            filled: slot + 64,
            whole: true,
        };
    }
    if is_leaf(word, room) {
        return bits::fill_ones(s, c, room, word, slot, limit, x, y, z, level, value);
    }
    bits::fill_any(s, c, room, word, slot, limit, x, y, z, level, value)
}

// The word that the next place is in, from that place on; the masks have n bytes.
fn word_at(s: &[u8], n: usize, w: Inside) -> Bits
    requires { Masks s.now n w × (w.from < 8 * n) }
    ensures { InWord s.now result × (result.inside ≡ w) × (result.left ≡ 64 - w.from % 64) }
{
    let at = w.from as usize;
    let i = at / 64 * 8;
    let r = at % 64;
    Bits {
        inside: w,
        left: 64 - w.from % 64,
        ones: masks::high_bits(masks::word(s, w.value_mask, n, i), r),
        children: masks::high_bits(masks::word(s, w.child_mask, n, i), r),
    }
}

// The records of the places that are left of a piece with masks of n bytes, word by word.
fn fill_words(
    s: &[u8],
    c: Coding,
    room: usize,
    n: usize,
    w: Inside,
    slot: usize,
    limit: usize,
    x: &mut [i32],
    y: &mut [i32],
    z: &mut [i32],
    level: &mut [u32],
    value: &mut [u32],
) -> Run
    requires { Readable s.now c room w × Masks s.now n w × (w.from < 8 * n) × Room limit (slots_of x.old y.old z.old level.old value.old) }
    ensures { Fills slot (hand_out s.now c (limit - slot) w (8 * n - w.from)) (slots_of x.old y.old z.old level.old value.old) (slots_of x.new y.new z.new level.new value.new) result }
{
    let mut t = Run {
        inside: w,
        filled: slot,
        whole: true,
    };
    for _word in w.from as usize / 64..n / 8 {
        if limit <= t.filled {
            break;
        }
        t = fill_word(
            s,
            c,
            room,
            word_at(s, n, t.inside),
            t.filled,
            limit,
            x,
            y,
            z,
            level,
            value,
        );
        if !t.whole {
            break;
        }
    }
    t
}

// How many voxels long a piece's cube is, by its level.
fn span(level: u32) -> u32
    requires { level < 3 }
    ensures { (result ≡ edge_of level * side_of level) × Divides result }
{
    match level {
        0 => 8,
        1 => 128,
        _ => 4096,
    }
}

// Whether words can be those of a walk in a piece, whose masks have n bytes.
pub fn is_inside(s: &[u8], n: usize, w: Inside) -> bool
    requires { (n ≡ mask_bytes w.level) × (w.level < 3) }
    ensures { result ≡ is_inside s.now w }
{
    fits(w.value_mask, n, s.len())
        && fits(w.child_mask, n, s.len())
        && w.number <= w.from as usize
        && coordinates::is_aligned(w.origin, span(w.level))
}

// The records of the places that are left of a piece into the slots from `slot` on, no further than `limit`. Words that are no walk's in a piece
// of this file are not read by: nothing is handed out, and the answer says that something is not in the file.
pub fn fill_piece(
    s: &[u8],
    c: Coding,
    w: Inside,
    slot: usize,
    limit: usize,
    x: &mut [i32],
    y: &mut [i32],
    z: &mut [i32],
    level: &mut [u32],
    value: &mut [u32],
) -> Run
    requires { IsWidth c.width × Room limit (slots_of x.old y.old z.old level.old value.old) }
    ensures { Fills slot (hand_piece s.now c (limit - slot) w) (slots_of x.old y.old z.old level.old value.old) (slots_of x.new y.new z.new level.new value.new) result }
{
    let n = slots::mask_bytes(w.level);
    if 8 * n as u32 <= w.from {
        return Run {
            inside: w,
            filled: slot,
            whole: true,
        };
    }
    if !is_inside(s, n, w) {
        return Run {
            inside: w,
            filled: slot,
            whole: false,
        };
    }
    let room = fields::remaining(s, w.start) / c.width;
    fill_words(s, c, room, n, w, slot, limit, x, y, z, level, value)
}
