// Document 01, sections 5 and 7: 64 slots at once, those of the places of a mask word.
#![tactic(auto)]

ghost use Rattle.std.specs.Prelude.{◌≡◌, true, ◌+◌, ◌*◌, ◌≤◌, length};
ghost use Rattle.fields.specs.Le.{u16_at};
ghost use Rattle.masks.specs.Masks.{digit, count_below};
ghost use Rattle.half.specs.Half.{widened};
ghost use Rattle.half.specs.Inner.{are_normal};
ghost use Rattle.batch.specs.Inner.{ranged, numbered, in_order, InFile, OnesSet};

use forms::Coding;

// One value into 64 slots. This loop and the next two have no way out, so that the compiler vectorises them. They are not one over a closure, which would
// have to carry what each body asks and promises.
pub fn fill_same(x: u32, slot: usize, slots: &mut [u32])
    requires { slot + 64 ≤ length slots.old }
    ensures { slots.new ≡ ranged slots.old slot 64 (λ k. x) }
{
    for k in 0..64 {
        slots[slot + k] = x;
    }
}

// 64 normal halves from a position on, one after the other with no test between.
fn fill_normal(s: &[u8], at: usize, slot: usize, slots: &mut [u32])
    requires { (at + 128 ≤ length s.now) × (are_normal s.now at 64 ≡ true) × (slot + 64 ≤ length slots.old) }
    ensures { slots.new ≡ ranged slots.old slot 64 (λ k. widened (u16_at s.now (at + k * 2))) }
{
    for k in 0..64 {
        slots[slot + k] = half::widen_normal(fields::u16_at(s, at + k * 2));
    }
}

// 64 stored values of a run from a number on, of either width and any kind.
fn fill_stored(s: &[u8], c: Coding, start: usize, number: usize, slot: usize, slots: &mut [u32])
    requires { InFile s.now c start number 64 × (slot + 64 ≤ length slots.old) }
    ensures { slots.new ≡ ranged slots.old slot 64 (numbered s.now c start number) }
{
    for k in 0..64 {
        slots[slot + k] = values::stored_value(s, c, start, number + k);
    }
}

// The same. Halves that are all normal, as they mostly are, stand apart.
pub fn fill_values(s: &[u8], c: Coding, start: usize, number: usize, slot: usize, slots: &mut [u32])
    requires { InFile s.now c start number 64 × (slot + 64 ≤ length slots.old) }
    ensures { slots.new ≡ ranged slots.old slot 64 (numbered s.now c start number) }
{
    if c.width == 2 {
        let at = start + number * 2;
        if half::are_normal(s, at) {
            fill_normal(s, at, slot, slots);
            return;
        }
    }
    fill_stored(s, c, start, number, slot, slots);
}

// One value into the slot of each one of a word. What is left of the word says how far the loop is, so that this and the next one count nothing.
pub fn put_same(x: u32, ones: u64, slots: &mut [u32])
    requires { length slots.old ≡ 64 }
    ensures { OnesSet (λ i. x) ones slots.old slots.new }
{
    let mut left = ones;
    while left != 0 {
        slots[left.trailing_zeros() as usize] = x;
        left = masks::past_lowest(left);
    }
}

// The stored values of a run from a number on, each into the slot of a one; then the number of the next stored value.
pub fn put_stored(
    s: &[u8],
    c: Coding,
    start: usize,
    number: usize,
    ones: u64,
    slots: &mut [u32],
) -> usize
    requires { InFile s.now c start number (count_below (digit ones) 64) × (length slots.old ≡ 64) }
    ensures { OnesSet (in_order s.now c start number ones) ones slots.old slots.new × (result ≡ number + count_below (digit ones) 64) }
{
    let mut left = ones;
    let mut k = number;
    while left != 0 {
        slots[left.trailing_zeros() as usize] = values::stored_value(s, c, start, k);
        left = masks::past_lowest(left);
        k += 1;
    }
    k
}
