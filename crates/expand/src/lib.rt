// Document 01, section 5: the 512 values of a leaf, by words of 64 places. A word whose places are all stored is copied. In another one the inactive
// values come first, into all 64 slots, and then each stored value over its own: nobody can foresee which places are stored, and to ask at each of them
// takes longer than to write some twice.
#![tactic(auto)]

ghost use Rattle.std.specs.Prelude.{◌≡◌, ◌+◌, ◌%◌, ◌<◌, length};
ghost use Rattle.masks.specs.Inner.{IsMask, IsWord};
ghost use Rattle.forms.specs.Inner.{SelectionHeld};
ghost use Rattle.runs.specs.Runs.{is_stored, number_of};
ghost use Rattle.runs.specs.Inner.{Held};
ghost use Rattle.values.specs.Values.{is_selected, values_from, leaf_values};
ghost use Rattle.expand.specs.Inner.{ZerosHeld};

use forms::{Coding, Inactives, Stored};
use runs::Values;

// Which of the 64 places from p on are stored, as bits. A leaf has no child mask; its value mask stands in, as in the definitions.
fn stored_word(s: &[u8], stored: Stored, value: usize, p: usize) -> u64
    requires { IsMask s.now value 64 × (p % 64 ≡ 0) × (p < 512) }
    ensures { IsWord (is_stored s.now stored value value) p result }
{
    match stored {
        Stored::Every => u64::MAX,
        Stored::Active => masks::word(s, value, 64, p / 8),
        Stored::Childless => !masks::word(s, value, 64, p / 8),
    }
}

// Which of the 64 places from p on are selected, as bits.
fn selection_word(s: &[u8], selection: Option<usize>, p: usize) -> u64
    requires { SelectionHeld s.now 64 selection × (p % 64 ≡ 0) × (p < 512) }
    ensures { IsWord (is_selected s.now selection) p result }
{
    match selection {
        Some(at) => masks::word(s, at, 64, p / 8),
        None => 0,
    }
}

// The inactive values of the places from p on that are not stored; `ones` has the bits of those that are. Mostly none of them is selected, or all are and
// no other.
fn fill_inactive(s: &[u8], v: Inactives, p: usize, ones: u64, slots: &mut [u32])
    requires { SelectionHeld s.now 64 v.selection × (p % 64 ≡ 0) × (p < 512) × (length slots.old ≡ 64) }
    ensures { ZerosHeld s.now v p ones slots.new }
{
    let w = selection_word(s, v.selection, p);
    if w == !ones {
        batch::fill_same(v.second, 0, slots);
        return;
    }
    batch::fill_same(v.first, 0, slots);
    batch::put_same(v.second, w, slots);
}

// The values of the 64 places from p on, and the number of the next stored value behind them; k is the one before them.
fn fill_word(
    s: &[u8],
    c: Coding,
    value: usize,
    v: Values,
    p: usize,
    k: usize,
    slots: &mut [u32],
) -> usize
    requires { Held s.now c 64 value value v × (p % 64 ≡ 0) × (p < 512) × (k ≡ number_of s.now v.stored value value p) × (length slots.old ≡ 64) }
    ensures { (slots.new ≡ values_from s.now c value value v p 64) × (result ≡ number_of s.now v.stored value value (p + 64)) }
{
    let ones = stored_word(s, v.stored, value, p);
    if ones == u64::MAX {
        batch::fill_values(s, c, v.start, k, 0, slots);
        return k + 64;
    }
    fill_inactive(s, v.inactives, p, ones, slots);
    batch::put_stored(s, c, v.start, k, ones, slots)
}

// A leaf's 512 values, place 0 first, into 512 slots. The callers have its values from `runs::read_values`.
pub fn fill_leaf(s: &[u8], c: Coding, value: usize, v: Values, slots: &mut [u32])
    requires { Held s.now c 64 value value v × (length slots.old ≡ 512) }
    ensures { slots.new ≡ leaf_values s.now c value v }
{
    let mut k = 0;
    for i in 0..8 {
        let p = 64 * i;
        k = fill_word(s, c, value, v, p, k, &mut slots[p..p + 64]);
    }
}
