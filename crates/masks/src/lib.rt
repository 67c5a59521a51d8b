// Document 01, sections 4, 5 and 7: masks, of n bytes at a position of the file. A node's masks have 4096 or 512 bytes, a leaf's 64; each
// function takes any of them. All but `bit` go by words of 64 places. They are leaf functions: their callers have tested that the mask lies
// in the file.
#![tactic(auto)]

ghost use Rattle.std.specs.Prelude.{◌≡◌, ◌+◌, ◌*◌, ◌/◌, ◌%◌, ◌^◌, ◌≤◌, ◌<◌};
ghost use Rattle.std.specs.Int.Count.{count_trailing_zeros};
ghost use Rattle.masks.specs.Masks.{mask_bit, count_below, overlap, agree};
ghost use Rattle.masks.specs.Inner.{zeros_below, IsMask, next_one, IsWord, ones_past};

use coordinates::Index;

// The bit of a place.
pub fn bit(s: &[u8], at: usize, n: usize, p: Index) -> bool
    requires { IsMask s.now at n × (p.0 < 8 * n) }
    ensures { result ≡ mask_bit s.now at p.0 }
{
    let q = p.0 as usize;
    (s[at + q / 8] >> (q % 8)) % 2 == 1
}

// The bits of the 64 places from 8 * i on, as a number.
pub fn word(s: &[u8], at: usize, n: usize, i: usize) -> u64
    requires { IsMask s.now at n × (i % 8 ≡ 0) × (i < n) }
    ensures { IsWord (mask_bit s.now at) (8 * i) result }
{
    fields::u64_at(s, at + i)
}

// The ones of a whole mask.
pub fn count_ones(s: &[u8], at: usize, n: usize) -> u32
    requires { IsMask s.now at n }
    ensures { result ≡ count_below (mask_bit s.now at) (8 * n) }
{
    let mut count = 0;
    for k in 0..n / 8 {
        count += word(s, at, n, 8 * k).count_ones();
    }
    count
}

// The bits of a word below bit r.
pub fn low_bits(w: u64, r: usize) -> u64
    requires { r < 64 }
    ensures { result ≡ w % 2 ^ r }
{
    w % (1u64 << r)
}

// The ones below a place: those of the whole words before it, and those of the part of its own word.
pub fn count_ones_below(s: &[u8], at: usize, n: usize, p: Index) -> u32
    requires { IsMask s.now at n × (p.0 ≤ 8 * n) }
    ensures { result ≡ count_below (mask_bit s.now at) p.0 }
{
    let q = p.0 as usize;
    let i = q / 64 * 8;
    let whole = count_ones(s, at, i);
    let rest = q % 64;
    if rest == 0 {
        return whole;
    }
    whole + low_bits(word(s, at, n, i), rest).count_ones()
}

// The zeros of a whole mask.
pub fn count_zeros(s: &[u8], at: usize, n: usize) -> u32
    requires { IsMask s.now at n }
    ensures { result ≡ zeros_below (mask_bit s.now at) (8 * n) }
{
    8 * (n as u32) - count_ones(s, at, n)
}

// The zeros below a place.
pub fn count_zeros_below(s: &[u8], at: usize, n: usize, p: Index) -> u32
    requires { IsMask s.now at n × (p.0 ≤ 8 * n) }
    ensures { result ≡ zeros_below (mask_bit s.now at) p.0 }
{
    p.0 - count_ones_below(s, at, n, p)
}

// The bits of a word from bit r on.
pub fn high_bits(w: u64, r: usize) -> u64
    requires { r < 64 }
    ensures { result ≡ w / 2 ^ r }
{
    w >> r
}

// The ones of a word above its lowest one.
pub fn past_lowest(w: u64) -> u64
    requires { (w < 2 ^ 64) × (w ≡ 0 → ⊥) }
    ensures { (result ≡ ones_past w (count_trailing_zeros 64 w + 1)) × (result < w) }
{
    w & (w - 1)
}

// The next one in the words from byte `from` on.
fn next_in_words(s: &[u8], at: usize, n: usize, from: usize) -> Option<Index>
    requires { IsMask s.now at n × (from % 8 ≡ 0) × (from ≤ n) }
    ensures { result ≡ next_one (mask_bit s.now at) (8 * n) (8 * from) }
{
    for k in from / 8..n / 8 {
        let w = word(s, at, n, 8 * k);
        if w != 0 {
            return Some(Index(64 * k as u32 + w.trailing_zeros()));
        }
    }
    None
}

// The next one at or after a place: in its own word, or in those that follow.
pub fn next_one(s: &[u8], at: usize, n: usize, p: Index) -> Option<Index>
    requires { IsMask s.now at n × (p.0 ≤ 8 * n) }
    ensures { result ≡ next_one (mask_bit s.now at) (8 * n) p.0 }
{
    let q = p.0 as usize;
    let i = q / 64 * 8;
    if n <= i {
        return None;
    }
    let high = high_bits(word(s, at, n, i), q % 64);
    if high != 0 {
        return Some(Index(p.0 + high.trailing_zeros()));
    }
    next_in_words(s, at, n, i + 8)
}

// Whether two masks have a one at the same place.
pub fn masks_overlap(s: &[u8], a: usize, b: usize, n: usize) -> bool
    requires { IsMask s.now a n × IsMask s.now b n }
    ensures { result ≡ overlap (mask_bit s.now a) (mask_bit s.now b) (8 * n) }
{
    for k in 0..n / 8 {
        if word(s, a, n, 8 * k) & word(s, b, n, 8 * k) != 0 {
            return true;
        }
    }
    false
}

// Whether two masks are the same. All words are compared, whatever the first ones say: with no way out of the loop the compiler compares several
// words at once.
pub fn masks_equal(s: &[u8], a: usize, b: usize, n: usize) -> bool
    requires { IsMask s.now a n × IsMask s.now b n }
    ensures { result ≡ agree (mask_bit s.now a) (mask_bit s.now b) (8 * n) }
{
    let mut same = true;
    for k in 0..n / 8 {
        same &= word(s, a, n, 8 * k) == word(s, b, n, 8 * k);
    }
    same
}
