// Document 01, section 5: a stored value is a half or a 32-bit float, and is handed out as a 32-bit pattern.
#![tactic(auto)]

ghost use Rattle.std.specs.Prelude.{◌≡◌, true, ◌+◌, ◌-◌, ◌%◌, ◌≤◌, length};
ghost use Rattle.half.specs.Half.{exponent, stored_value, widened};
ghost use Rattle.half.specs.Inner.{are_normal, is_normal, IsWidth};

// A half with exponent 0: its fraction counts units of 2 to the minus 24. The highest one of it, at position j, stands for 2 to the j - 24, whose
// exponent field in 32 bits is j + 103. What is below the highest one is the fraction, which moves up to the 23 bits below the exponent.
fn widen_subnormal(h: u16) -> u32
    requires { exponent h ≡ 0 }
    ensures { result ≡ widened h }
{
    let p = u32::from(h);
    let sign = p / 0x8000 * 0x8000_0000;
    let t = p % 0x0400;
    if t == 0 {
        return sign;
    }
    let j = 31 - t.leading_zeros();
    sign + (j + 103) * 0x0080_0000 + (t << (23 - j)) % 0x0080_0000
}

// A half with exponent 31: 0x7f80_0000 is an exponent of all ones, so an infinity, or a NaN, whose quiet bit is set.
fn widen_special(h: u16) -> u32
    requires { exponent h ≡ 31 }
    ensures { result ≡ widened h }
{
    let p = u32::from(h);
    let sign = p / 0x8000 * 0x8000_0000;
    let t = p % 0x0400;
    if t == 0 {
        return sign + 0x7f80_0000;
    }
    if t < 512 {
        return sign + 0x7f80_0000 + (t + 512) * 0x2000;
    }
    sign + 0x7f80_0000 + t * 0x2000
}

// Whether a half has an exponent from 1 to 30, as most values of a cloud have: without its sign it is a number from 0x0400 to below 0x7c00.
fn is_normal(h: u16) -> bool
    ensures { result ≡ is_normal h }
{
    let rest = h % 0x8000;
    0x0400 <= rest && rest < 0x7c00
}

// Such a half, which without its sign is so much above 0x0400, the smallest one. That is 0x3880_0000 in 32 bits, and a step up there is 0x2000.
fn widen_above(h: u16, above: u32) -> u32
    requires { (is_normal h ≡ true) × (above ≡ h % 32768 - 1024) }
    ensures { result ≡ widened h }
{
    let sign = u32::from(h) / 0x8000 * 0x8000_0000;
    sign + 0x3880_0000 + above * 0x2000
}

// The same by itself.
pub fn widen_normal(h: u16) -> u32
    requires { is_normal h ≡ true }
    ensures { result ≡ widened h }
{
    widen_above(h, u32::from(h) % 0x8000 - 0x0400)
}

// Any half. The difference from 0x0400 modulo 0x8000, so without the sign, is below 0x7800 for the normal ones alone: one comparison finds them.
pub fn widen(h: u16) -> u32
    ensures { result ≡ widened h }
{
    let above = (u32::from(h) + 0x7c00) % 0x8000;
    if above < 0x7800 {
        return widen_above(h, above);
    }
    if h / 0x0400 % 32 == 0 {
        return widen_subnormal(h);
    }
    widen_special(h)
}

// The stored value that starts at a position, of 2 bytes or 4. The callers have tested that its bytes are there.
pub fn value_at(s: &[u8], at: usize, width: usize) -> u32
    requires { (at + width ≤ length s.now) × IsWidth width }
    ensures { result ≡ stored_value s.now width at }
{
    if width == 2 {
        return widen(fields::u16_at(s, at));
    }
    fields::u32_at(s, at)
}

// Whether 64 halves from a position on are normal. All are looked at, so that the compiler vectorises the loop.
pub fn are_normal(s: &[u8], at: usize) -> bool
    requires { at + 128 ≤ length s.now }
    ensures { result ≡ are_normal s.now at 64 }
{
    let mut all = true;
    for k in 0..64 {
        if !is_normal(fields::u16_at(s, at + k * 2)) {
            all = false;
        }
    }
    all
}
