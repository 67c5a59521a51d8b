// Document 01, section 5, with N3: which values a node stores, and where their run starts. A node is given by the number n of bytes of each of its masks
// and by where these stand: its child mask at `child`, its value mask at `value`. A leaf has no child mask; nothing of a leaf is looked up there,
// and its value mask's position stands in.
#![tactic(auto)]

ghost use Rattle.std.specs.Prelude.{◌≡◌, ◌*◌, ◌≤◌, ◌<◌};
ghost use Rattle.masks.specs.Masks.{mask_bit, count_below};
ghost use Rattle.masks.specs.Inner.{IsMask};
ghost use Rattle.half.specs.Inner.{IsWidth};
ghost use Rattle.fields.specs.Inner.{end_of, says_end};
ghost use Rattle.fields.specs.Says.{says};
ghost use Rattle.runs.specs.Runs.{is_stored, number_of, count_of, is_sized, number_field, run_field, values_field};

use coordinates::Index;
use fields::{Field, ParseError, Span};
use forms::{Coding, Inactives, Stored};

// A node's values: which places are stored, what the inactive places hold, and where the run of stored values starts.
#[derive(Clone, Copy)]
pub struct Values {
    pub stored: Stored,
    pub inactives: Inactives,
    pub start: usize,
}

// How many values are stored, where the value mask has so many ones. The callers of this function and of those below have tested that the
// masks lie in the file.
fn count_of(s: &[u8], stored: Stored, n: usize, child: usize, value: usize, ones: usize) -> usize
    requires { IsMask s.now child n × IsMask s.now value n × (ones ≡ count_below (mask_bit s.now value) (8 * n)) }
    ensures { result ≡ count_of s.now stored n child value }
{
    match stored {
        Stored::Every => 8 * n,
        Stored::Active => ones,
        Stored::Childless => masks::count_zeros(s, child, n) as usize,
    }
}

// Whether a number stands before a run of so many values.
fn is_sized(c: Coding, count: usize) -> bool
    ensures { result ≡ is_sized c count }
{
    forms::may_pack(c.flags) && (c.width != 2 || count != 0)
}

// The number before a run of so many values that take so many bytes, where there is one. It is only compared: a run's end follows from the count of its
// values, so that what stands behind it does not wait for the number.
fn read_number(
    s: &[u8],
    c: Coding,
    count: usize,
    bytes: usize,
    at: usize,
) -> Result<usize, ParseError>
    requires { (count ≤ 32768) × IsWidth c.width × (bytes ≡ count * c.width) }
    ensures { says_end result ≡ number_field s.now c count at }
{
    if !is_sized(c, count) {
        return Ok(at);
    }
    let (number, p) = fields::read_i64(s, at)?;
    if 0 < number {
        return Err(ParseError::PackedGrid);
    }
    if number != -(bytes as i64) {
        return Err(ParseError::InvalidRunSize);
    }
    Ok(p)
}

// The run of the stored values of a node, with the number before it: no value is looked at. The caller has counted the ones of the value mask.
fn read_run(
    s: &[u8],
    c: Coding,
    stored: Stored,
    n: usize,
    child: usize,
    value: usize,
    ones: usize,
    at: usize,
) -> Field<Span>
    requires { IsMask s.now child n × IsMask s.now value n × IsWidth c.width × (ones ≡ count_below (mask_bit s.now value) (8 * n)) }
    ensures { says result ≡ run_field s.now c (count_of s.now stored n child value) at }
{
    let count = count_of(s, stored, n, child, value, ones);
    let bytes = count * c.width;
    let p = read_number(s, c, count, bytes, at)?;
    fields::read_bytes(s, p, bytes)
}

// The values of a node at a position.
pub fn read_values(
    s: &[u8],
    c: Coding,
    old: Stored,
    n: usize,
    child: usize,
    value: usize,
    at: usize,
) -> Field<Values>
    requires { IsMask s.now child n × IsMask s.now value n × IsWidth c.width }
    ensures { says result ≡ values_field s.now c old n child value at }
{
    let ones = masks::count_ones(s, value, n) as usize;
    let (head, p) = forms::read_head(s, c, old, n, at)?;
    let (run, e) = read_run(s, c, head.stored, n, child, value, ones, p)?;
    let v = Values {
        stored: head.stored,
        inactives: head.inactives,
        start: run.start,
    };
    Ok((v, e))
}

// Where the values of a node end, with the ones of the value mask counted by the caller. It stands apart from `read_values` so that it has one caller, the
// step over a leaf's block: what is called from one place alone is compiled into that place (bench/README.md).
pub fn pass_values(
    s: &[u8],
    c: Coding,
    old: Stored,
    n: usize,
    child: usize,
    value: usize,
    ones: usize,
    at: usize,
) -> Result<usize, ParseError>
    requires { IsMask s.now child n × IsMask s.now value n × IsWidth c.width × (ones ≡ count_below (mask_bit s.now value) (8 * n)) }
    ensures { says_end result ≡ end_of (values_field s.now c old n child value at) }
{
    let (head, p) = forms::read_head(s, c, old, n, at)?;
    let (_, e) = read_run(s, c, head.stored, n, child, value, ones, p)?;
    Ok(e)
}

// Whether a place is stored.
pub fn is_stored(s: &[u8], stored: Stored, n: usize, child: usize, value: usize, p: Index) -> bool
    requires { IsMask s.now child n × IsMask s.now value n × (p.0 < 8 * n) }
    ensures { result ≡ is_stored s.now stored child value p.0 }
{
    match stored {
        Stored::Every => true,
        Stored::Active => masks::bit(s, value, n, p),
        Stored::Childless => !masks::bit(s, child, n, p),
    }
}

// The number of the stored value that a place has.
pub fn number_of(s: &[u8], stored: Stored, n: usize, child: usize, value: usize, p: Index) -> usize
    requires { IsMask s.now child n × IsMask s.now value n × (p.0 < 8 * n) }
    ensures { result ≡ number_of s.now stored child value p.0 }
{
    match stored {
        Stored::Every => p.0 as usize,
        Stored::Active => masks::count_ones_below(s, value, n, p) as usize,
        Stored::Childless => masks::count_zeros_below(s, child, n, p) as usize,
    }
}
