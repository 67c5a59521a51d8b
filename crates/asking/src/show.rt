// What is printed of the answers: numbers and bytes, most of them after a space.
use fields::{DVec3, IVec3, ParseError, Span};
use std::io::{self, Write};

// One character, as it is.
pub fn letter(out: &mut impl Write, c: u8) -> io::Result<()> {
    out.write_all(&[c])
}

// Words, as they are.
pub fn text(out: &mut impl Write, t: &[u8]) -> io::Result<()> {
    out.write_all(t)
}

fn space(out: &mut impl Write) -> io::Result<()> {
    letter(out, b' ')
}

// A letter that says which case it is.
pub fn tag(out: &mut impl Write, c: u8) -> io::Result<()> {
    space(out)?;
    letter(out, c)
}

pub fn number(out: &mut impl Write, n: u64) -> io::Result<()> {
    write!(out, " {n}")
}

pub fn size(out: &mut impl Write, n: usize) -> io::Result<()> {
    number(out, n as u64)
}

pub fn small(out: &mut impl Write, n: u32) -> io::Result<()> {
    number(out, u64::from(n))
}

pub fn flag(out: &mut impl Write, b: bool) -> io::Result<()> {
    number(out, u64::from(b))
}

// A pattern of 32 bits.
pub fn pattern(out: &mut impl Write, n: u32) -> io::Result<()> {
    wide(out, u64::from(n))
}

pub fn wide(out: &mut impl Write, n: u64) -> io::Result<()> {
    write!(out, " {n:08x}")
}

fn plain(out: &mut impl Write, n: i64) -> io::Result<()> {
    write!(out, "{n}")
}

pub fn signed(out: &mut impl Write, n: i64) -> io::Result<()> {
    space(out)?;
    plain(out, n)
}

// A signed number with no space before it, as at a line's start.
pub fn plain32(out: &mut impl Write, n: i32) -> io::Result<()> {
    plain(out, i64::from(n))
}

pub fn signed32(out: &mut impl Write, n: i32) -> io::Result<()> {
    space(out)?;
    plain32(out, n)
}

pub fn i_vec3(out: &mut impl Write, v: IVec3) -> io::Result<()> {
    signed32(out, v.x)?;
    signed32(out, v.y)?;
    signed32(out, v.z)
}

// The check that refused, by its number.
pub fn refused(out: &mut impl Write, k: u32) -> io::Result<()> {
    text(out, b" refused")?;
    small(out, k)
}

// What was asked for, or the check that refused.
pub fn answer<W: Write, T: Drop, F: FnOnce(&mut W, T) -> io::Result<()>>(
    out: &mut W,
    a: Result<T, ParseError>,
    shown: F,
) -> io::Result<()>
    requires { F.IsAlwaysCallable shown }
{
    match a {
        Ok(t) => shown(out, t),
        Err(e) => refused(out, u32::from(e)),
    }
}

pub fn nothing(out: &mut impl Write) -> io::Result<()> {
    text(out, b" nothing")
}

// A byte of a name; one that is no letter in hexadecimal digits.
fn shown(out: &mut impl Write, c: u8) -> io::Result<()> {
    match c {
        b' '..=b'~' => letter(out, c),
        _ => write!(out, "\\{c:02x}"),
    }
}

fn bytes(out: &mut impl Write, t: &[u8]) -> io::Result<()> {
    for c in t {
        shown(out, *c)?;
    }
    Ok(())
}

// Start, length and the bytes themselves.
pub fn span(out: &mut impl Write, s: &[u8], w: Span) -> io::Result<()> {
    size(out, w.start)?;
    size(out, w.len)?;
    tag(out, b'"')?;
    bytes(out, fields::bytes_of(s, w))?;
    letter(out, b'"')
}

fn bits(out: &mut impl Write, n: u64) -> io::Result<()> {
    write!(out, " {n:016x}")
}

// The double's pattern; a NaN has no one pattern.
pub fn double(out: &mut impl Write, x: f64) -> io::Result<()> {
    if x.is_nan() {
        text(out, b" nan")
    } else {
        bits(out, x.to_bits())
    }
}

pub fn d_vec3(out: &mut impl Write, v: DVec3) -> io::Result<()> {
    double(out, v.x)?;
    double(out, v.y)?;
    double(out, v.z)
}
