// Walk calls from places of the file that was kept: of other bytes, or with a word set. Each call is followed by one from the place that it handed back.
use crate::{lend, words};
use asking::{line, show};
use fields::ParseError;
use lend::Called;
use place::Place;
use std::io::{self, Write};

fn is_past(c: Called) -> bool {
    c.refusal == Some(ParseError::ForeignPlace) && c.kept
}

// The place handed back starts from the same, and has the number left that is told: so many fewer as were handed out.
fn goes_on(p: Place, c: Called) -> bool {
    p.left.wrapping_sub(c.filled) == c.left && c.place.left == c.left && c.place.start == p.start
}

// No more records than there are slots and than are left, and one at least where there are some of both.
fn is_some(left: u64, c: Called, slots: u64) -> bool {
    let any = slots == 0 || left == 0 || c.filled != 0;
    any && c.filled <= slots && c.filled <= left
}

fn is_free(p: Place, c: Called, k: u64) -> bool {
    is_past(c)
        || c.refusal.is_none()
            && is_some(p.left, c, lend::slots(k) as u64)
            && goes_on(p, c)
            && c.kept
}

fn is_right(past: bool, p: Place, c: Called, k: u64) -> bool {
    if past { is_past(c) } else { is_free(p, c, k) }
}

fn tried(
    out: &mut impl Write,
    past: bool,
    s: &[u8],
    p: Place,
    k: u64,
    turn: usize,
) -> io::Result<bool> {
    let c = lend::call(out, s, p, k, turn, false, 0)?;
    let d = lend::call(out, s, c.place, k, turn, false, 0)?;
    Ok(is_right(past, p, c, k) && is_right(past, c.place, d, k))
}

// How many calls there are, by the numbers from `from` to the one before `to`, and how many of them are right.
fn row<W: Write, F: Fn(&mut W, usize) -> io::Result<bool>>(
    out: &mut W,
    from: usize,
    to: usize,
    call: F,
) -> io::Result<()>
    requires { F.IsAlwaysCallable call }
{
    let mut calls = 0u64;
    let mut right = 0u64;
    for i in from..to {
        let good = call(out, i)?;
        calls = calls.wrapping_add(1);
        right = right.wrapping_add(u64::from(good));
    }
    show::number(out, calls)?;
    show::number(out, right)
}

// The calls that a line with so many numbers asks for.
pub fn ask(
    out: &mut impl Write,
    past: bool,
    count: usize,
    s: &[u8],
    p: Place,
    n: &[u64; 8],
) -> io::Result<()> {
    match count {
        5 => row(out, 0, words::COUNT, |out, i| {
            tried(out, past, s, words::with(p, i as u64, n[5]), n[4], i)
        }),
        6 => row(out, n[5] as usize, n[6] as usize, |out, i| {
            tried(out, past, line::cut(s, i), p, n[4], i)
        }),
        _ => row(out, 0, 1, |out, i| tried(out, past, s, p, n[4], i)),
    }
}
