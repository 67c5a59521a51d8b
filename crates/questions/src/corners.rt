// The question for the origins of leaves:
//
//     Origins FIRST X Y Z N, Origins FIRST X Y Z: NAME       those of the leaves from this one on, into slices of these lengths, 32 at most
//
// It shows the origins, or the refusal, and whether all other slots are as they were.
ghost use Rattle.std.specs.Prelude.{◌≤◌};

use asking::{line, show};
use fields::ParseError;
use std::io::{self, Write};

fn show_origin(out: &mut impl Write, x: i32, y: i32, z: i32) -> io::Result<()> {
    show::tag(out, b'|')?;
    show::signed32(out, x)?;
    show::signed32(out, y)?;
    show::signed32(out, z)
}

// A slot as it is before each call.
fn is_untouched(x: i32, y: i32, z: i32) -> bool {
    x == 71 && y == 72 && z == 73
}

// Shows a slot that is filled; whether one that is not is as it was.
fn take_slot(out: &mut impl Write, filled: bool, x: i32, y: i32, z: i32) -> io::Result<bool> {
    if filled {
        show_origin(out, x, y, z)?;
        return Ok(true);
    }
    Ok(is_untouched(x, y, z))
}

// The first slots are filled.
fn show_slots(
    out: &mut impl Write,
    filled: usize,
    x: &[i32; 32],
    y: &[i32; 32],
    z: &[i32; 32],
) -> io::Result<()> {
    let mut kept = true;
    for i in 0..32 {
        kept &= take_slot(out, i < filled, x[i], y[i], z[i])?;
    }
    show::flag(out, kept)
}

fn show_answer(
    out: &mut impl Write,
    a: Result<(), ParseError>,
    lent: usize,
    x: &[i32; 32],
    y: &[i32; 32],
    z: &[i32; 32],
) -> io::Result<()> {
    match a {
        Ok(()) => {
            show::tag(out, b'f')?;
            show_slots(out, lent, x, y, z)
        }
        Err(e) => {
            show::refused(out, u32::from(e))?;
            show_slots(out, 0, x, y, z)
        }
    }
}

fn call(
    words: usize,
    s: &[u8],
    name: &[u8],
    grid: u32,
    first: u64,
    x: &mut [i32],
    y: &mut [i32],
    z: &mut [i32],
) -> Result<(), ParseError> {
    if words == 5 {
        return origins::origins_numbered(s, grid, first, x, y, z);
    }
    origins::origins_named(s, name, first, x, y, z)
}

fn length(n: u64) -> usize
    ensures { result ≤ 32 }
{
    n as usize % 33
}

pub fn ask(
    out: &mut impl Write,
    words: usize,
    s: &[u8],
    name: &[u8],
    n: &[u64; 8],
) -> io::Result<()> {
    let mut x = [71i32; 32];
    let mut y = [72i32; 32];
    let mut z = [73i32; 32];
    let a = length(n[2]);
    let b = length(n[3]);
    let c = length(n[4]);
    let grid = line::low(n[5]);
    let answer = call(
        words,
        s,
        name,
        grid,
        n[1],
        &mut x[0..a],
        &mut y[0..b],
        &mut z[0..c],
    );
    show_answer(out, answer, a, &x, &y, &z)
}
