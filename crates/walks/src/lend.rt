// A walk call with slots that hold something before it.
ghost use Rattle.std.specs.Prelude.{◌≤◌};

use asking::{series, show};
use fields::ParseError;
use place::Place;
use std::io::{self, Write};
use walk::Walked;

// What a call did: the place that it handed back, its refusal, the number filled and the number left, whether all other slots are as they were, and the
// sum with its records.
#[derive(Clone, Copy)]
pub struct Called {
    pub place: Place,
    pub refusal: Option<ParseError>,
    pub filled: u64,
    pub left: u64,
    pub kept: bool,
    pub sum: u64,
}

// A coordinate from 0 on.
fn lifted(v: i32) -> u64 {
    (i64::from(v) + 2147483648).cast_unsigned()
}

fn add_record(sum: u64, x: i32, y: i32, z: i32, level: u32, value: u32) -> u64 {
    let corner = series::add(
        series::add(series::add(sum, lifted(x)), lifted(y)),
        lifted(z),
    );
    series::add(series::add(corner, u64::from(level)), u64::from(value))
}

fn show_record(
    out: &mut impl Write,
    x: i32,
    y: i32,
    z: i32,
    level: u32,
    value: u32,
) -> io::Result<()> {
    show::tag(out, b'|')?;
    show::signed32(out, x)?;
    show::signed32(out, y)?;
    show::signed32(out, z)?;
    show::small(out, level)?;
    show::pattern(out, value)
}

// The sum with one record more, which is shown if that is asked for.
fn take_record(
    out: &mut impl Write,
    shown: bool,
    sum: u64,
    x: i32,
    y: i32,
    z: i32,
    level: u32,
    value: u32,
) -> io::Result<u64> {
    if shown {
        show_record(out, x, y, z, level, value)?;
    }
    Ok(add_record(sum, x, y, z, level, value))
}

// The sum with the records in the first slots.
fn take_records(
    out: &mut impl Write,
    shown: bool,
    sum: u64,
    x: &[i32; 1024],
    y: &[i32; 1024],
    z: &[i32; 1024],
    level: &[u32; 1024],
    value: &[u32; 1024],
    filled: usize,
) -> io::Result<u64> {
    let mut after = sum;
    for i in 0..filled % 1025 {
        after = take_record(out, shown, after, x[i], y[i], z[i], level[i], value[i])?;
    }
    Ok(after)
}

// A slot as it is before each call.
fn is_untouched(x: i32, y: i32, z: i32, level: u32, value: u32) -> bool {
    x == 71 && y == 72 && z == 73 && level == 74 && value == 75
}

// The slots behind the filled ones are as they were.
fn keeps(
    x: &[i32; 1024],
    y: &[i32; 1024],
    z: &[i32; 1024],
    level: &[u32; 1024],
    value: &[u32; 1024],
    filled: usize,
) -> bool {
    for i in filled..1024 {
        if !is_untouched(x[i], y[i], z[i], level[i], value[i]) {
            return false;
        }
    }
    true
}

// What a call did that was not refused, or that was.
fn walked(w: Walked, kept: bool, sum: u64) -> Called {
    Called {
        place: w.place,
        refusal: None,
        filled: w.filled as u64,
        left: w.left,
        kept,
        sum,
    }
}

fn refused(place: Place, e: ParseError, kept: bool, sum: u64) -> Called {
    Called {
        place,
        refusal: Some(e),
        filled: 0,
        left: place.left,
        kept,
        sum,
    }
}

// How many slots are lent: 1,000 at most.
pub fn slots(k: u64) -> usize
    ensures { result ≤ 1000 }
{
    k as usize % 1001
}

// A call with so many slots: one of the five slices has as many, the others up to four more, by the turn.
pub fn call(
    out: &mut impl Write,
    s: &[u8],
    place: Place,
    k: u64,
    turn: usize,
    shown: bool,
    sum: u64,
) -> io::Result<Called> {
    let mut x = [71i32; 1024];
    let mut y = [72i32; 1024];
    let mut z = [73i32; 1024];
    let mut level = [74u32; 1024];
    let mut value = [75u32; 1024];
    let m = slots(k);
    let t = turn % 5;
    let a = m + t;
    let b = m + (t + 1) % 5;
    let c = m + (t + 2) % 5;
    let d = m + (t + 3) % 5;
    let e = m + (t + 4) % 5;
    let answer = walk::walk(
        s,
        place,
        &mut x[0..a],
        &mut y[0..b],
        &mut z[0..c],
        &mut level[0..d],
        &mut value[0..e],
    );
    match answer {
        Ok(w) => {
            let kept = keeps(&x, &y, &z, &level, &value, w.filled);
            let after = take_records(out, shown, sum, &x, &y, &z, &level, &value, w.filled)?;
            Ok(walked(w, kept, after))
        }
        Err(e) => {
            let kept = keeps(&x, &y, &z, &level, &value, 0);
            Ok(refused(place, e, kept, sum))
        }
    }
}
