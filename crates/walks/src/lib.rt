// The questions of the program `questions` to the walk call, and in list.rt what the programs `listing` and `rowlist` have in common:
//
//     Walk N K1 K2 ..                    all records of grid N, with K1, K2, .. slots a call, over and over; then one call with five slots
//     List N                             the records that one call with 1,000 slots hands out
//     Next LEN N M K                     a call with K slots over this file, from the place after M records of grid N of the first LEN bytes kept
//     Foreign LEN N M K                  how many calls, and how many of them get one of the answers that are free: such a call,
//     Foreign LEN N M K V                such calls from the place with V as its first word, its second word, ..,
//     Foreign LEN N M K FROM TO          such calls over this file cut to each of these lengths
//     Past LEN N M K ..                  as Foreign, but how many get 22 and have all slots as they were
//
// Walk and Next show how many records were handed out, how many are left, whether each slot that had to keep its content did, whether each call
// handed out and reported what it should, whether a second call from the same place gave the same, and the sum of the records; or the refusal, and
// whether all slots are as they were.
#![tactic(auto)]

mod foreign;
mod lend;
pub mod list;
mod words;

use asking::{line, series, show};
use fields::ParseError;
use lend::Called;
use line::Line;
use place::Place;
use std::io::{self, Write};

// A walk, as far as it has come; `kept`, `due` and `same` are whether all calls were so.
#[derive(Clone, Copy)]
struct State {
    place: Place,
    refusal: Option<ParseError>,
    records: u64,
    left: u64,
    kept: bool,
    due: bool,
    same: bool,
    sum: u64,
}

fn start(place: Place, left: u64) -> State {
    State {
        place,
        refusal: None,
        records: 0,
        left,
        kept: true,
        due: true,
        same: true,
        sum: 0,
    }
}

// The smaller of the slots and what was left is handed out, and so many fewer are left.
fn is_due(k: u64, left: u64, c: Called) -> bool {
    let slots = lend::slots(k) as u64;
    if left < slots {
        return c.filled == left && c.left == 0;
    }
    c.filled == slots && c.left.wrapping_add(slots) == left
}

fn is_same(a: Called, b: Called) -> bool {
    a.refusal == b.refusal && a.filled == b.filled && a.left == b.left && a.sum == b.sum
}

// The walk after a call, which was made twice.
fn after(w: State, k: u64, c: Called, again: Called) -> State {
    State {
        place: c.place,
        refusal: c.refusal,
        records: w.records.wrapping_add(c.filled),
        left: c.left,
        kept: w.kept && c.kept && again.kept,
        due: w.due && is_due(k, w.left, c),
        same: w.same && is_same(c, again),
        sum: c.sum,
    }
}

fn step(out: &mut impl Write, s: &[u8], w: State, k: u64, turn: usize) -> io::Result<State> {
    let c = lend::call(out, s, w.place, k, turn, false, w.sum)?;
    let again = lend::call(out, s, w.place, k, turn / 2, false, w.sum)?;
    Ok(after(w, k, c, again))
}

fn show_state(out: &mut impl Write, w: State) -> io::Result<()> {
    if let Some(e) = w.refusal {
        show::refused(out, u32::from(e))?;
        return show::flag(out, w.kept);
    }
    show::number(out, w.records)?;
    show::number(out, w.left)?;
    show::flag(out, w.kept)?;
    show::flag(out, w.due)?;
    show::flag(out, w.same)?;
    series::end(out, w.sum)
}

// The slots of a call, by its number: the portions are the numbers of the line from the second on.
fn portion(n: &[u64; 8], count: usize, turn: usize) -> u64 {
    if count < 2 {
        return 0;
    }
    n[turn % (count - 1) % 6 + 2]
}

// Calls until nothing is left. Where one of the at most six portions is not zero, there are no more turns than this; else nothing is handed out.
fn walk_on(
    out: &mut impl Write,
    s: &[u8],
    first: State,
    n: &[u64; 8],
    count: usize,
) -> io::Result<State> {
    let mut w = first;
    let turns = (first.left % 1000000) as usize * 6 + 6;
    for turn in 0..turns {
        w = step(out, s, w, portion(n, count, turn), turn)?;
        if w.left == 0 || w.refusal.is_some() {
            return Ok(w);
        }
    }
    Ok(w)
}

// A walk, and a call from where it ends.
fn walk_from(
    out: &mut impl Write,
    s: &[u8],
    place: Place,
    left: u64,
    n: &[u64; 8],
    count: usize,
) -> io::Result<()> {
    let end = walk_on(out, s, start(place, left), n, count)?;
    show_state(out, end)?;
    let next = step(out, s, start(end.place, end.left), 5, 0)?;
    show_state(out, next)
}

fn list_from(out: &mut impl Write, s: &[u8], place: Place) -> io::Result<()> {
    let c = lend::call(out, s, place, 1000, 0, true, 0)?;
    match c.refusal {
        Some(e) => show::refused(out, u32::from(e)),
        None => Ok(()),
    }
}

// Questions that begin at the fresh place of a grid of this file.
fn from_here(
    out: &mut impl Write,
    command: u8,
    s: &[u8],
    n: &[u64; 8],
    count: usize,
) -> io::Result<()> {
    show::answer(
        out,
        grid::open_grid_numbered(s, line::low(n[1])),
        |out, g| match command {
            b'W' => walk_from(out, s, g.place, g.active_count, n, count),
            _ => list_from(out, s, g.place),
        },
    )
}

// The place after m records.
fn place_after(out: &mut impl Write, s: &[u8], fresh: Place, m: u64) -> io::Result<Place> {
    let c = lend::call(out, s, fresh, m, 0, false, 0)?;
    Ok(c.place)
}

fn next(out: &mut impl Write, s: &[u8], place: Place, k: u64) -> io::Result<()> {
    let w = step(out, s, start(place, place.left), k, 0)?;
    show_state(out, w)
}

// Questions that begin at a place of the file that was kept.
fn from_kept(
    out: &mut impl Write,
    command: u8,
    s: &[u8],
    kept: &[u8],
    n: &[u64; 8],
    count: usize,
) -> io::Result<()> {
    show::answer(
        out,
        grid::open_grid_numbered(kept, line::low(n[2])),
        |out, g| {
            let place = place_after(out, kept, g.place, n[3])?;
            match command {
                b'N' => next(out, s, place, n[4]),
                _ => foreign::ask(out, command == b'P', count, s, place, n),
            }
        },
    )
}

pub fn ask(
    out: &mut impl Write,
    m: Line,
    f: &[u8; 262144],
    kept: &[u8; 262144],
    n: &[u64; 8],
) -> io::Result<()> {
    let command = m.command;
    match command {
        b'W' | b'L' => from_here(out, command, line::file(m, f), n, m.words),
        b'N' | b'F' | b'P' => from_kept(
            out,
            command,
            line::file(m, f),
            line::cut(kept, n[1] as usize),
            n,
            m.words,
        ),
        _ => Ok(()),
    }
}
