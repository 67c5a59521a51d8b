// The two forms with a struct behind a reference at work: the header's version and library numbers, read by a reader; then the records of the first
// grid, a line each, as `listing` prints them, walked into a row of record structs. The row has 100 slots, so that a call takes several portions of
// the core's, and the last of these is no full one.
#![tactic(auto)]

ghost use Rattle.std.specs.Prelude.{◌≤◌, replicate};
ghost use Rattle.walk.specs.Walk.{Promise};
ghost use Rattle.rows.specs.Rows.{columns};
ghost use Rattle.rowlist.specs.Inner.{none};

use asking::show;
use fields::ParseError;
use place::Place;
use rows::Record;
use std::io::{self, Write};
use walk::Walked;
use walks::list;

// A row, and the answer of the call that filled it.
#[derive(Drop)]
struct Row {
    slots: [Record; 100],
    answer: Result<Walked, ParseError>,
}

// Lends a row of empty slots. Whoever calls this sees no reference to a struct.
fn filled_row(s: &[u8], p: Place) -> Row
    ensures { Promise s.now p (columns (replicate 100 none)) result.answer (columns result.slots) }
{
    let none = Record {
        x: 0,
        y: 0,
        z: 0,
        level: 0,
        value: 0,
    };
    let mut slots = [none; 100];
    let answer = rows::walk_records(s, p, &mut slots);
    Row { slots, answer }
}

// The records in the first slots.
fn records(out: &mut impl Write, slots: [Record; 100], filled: usize) -> io::Result<()>
    requires { filled ≤ 100 }
{
    for i in 0..filled {
        let r = slots[i];
        list::record(out, r.x, r.y, r.z, r.level, r.value)?;
    }
    Ok(())
}

// The records that follow a place, as many as there are slots for.
fn portion(out: &mut impl Write, s: &[u8], p: Place) -> io::Result<Result<Walked, ParseError>> {
    let row = filled_row(s, p);
    if let Ok(w) = row.answer {
        records(out, row.slots, w.filled)?;
    }
    Ok(row.answer)
}

// They stand behind the eight bytes of the magic.
fn versions(out: &mut impl Write, s: &[u8]) -> io::Result<()> {
    let Ok((v, _)) = reader::read_versions(s, 8) else {
        return Ok(());
    };
    show::text(out, b"version")?;
    show::small(out, v.file_version)?;
    show::small(out, v.library_version_major)?;
    show::small(out, v.library_version_minor)?;
    show::letter(out, b'\n')
}

fn main(rt: HostRuntime) -> io::Result<()> {
    list::run(&mut rt.reader(), &mut io::writer(&rt), |out, s| {
        versions(out, s)?;
        list::grid(out, s, 100, |out, s, p| portion(out, s, p))
    })
}
