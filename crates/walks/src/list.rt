// What `listing` and `rowlist` have in common: the records of a file's first grid, a line each. How slots are lent for them is their own.
ghost use Rattle.std.specs.Prelude.{◌≤◌};

use asking::{line, show};
use fields::ParseError;
use place::Place;
use std::io::{self, Read, Write};
use walk::Walked;

fn refused(out: &mut impl Write, e: ParseError) -> io::Result<()> {
    show::text(out, b"refused")?;
    show::small(out, u32::from(e))?;
    show::letter(out, b'\n')
}

pub fn record(
    out: &mut impl Write,
    x: i32,
    y: i32,
    z: i32,
    level: u32,
    value: u32,
) -> io::Result<()> {
    show::plain32(out, x)?;
    show::signed32(out, y)?;
    show::signed32(out, z)?;
    show::small(out, level)?;
    show::pattern(out, value)?;
    show::letter(out, b'\n')
}

// All records, portion by portion. Each portion but the last fills its slots, so there are at most so many of them; the loop is bounded by that number
// to show that it ends.
fn list<W: Write, F: Fn(&mut W, &[u8], Place) -> io::Result<Result<Walked, ParseError>>>(
    out: &mut W,
    s: &[u8],
    fresh: Place,
    count: u64,
    slots: u64,
    portion: F,
) -> io::Result<()>
    requires some { 2 ≤ slots }
    requires portions { F.IsAlwaysCallable portion }
{
    let mut p = fresh;
    for _ in 0..count / slots + 1 {
        match portion(out, s, p)? {
            Ok(w) => {
                if w.left == 0 {
                    return Ok(());
                }
                p = w.place;
            }
            Err(e) => return refused(out, e),
        }
    }
    Ok(())
}

// The records of the first grid. The portion's function lends so many slots, shows the records that the call put into them, and hands back its answer.
pub fn grid<W: Write, F: Fn(&mut W, &[u8], Place) -> io::Result<Result<Walked, ParseError>>>(
    out: &mut W,
    s: &[u8],
    slots: u64,
    portion: F,
) -> io::Result<()>
    requires some { 2 ≤ slots }
    requires portions { F.IsAlwaysCallable portion }
{
    match grid::open_grid_numbered(s, 0) {
        Ok(g) => {
            show::text(out, b"records")?;
            show::number(out, g.active_count)?;
            show::letter(out, b'\n')?;
            list(out, s, g.place, g.active_count, slots, portion)
        }
        Err(e) => refused(out, e),
    }
}

// The file that is read is listed. One byte more than a file may have is room enough to see that it is too long.
pub fn run<W: Write, F: FnOnce(&mut W, &[u8]) -> io::Result<()>>(
    from: &mut impl Read,
    out: &mut W,
    listed: F,
) -> io::Result<()>
    requires { F.IsAlwaysCallable listed }
{
    let mut t = [0u8; 65537];
    let n = line::filled(from, &mut t)?;
    if n > 65536 {
        show::text(out, b"too long\n")
    } else {
        listed(out, &t[..n])
    }
}
