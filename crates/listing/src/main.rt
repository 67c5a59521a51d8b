// Lists the records of a file's first grid, a line each: document 01, section 9. The file is read from standard input. All that matters is in the
// library; this program lends it slots and prints what it answers.
#![tactic(auto)]

ghost use Rattle.std.specs.Prelude.{◌≤◌};

use fields::ParseError;
use place::Place;
use std::io::{self, Write};
use walk::Walked;
use walks::list;

// The records in the first slots.
fn records(
    out: &mut impl Write,
    x: &[i32; 64],
    y: &[i32; 64],
    z: &[i32; 64],
    level: &[u32; 64],
    value: &[u32; 64],
    filled: usize,
) -> io::Result<()>
    requires { filled ≤ 64 }
{
    for i in 0..filled {
        list::record(out, x[i], y[i], z[i], level[i], value[i])?;
    }
    Ok(())
}

// The records that follow a place, as many as there are slots for.
fn portion(out: &mut impl Write, s: &[u8], p: Place) -> io::Result<Result<Walked, ParseError>> {
    let mut x = [0i32; 64];
    let mut y = [0i32; 64];
    let mut z = [0i32; 64];
    let mut level = [0u32; 64];
    let mut value = [0u32; 64];
    let answer = walk::walk(s, p, &mut x, &mut y, &mut z, &mut level, &mut value);
    if let Ok(w) = answer {
        records(out, &x, &y, &z, &level, &value, w.filled)?;
    }
    Ok(answer)
}

fn main(rt: HostRuntime) -> io::Result<()> {
    list::run(&mut rt.reader(), &mut io::writer(&rt), |out, s| {
        list::grid(out, s, 64, |out, s, p| portion(out, s, p))
    })
}
