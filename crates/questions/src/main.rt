// Answers questions about files, a line of the input each, and writes each line again with its answer behind it. The language stands in
// asking/src/line.rt and asking/src/file.rt, in file.rt, calls.rt and corners.rt, and in walks/src/lib.rt. The questions and what must be written come from tools/questions.
#![tactic(auto)]

mod calls;
mod corners;
mod file;
mod series;

use asking::line;
use std::io;

fn main(rt: HostRuntime) -> io::Result<()> {
    let mut t = [0u8; 524288];
    let mut f = [0u8; 262144];
    let mut kept = [0u8; 262144];
    let len = line::input(&mut rt.reader(), &mut t)?;
    line::run(&mut io::writer(&rt), &t[..len], &mut f, |out, m, f, n| {
        calls::ask(out, m, f, n)?;
        walks::ask(out, m, f, &kept, n)?;
        file::take(&rt, m, f, &mut kept, n)
    })
}
