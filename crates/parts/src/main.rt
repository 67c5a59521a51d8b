// Answers questions about the parts of the library, a line of the input each, and writes each line again with its answer behind it. The
// language stands in asking/src/line.rt and asking/src/file.rt, and in layers.rt. The questions and what must be written come from
// tools/questions.
#![tactic(auto)]

mod layers;

use asking::line;
use std::io;

fn main(rt: HostRuntime) -> io::Result<()> {
    let mut t = [0u8; 524288];
    let mut f = [0u8; 262144];
    let len = line::input(&mut rt.reader(), &mut t)?;
    line::run(&mut io::writer(&rt), &t[..len], &mut f, |out, m, f, n| {
        layers::ask(out, m.command, line::file(m, f), n)?;
        Ok(m.len)
    })
}
