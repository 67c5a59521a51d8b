// A line of the input, read character by character: a word, whose first letter is the command, and numbers; then after a colon bytes, as pairs
// of hexadecimal digits or in quotes. A comma ends a grid's name. A line that begins with # is a comment.
ghost use Rattle.std.specs.Prelude.{◌%◌, ◌≡◌, ◌≤◌, IfOk, length};

use crate::{file, show};
use fields::Span;
use std::io::{self, Read, Write};

// Where in its line a character stands.
#[derive(Clone, Copy, PartialEq, Eq)]
pub enum Part {
    Words,
    // behind the colon
    Bytes,
    // behind the colon, in quotes
    Quoted,
}

#[derive(Clone, Copy)]
pub struct Line {
    // the first character; 0 before it
    pub command: u8,
    // how many words are whole
    pub words: usize,
    pub part: Part,
    // how many bytes stand before the comma
    pub grid: usize,
    // where the bytes behind it go, and how many half bytes of them are read
    pub start: usize,
    pub halves: usize,
    // the file's length
    pub len: usize,
}

pub fn empty(len: usize) -> Line {
    Line {
        command: 0,
        words: 0,
        part: Part::Words,
        grid: 0,
        start: 0,
        halves: 0,
        len,
    }
}

// Reads until t is full or what is read from ends, and hands back how many bytes there are. A read gives one byte at least, or there are no more.
pub fn filled(from: &mut impl Read, t: &mut [u8]) -> io::Result<usize>
    ensures { IfOk result (λ n. n ≤ length t.new) }
{
    let mut len = 0;
    for _ in 0..t.len() {
        let n = from.read(&mut t[len..])?;
        if n == 0 {
            break;
        }
        len += n;
        if len == t.len() {
            break;
        }
    }
    Ok(len)
}

// The whole input, and its length.
pub fn input(from: &mut impl Read, t: &mut [u8; 524288]) -> io::Result<usize>
    ensures { IfOk result (λ n. n ≤ 524288) }
{
    filled(from, t)
}

fn bytes_from(f: &[u8; 262144], start: usize, len: usize) -> &[u8] {
    fields::bytes_of(f, Span { start, len })
}

// The first bytes of a file.
pub fn cut(s: &[u8], len: usize) -> &[u8] {
    fields::bytes_of(s, Span { start: 0, len })
}

// The lowest 32 bits of a number.
pub fn low(n: u64) -> u32
    ensures { result ≡ n % 4294967296 }
{
    (n % 4294967296) as u32
}

// The file.
pub fn file(m: Line, f: &[u8; 262144]) -> &[u8] {
    bytes_from(f, 0, m.len)
}

// The bytes before the comma.
pub fn grid(m: Line, f: &[u8; 262144]) -> &[u8] {
    bytes_from(f, 200000, m.grid)
}

// The bytes after the colon, or after the comma.
pub fn name(m: Line, f: &[u8; 262144]) -> &[u8] {
    bytes_from(f, m.start, m.halves / 2)
}

fn digit(n: &mut [u64; 8], words: usize, c: u8) {
    let k = words % 8;
    n[k] = (n[k] % 1844674407370955162 * 10).wrapping_add(u64::from(c % 16));
}

// The bytes of the command `bytes` go into the file, those of the others behind all files.
fn colon(mut m: Line, at: u64) -> Line {
    m.part = Part::Bytes;
    m.start = if m.command == b'b' {
        at as usize % 262144
    } else {
        200000
    };
    m
}

fn comma(mut m: Line) -> Line {
    m.grid = m.halves / 2 % 262144;
    m.start = 200000 + m.grid;
    m.halves = 0;
    m
}

fn letter(mut m: Line, c: u8) -> Line {
    if m.command == 0 {
        m.command = c;
    }
    m
}

fn space(mut m: Line) -> Line {
    m.words = m.words % 8 + 1;
    m
}

fn quote(mut m: Line, part: Part) -> Line {
    m.part = part;
    m
}

// Half a byte goes into its byte from the right.
fn half(mut m: Line, d: u8, f: &mut [u8; 262144]) -> Line {
    let at = (m.start % 262144 + m.halves / 2) % 262144;
    f[at] = f[at] % 16 * 16 + d % 16;
    m.halves = m.halves % 262144 + 1;
    m
}

fn number(m: Line, c: u8, n: &mut [u64; 8]) -> Line {
    match c {
        b'0'..=b'9' => {
            digit(n, m.words, c);
            m
        }
        b' ' => space(m),
        b':' => colon(m, n[1]),
        _ => letter(m, c),
    }
}

fn byte(m: Line, c: u8, f: &mut [u8; 262144]) -> Line {
    match c {
        b'0'..=b'9' => half(m, c, f),
        b'a'..=b'f' => half(m, c + 9, f),
        b',' => comma(m),
        b'"' => quote(m, Part::Quoted),
        _ => m,
    }
}

fn quoted(m: Line, c: u8, f: &mut [u8; 262144]) -> Line {
    if c == b'"' {
        return quote(m, Part::Bytes);
    }
    half(half(m, c / 16, f), c, f)
}

// A character of the line, which is written again.
pub fn read(
    out: &mut impl Write,
    m: Line,
    c: u8,
    f: &mut [u8; 262144],
    n: &mut [u64; 8],
) -> io::Result<Line> {
    show::letter(out, c)?;
    Ok(match m.part {
        Part::Words => number(m, c, n),
        Part::Bytes => byte(m, c, f),
        Part::Quoted => quoted(m, c, f),
    })
}

// The end of a line, whose answer is written: a command that builds the file is done, and the next line begins.
pub fn end(
    out: &mut impl Write,
    command: u8,
    len: usize,
    f: &mut [u8; 262144],
    n: &mut [u64; 8],
) -> io::Result<Line> {
    show::letter(out, b'\n')?;
    let after = file::build(command, len, f, n);
    *n = [0u64; 8];
    Ok(empty(after))
}

// Writes each line of the input again with its answer behind it. The answer's function hands back the file's length.
pub fn run<W: Write, F: FnMut(&mut W, Line, &mut [u8; 262144], &[u64; 8]) -> io::Result<usize>>(
    out: &mut W,
    t: &[u8],
    f: &mut [u8; 262144],
    mut answer: F,
) -> io::Result<()>
    requires { F.IsAlwaysCallable answer }
{
    let mut m = empty(0);
    let mut n = [0u64; 8];
    for c in t {
        if *c == b'\n' {
            let len = answer(out, m, f, &n)?;
            m = end(out, m.command, len, f, &mut n)?;
        } else {
            m = read(out, m, *c, f, &mut n)?;
        }
    }
    Ok(())
}
