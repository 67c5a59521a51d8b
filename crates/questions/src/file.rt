// The commands that take a file from elsewhere:
//
//     load: "NAME"            a file of data/
//     keep                    keeps the file
//     again LEN               LEN bytes of the file that was kept
use asking::line;
use line::Line;
use std::rt::Files;
use std::{fs, io};

// A file that cannot be opened has no bytes.
fn load(rt: &impl Files, m: Line, f: &mut [u8; 262144]) -> io::Result<usize> {
    let Ok(path) = str::from_utf8(line::name(m, f)) else {
        return Ok(0);
    };
    let Ok(mut file) = fs::open(rt, path) else {
        return Ok(0);
    };
    line::filled(&mut file, f)
}

fn copy(to: &mut [u8; 262144], from: &[u8; 262144]) {
    *to = *from;
}

// Does what the line says, and hands back the file's length.
pub fn take(
    rt: &impl Files,
    m: Line,
    f: &mut [u8; 262144],
    kept: &mut [u8; 262144],
    n: &[u64; 8],
) -> io::Result<usize> {
    match m.command {
        b'k' => {
            copy(kept, f);
            Ok(m.len)
        }
        b'a' => {
            copy(f, kept);
            Ok(n[1] as usize)
        }
        b'l' => load(rt, m, f),
        _ => Ok(m.len),
    }
}
