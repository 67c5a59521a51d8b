// The questions to the fourteen calls, but those for origins, which stand in corners.rt:
//
//     header                                                 the file
//     descriptor N, descriptor: NAME                         the descriptor of a grid
//     entry: NAME                                            an entry of the file's metadata
//     metadata N: NAME, metadata: GRID, NAME                 an entry of a grid's metadata
//     open N, open: NAME                                     a grid
//     fill LEAF SLOTS N, fill LEAF SLOTS: NAME               a leaf's values, and their sum
//     values LEAF SLOTS N, values LEAF SLOTS: NAME           the same, with the values themselves
//     joined LEAF SLOTS N, joined LEAF SLOTS: NAME           the values of the leaves from this one on, and their sum
//     cuts FROM TO, trims FROM TO                            the refusals of grid 0, or of the file, cut to each of these lengths
//
// and to the layer of the transforms, whose map is shown as that of a grid:
//
//     Transform AT
use crate::{corners, series};
use asking::{line, show};
use descriptor::GridDescriptor;
use fields::{DVec3, ParseError};
use grid::OpenedGrid;
use line::Line;
use metadata::MetadataValue;
use std::io::{self, Write};
use transform::Map;

fn header(out: &mut impl Write, s: &[u8]) -> io::Result<()> {
    show::answer(out, answers::open_file(s), |out, h| {
        show::small(out, h.file_version)?;
        show::small(out, h.library_version_major)?;
        show::small(out, h.library_version_minor)?;
        show::flag(out, h.packed)?;
        show::size(out, h.meta_pos)?;
        show::small(out, h.grid_count)?;
        show::span(out, s, h.guid)
    })
}

fn descriptor(
    out: &mut impl Write,
    a: Result<GridDescriptor, ParseError>,
    s: &[u8],
) -> io::Result<()> {
    show::answer(out, a, |out, d| {
        show::span(out, s, d.name)?;
        show::span(out, s, d.grid_type)?;
        show::span(out, s, d.instance_parent)?;
        show::size(out, d.grid_pos)?;
        show::size(out, d.block_pos)?;
        show::size(out, d.end_pos)?;
        show::small(out, d.compression)?;
        show::size(out, grid::width_of(d.half, d.kind))?;
        show::size(out, d.meta_pos)?;
        show::size(out, d.tree_pos)
    })
}

// A value behind its kind, which is shown by a letter.
fn value(out: &mut impl Write, v: MetadataValue, s: &[u8]) -> io::Result<()> {
    show::tag(out, kind(&v))?;
    match v {
        MetadataValue::String(w) => show::span(out, s, w),
        MetadataValue::Bool(b) => show::flag(out, b),
        MetadataValue::I32(n) => show::signed32(out, n),
        MetadataValue::I64(n) => show::signed(out, n),
        MetadataValue::Float(n) => show::pattern(out, n),
        MetadataValue::Vec3i(v) => show::i_vec3(out, v),
        MetadataValue::Unknown(k, w) => {
            show::span(out, s, k)?;
            show::span(out, s, w)
        }
    }
}

fn kind(v: &MetadataValue) -> u8 {
    match v {
        MetadataValue::String(_) => b's',
        MetadataValue::Bool(_) => b'b',
        MetadataValue::I32(_) => b'i',
        MetadataValue::I64(_) => b'l',
        MetadataValue::Float(_) => b'f',
        MetadataValue::Vec3i(_) => b'v',
        MetadataValue::Unknown(_, _) => b'o',
    }
}

fn entry(out: &mut impl Write, a: Result<MetadataValue, ParseError>, s: &[u8]) -> io::Result<()> {
    show::answer(out, a, |out, v| value(out, v, s))
}

fn vectors(out: &mut impl Write, row: &[DVec3]) -> io::Result<()> {
    for v in row {
        show::d_vec3(out, *v)?;
    }
    Ok(())
}

// The map and its vectors in the order of the struct.
fn map(out: &mut impl Write, m: Map) -> io::Result<()> {
    match m {
        Map::UniformScaleMap(v) => {
            show::tag(out, b's')?;
            vectors(
                out,
                &[
                    v.scale_values,
                    v.voxel_size,
                    v.scale_values_inverse,
                    v.inv_scale_sqr,
                    v.inv_twice_scale,
                ],
            )
        }
        Map::ScaleTranslateMap(v) => {
            show::tag(out, b't')?;
            vectors(
                out,
                &[
                    v.translation,
                    v.scale_values,
                    v.voxel_size,
                    v.scale_values_inverse,
                    v.inv_scale_sqr,
                    v.inv_twice_scale,
                ],
            )
        }
    }
}

fn transform(out: &mut impl Write, s: &[u8], at: usize) -> io::Result<()> {
    show::answer(out, transform::read_transform(s, at), |out, (m, p)| {
        map(out, m)?;
        show::size(out, p)
    })
}

fn open(out: &mut impl Write, a: Result<OpenedGrid, ParseError>) -> io::Result<()> {
    show::answer(out, a, |out, g| {
        map(out, g.transform)?;
        show::pattern(out, g.background)?;
        show::small(out, g.place.start.root_count)?;
        show::number(out, g.leaf_count)?;
        show::number(out, g.active_count)
    })
}

// The number of the check that refused; 0 where none did.
fn refusal<T: Drop>(a: Result<T, ParseError>) -> u64 {
    match a {
        Ok(_) => 0,
        Err(e) => u64::from(u32::from(e)),
    }
}

// The values of one leaf, or of the leaves from this one on, of the grid with this number or this name.
fn fill(
    joined: bool,
    numbered: bool,
    s: &[u8],
    name: &[u8],
    grid: u32,
    leaf: u64,
    slots: &mut [u32],
) -> Result<(), ParseError> {
    match (joined, numbered) {
        (false, false) => leaves::fill_leaf_named(s, name, leaf, slots),
        (false, true) => leaves::fill_leaf_numbered(s, grid, leaf, slots),
        (true, false) => leaves::fill_leaves_named(s, name, leaf, slots),
        (true, true) => leaves::fill_leaves_numbered(s, grid, leaf, slots),
    }
}

// The values into the first slots. More than there are get no answer of the library, and a refusal that is no check's.
fn ask_fill(
    out: &mut impl Write,
    command: u8,
    words: usize,
    s: &[u8],
    name: &[u8],
    n: &[u64; 8],
) -> io::Result<()> {
    let mut slots = [7u32; 1600];
    let count = n[2] as usize;
    if 1600 < count {
        show::refused(out, 0)?;
    } else {
        let lent = &mut slots[..count];
        let answer = fill(
            command == b'j',
            words == 3,
            s,
            name,
            line::low(n[3]),
            n[1],
            lent,
        );
        show::answer(out, answer, |out, _| show::tag(out, b'f'))?;
    }
    let item = |i: usize| u64::from(slots[i % 1600]);
    match command {
        b'v' => series::changes(out, 0, 1600, item, |out, x| show::wide(out, x)),
        _ => asking::series::row(out, 0, 1600, item),
    }
}

// Questions to a grid by its number.
fn ask_numbered(
    out: &mut impl Write,
    command: u8,
    s: &[u8],
    k: u32,
    name: &[u8],
) -> io::Result<()> {
    match command {
        b'd' => descriptor(out, answers::grid_numbered(s, k), s),
        b'm' => entry(out, answers::grid_entry_numbered(s, k, name), s),
        _ => open(out, grid::open_grid_numbered(s, k)),
    }
}

// Questions to a grid by its name.
fn ask_named(
    out: &mut impl Write,
    command: u8,
    s: &[u8],
    grid: &[u8],
    name: &[u8],
) -> io::Result<()> {
    match command {
        b'd' => descriptor(out, answers::grid_named(s, name), s),
        b'm' => entry(out, answers::grid_entry_named(s, grid, name), s),
        _ => open(out, grid::open_grid_named(s, name)),
    }
}

fn ask_command(
    out: &mut impl Write,
    command: u8,
    words: usize,
    s: &[u8],
    grid: &[u8],
    name: &[u8],
    n: &[u64; 8],
) -> io::Result<()> {
    let from = n[1] as usize;
    let to = n[2] as usize;
    match command {
        b'h' => header(out, s),
        b'e' => entry(out, answers::file_entry(s, name), s),
        b'd' | b'm' | b'o' if words == 1 => ask_numbered(out, command, s, line::low(n[1]), name),
        b'd' | b'm' | b'o' => ask_named(out, command, s, grid, name),
        b'f' | b'v' | b'j' => ask_fill(out, command, words, s, name, n),
        b'c' => series::changes(
            out,
            from,
            to,
            |i| refusal(grid::open_grid_numbered(line::cut(s, i), 0)),
            |out, x| show::number(out, x),
        ),
        b't' => series::changes(
            out,
            from,
            to,
            |i| refusal(answers::open_file(line::cut(s, i))),
            |out, x| show::number(out, x),
        ),
        b'O' => corners::ask(out, words, s, name, n),
        b'T' => transform(out, s, from),
        _ => Ok(()),
    }
}

pub fn ask(out: &mut impl Write, m: Line, f: &[u8; 262144], n: &[u64; 8]) -> io::Result<()> {
    ask_command(
        out,
        m.command,
        m.words,
        line::file(m, f),
        line::grid(m, f),
        line::name(m, f),
        n,
    )
}
