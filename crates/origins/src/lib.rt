// Section 6 of document 01: the origins of a run of leaves, with one opening of the grid.
#![tactic(auto)]

ghost use Rattle.std.specs.Prelude.{◌≡◌, ◌&&◌, ◌-◌, ◌<◌, leb, length, set};
ghost use Rattle.leaves.specs.Answers.{says_fill, KeptBy};
ghost use Rattle.leaves.specs.Inner.{HasLeaves};
ghost use Rattle.origins.specs.Origins.{axes, axes_of, same_lengths, leaf_origins, leaf_origins_named, leaf_origins_numbered};
ghost use Rattle.origins.specs.Inner.{origins_from};

use archive::Asked;
use coordinates::GlobalCoord;
use fields::ParseError;
use place::Start;
use skip::Skipped;

// An origin into slot i of each slice.
fn put_origin(i: usize, o: GlobalCoord, x: &mut [i32], y: &mut [i32], z: &mut [i32])
    requires { (i < length x.old) × (i < length y.old) × (i < length z.old) }
    ensures { axes x.new y.new z.new ≡ axes (set x.old i o.0) (set y.old i o.1) (set z.old i o.2) }
{
    x[i] = o.0;
    y[i] = o.1;
    z[i] = o.2;
}

// Writes the origins of the leaves that a cursor hands out, but for the first ones. No tree has as many records as may be passed between two leaves, so
// that only a leaf ends a pass.
fn origins_run(s: &[u8], start: Start, first: u64, x: &mut [i32], y: &mut [i32], z: &mut [i32])
    requires { HasLeaves s.now start first (length x.old) × (length x.old ≡ length y.old) × (length x.old ≡ length z.old) }
    ensures { axes x.new y.new z.new ≡ axes_of (origins_from s.now start first (length x.old)) }
{
    let mut cursor = cursor::between_roots(start.root_count, start.roots_pos, start.block_pos);
    let mut pass = first;
    for i in 0..x.len() {
        let (piece, behind) = match skip::skip(s, start.coding, cursor, u64::MAX, pass) {
            Ok(Skipped::Before { piece, behind, .. }) => (piece, behind),
            Ok(Skipped::End { .. }) => unreachable!(),
            Err(_) => unreachable!(),
        };
        put_origin(i, piece.origin, x, y, z);
        cursor = behind;
        pass = 0;
    }
}

// Whether three lengths are the same, and as many leaves are there from one on.
fn fits(nx: usize, ny: usize, nz: usize, count: u64, first: u64) -> bool
    ensures { result ≡ (same_lengths nx ny nz && leb nx (count - first)) }
{
    nx == ny && nx == nz && leaves::has_run(count, first, nx)
}

// Writes the origins of the leaves from a number on of the grid that is asked for, as many as the slices are long. A refused call leaves these as they
// were.
fn origins_asked(
    s: &[u8],
    asked: Asked,
    name: &[u8],
    first: u64,
    x: &mut [i32],
    y: &mut [i32],
    z: &mut [i32],
) -> Result<(), ParseError>
    ensures { (says_fill result (axes x.new y.new z.new) ≡ leaf_origins s.now asked name.now first (length x.old) (length y.old) (length z.old)) × KeptBy result (axes x.old y.old z.old) (axes x.new y.new z.new) }
{
    let g = grid::open_grid(s, asked, name)?;
    if !fits(x.len(), y.len(), z.len(), g.leaf_count, first) {
        return Err(ParseError::NoSuchLeaf);
    }
    origins_run(s, g.place.start, first, x, y, z);
    Ok(())
}

// Writes the origins of the leaves from a number on, in topology order, of the grid of this name.
pub fn origins_named(
    s: &[u8],
    name: &[u8],
    first: u64,
    x: &mut [i32],
    y: &mut [i32],
    z: &mut [i32],
) -> Result<(), ParseError>
    ensures { (says_fill result (axes x.new y.new z.new) ≡ leaf_origins_named s.now name.now first (length x.old) (length y.old) (length z.old)) × KeptBy result (axes x.old y.old z.old) (axes x.new y.new z.new) }
{
    origins_asked(s, Asked::ByName, name, first, x, y, z)
}

// The same for the grid with this number, from 0.
pub fn origins_numbered(
    s: &[u8],
    n: u32,
    first: u64,
    x: &mut [i32],
    y: &mut [i32],
    z: &mut [i32],
) -> Result<(), ParseError>
    ensures { (says_fill result (axes x.new y.new z.new) ≡ leaf_origins_numbered s.now n first (length x.old) (length y.old) (length z.old)) × KeptBy result (axes x.old y.old z.old) (axes x.new y.new z.new) }
{
    origins_asked(s, Asked::ByNumber(n), b"", first, x, y, z)
}
