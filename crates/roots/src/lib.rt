// Document 01, section 4: what stands before a tree's roots, and a root's origin.
#![tactic(auto)]

ghost use Rattle.std.specs.Prelude.{◌≡◌, not, ◌&&◌};
ghost use Rattle.fields.specs.Inner.{says_end};
ghost use Rattle.fields.specs.Says.{says};
ghost use Rattle.coordinates.specs.Coordinates.{aligned};
ghost use Rattle.roots.specs.Roots.{is_among, origin_field, tiles_field, tree_head_field};

use coordinates::GlobalCoord;
use fields::{Field, ParseError};

// What stands before the roots: the background's pattern, where the root tiles stand and how many there are, where the roots stand and how many
// there are.
#[derive(Clone, Copy)]
pub struct TreeHead {
    pub background: u32,
    pub tiles_pos: usize,
    pub tile_count: u32,
    pub roots_pos: usize,
    pub root_count: u32,
}

// Root tiles are passed by one length, as none is looked at; where there is none, nothing has to lie in the file.
fn read_tiles(s: &[u8], count: u32, at: usize) -> Result<usize, ParseError>
    ensures { says_end result ≡ tiles_field s.now count at }
{
    if count == 0 {
        return Ok(at);
    }
    let (_, n) = fields::read_bytes(s, at, 17 * (count as usize))?;
    Ok(n)
}

pub fn read_tree_head(s: &[u8], limit: u32, at: usize) -> Field<TreeHead>
    ensures { says result ≡ tree_head_field s.now limit at }
{
    let (buffers, p) = fields::read_u32(s, at)?;
    if buffers != 1 {
        return Err(ParseError::InvalidBufferCount);
    }
    let (background, q) = fields::read_u32(s, p)?;
    let (tile_count, r) = fields::read_u32(s, q)?;
    let (root_count, tiles_pos) = fields::read_u32(s, r)?;
    if limit < root_count {
        return Err(ParseError::TooManyRoots);
    }
    let roots_pos = read_tiles(s, tile_count, tiles_pos)?;
    let head = TreeHead {
        background,
        tiles_pos,
        tile_count,
        roots_pos,
        root_count,
    };
    Ok((head, roots_pos))
}

// Whether one of these origins is this one.
fn is_among(origins: &[GlobalCoord], o: GlobalCoord) -> bool
    ensures { result ≡ is_among o origins.now }
{
    for &e in origins {
        if coordinates::same_coord(e, o) {
            return true;
        }
    }
    false
}

// Whether an origin may stand after these: its coordinates are multiples of 4096, and none of the others is it.
fn is_new_origin(origins: &[GlobalCoord], o: GlobalCoord) -> bool
    ensures { result ≡ (aligned 4096 o && not (is_among o origins.now)) }
{
    coordinates::is_aligned(o, 4096) && !is_among(origins, o)
}

// A root's origin, after these others.
pub fn read_origin(s: &[u8], origins: &[GlobalCoord], at: usize) -> Field<GlobalCoord>
    ensures { says result ≡ origin_field s.now origins.now at }
{
    let (v, p) = fields::read_i_vec3(s, at)?;
    let o = coordinates::origin_of(v);
    if !is_new_origin(origins, o) {
        return Err(ParseError::InvalidRootOrigin);
    }
    Ok((o, p))
}
