// Document 01, sections 4 and 6: a node's masks and stored values, and a leaf's block.
#![tactic(auto)]

ghost use Rattle.std.specs.Prelude.{◌≡◌, ◌≤◌, ◌%◌};
ghost use Rattle.fields.specs.Inner.{end_of, says_end};
ghost use Rattle.fields.specs.Says.{says};
ghost use Rattle.half.specs.Inner.{IsWidth};
ghost use Rattle.masks.specs.Masks.{mask_bit, count_below};
ghost use Rattle.masks.specs.Inner.{IsMask};
ghost use Rattle.nodes.specs.Nodes.{node_field, old_field, block_field};
ghost use Rattle.nodes.specs.Inner.{block_head};

use coordinates::GlobalCoord;
use fields::{Field, ParseError};
use forms::{Coding, Stored};
use runs::Values;

// Where a node's masks stand, and its values.
#[derive(Drop)]
pub struct NodeHeader {
    pub child: usize,
    pub value: usize,
    pub values: Values,
}

// A leaf of the topology: its origin, and where its value mask stands.
#[derive(Clone, Copy)]
pub struct Leaf {
    pub origin: GlobalCoord,
    pub mask: usize,
}

// A leaf's block: its origin, where its value mask stands in the block, and its values.
#[derive(Drop)]
pub struct Block {
    pub origin: GlobalCoord,
    pub mask: usize,
    pub values: Values,
}

// A node whose masks have n bytes each.
pub fn read_node_header(s: &[u8], c: Coding, n: usize, at: usize) -> Field<NodeHeader>
    requires { (n % 8 ≡ 0) × (n ≤ 4096) × IsWidth c.width }
    ensures { says result ≡ node_field s.now c n at }
{
    let (child_mask, p) = fields::read_bytes(s, at, n)?;
    let (value_mask, q) = fields::read_bytes(s, p, n)?;
    let child = child_mask.start;
    let value = value_mask.start;
    if masks::masks_overlap(s, child, value, n) {
        return Err(ParseError::ChildAndValue);
    }
    let (values, r) = runs::read_values(s, c, Stored::Childless, n, child, value, q)?;
    let header = NodeHeader {
        child,
        value,
        values,
    };
    Ok((header, r))
}

// What a block has between its mask and its values under 222: its leaf's origin and a count of buffers.
fn read_old(s: &[u8], version: u32, origin: GlobalCoord, at: usize) -> Result<usize, ParseError>
    ensures { says_end result ≡ old_field s.now version origin at }
{
    if 222 <= version {
        return Ok(at);
    }
    let (v, p) = fields::read_i_vec3(s, at)?;
    if !coordinates::same_coord(coordinates::origin_of(v), origin) {
        return Err(ParseError::InvalidLeafBlock);
    }
    let (buffers, q) = fields::read_u8(s, p)?;
    if buffers != 1 {
        return Err(ParseError::InvalidLeafBlock);
    }
    Ok(q)
}

// A leaf's block up to its values: its mask, which has to be the topology's, and what stands there under 222. The callers have tested that the
// topology's mask lies in the file.
fn read_block_head(s: &[u8], version: u32, leaf: Leaf, at: usize) -> Result<usize, ParseError>
    requires { IsMask s.now leaf.mask 64 }
    ensures { says_end result ≡ block_head s.now version leaf at }
{
    let (block_mask, p) = fields::read_bytes(s, at, 64)?;
    if !masks::masks_equal(s, block_mask.start, leaf.mask, 64) {
        return Err(ParseError::InvalidLeafBlock);
    }
    read_old(s, version, leaf.origin, p)
}

// The block of a leaf.
pub fn read_block(s: &[u8], c: Coding, leaf: Leaf, at: usize) -> Field<Block>
    requires { IsMask s.now leaf.mask 64 × IsWidth c.width }
    ensures { says result ≡ block_field s.now c leaf at }
{
    let p = read_block_head(s, c.version, leaf, at)?;
    let (values, q) = runs::read_values(s, c, Stored::Every, 64, at, at, p)?;
    let block = Block {
        origin: leaf.origin,
        mask: at,
        values,
    };
    Ok((block, q))
}

// Where the block of a leaf ends, whose mask in the topology has so many ones. This follows from that count, so that the next block is found
// before this one's mask is there; and nothing of the block is kept.
pub fn pass_block(
    s: &[u8],
    c: Coding,
    leaf: Leaf,
    ones: usize,
    at: usize,
) -> Result<usize, ParseError>
    requires { IsMask s.now leaf.mask 64 × IsWidth c.width × (ones ≡ count_below (mask_bit s.now leaf.mask) 512) }
    ensures { says_end result ≡ end_of (block_field s.now c leaf at) }
{
    let p = read_block_head(s, c.version, leaf, at)?;
    runs::pass_values(s, c, Stored::Every, 64, at, at, ones, p)
}
