// Section 2 of document 01: a grid's descriptor.
#![tactic(auto)]

ghost use Rattle.std.specs.Prelude.{◌≡◌};
ghost use Rattle.fields.specs.Says.{says};
ghost use Rattle.descriptor.specs.Descriptor.{names_field, position_field, positions_field, flags_field, half_entry, tree_kind, descriptor};

use fields::{Field, ParseError, Span};
use header::ArchiveHeader;
use metadata::{Entry, MetadataValue};

// A descriptor's names and positions.
#[derive(Clone, Copy)]
pub struct GridNames {
    pub name: Span,
    pub grid_type: Span,
    pub instance_parent: Span,
}

#[derive(Clone, Copy)]
pub struct GridPositions {
    pub grid_pos: usize,
    pub block_pos: usize,
    pub end_pos: usize,
}

// Which tree the name of a grid's type stands for: one of floats, one of floats with the ending that tells of halves, or another.
#[derive(Clone, Copy, PartialEq, Eq)]
pub enum TreeKind {
    Float,
    HalfFloat,
    Other,
}

// A grid's descriptor with its flags; half is what the entry that tells of halves says, if it is there and a bool; meta_pos is where its metadata
// starts, tree_pos where what follows it starts.
#[derive(Clone, Copy)]
pub struct GridDescriptor {
    pub name: Span,
    pub grid_type: Span,
    pub instance_parent: Span,
    pub grid_pos: usize,
    pub block_pos: usize,
    pub end_pos: usize,
    pub compression: u32,
    pub kind: TreeKind,
    pub half: Option<bool>,
    pub meta_pos: usize,
    pub tree_pos: usize,
}

// A descriptor's three names.
pub fn read_names(s: &[u8], at: usize) -> Field<GridNames>
    ensures { says result ≡ names_field s.now at }
{
    let (name, p) = fields::read_name(s, at)?;
    let (grid_type, q) = fields::read_name(s, p)?;
    let (instance_parent, n) = fields::read_name(s, q)?;
    let names = GridNames {
        name,
        grid_type,
        instance_parent,
    };
    Ok((names, n))
}

// A position from the file's start, check 9: it may be the file's length and no more.
pub fn read_position(s: &[u8], at: usize) -> Field<usize>
    ensures { says result ≡ position_field s.now at }
{
    let (v, p) = fields::read_u64(s, at)?;
    let n = s.len() as u64;
    if n < v {
        return Err(ParseError::PositionPastEnd);
    }
    Ok((v as usize, p))
}

// A descriptor's three positions.
pub fn read_positions(s: &[u8], at: usize) -> Field<GridPositions>
    ensures { says result ≡ positions_field s.now at }
{
    let (grid_pos, p) = read_position(s, at)?;
    let (block_pos, q) = read_position(s, p)?;
    let (end_pos, n) = read_position(s, q)?;
    let places = GridPositions {
        grid_pos,
        block_pos,
        end_pos,
    };
    Ok((places, n))
}

// The flags, check 7; before version 222 none are stored, and a packed file has 1.
pub fn read_flags(s: &[u8], version: u32, packed: bool, at: usize) -> Field<u32>
    ensures { says result ≡ flags_field s.now version packed at }
{
    if version < 222 {
        return Ok((u32::from(packed), at));
    }
    let (f, p) = fields::read_u32(s, at)?;
    if 7 < f {
        return Err(ParseError::InvalidCompression);
    }
    Ok((f, p))
}

// What the entry that was found says of halves.
fn half_of(found: Option<Entry>) -> Option<bool>
    ensures { result ≡ half_entry found }
{
    match found?.value {
        MetadataValue::Bool(b) => Some(b),
        // an int32 says nothing, not even where it is 0 or 1
        MetadataValue::I32(_) => None,
        _ => None,
    }
}

// The tree that the type's name stands for. Not a match on byte strings: its last arm gives a proof no fact about the name.
fn tree_kind(name: &[u8]) -> TreeKind
    ensures { result ≡ tree_kind name.now }
{
    if fields::same_bytes(name, b"Tree_float_5_4_3") {
        return TreeKind::Float;
    }
    if fields::same_bytes(name, b"Tree_float_5_4_3_HalfFloat") {
        return TreeKind::HalfFloat;
    }
    TreeKind::Other
}

// A descriptor: names and positions in a row; flags and metadata at the grid position.
pub fn read_descriptor(s: &[u8], h: ArchiveHeader, at: usize) -> Field<GridDescriptor>
    ensures { says result ≡ descriptor s.now h at }
{
    let (names, p) = read_names(s, at)?;
    let (places, _) = read_positions(s, p)?;
    let (flags, m) = read_flags(s, h.file_version, h.packed, places.grid_pos)?;
    let (found, n) = metadata::read_metadata(s, b"is_saved_as_half_float", m)?;
    let d = GridDescriptor {
        name: names.name,
        grid_type: names.grid_type,
        instance_parent: names.instance_parent,
        grid_pos: places.grid_pos,
        block_pos: places.block_pos,
        end_pos: places.end_pos,
        compression: flags,
        kind: tree_kind(fields::bytes_of(s, names.grid_type)),
        half: half_of(found),
        meta_pos: m,
        tree_pos: n,
    };
    Ok((d, places.end_pos))
}
