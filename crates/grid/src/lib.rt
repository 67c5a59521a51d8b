// Sections 7 and 8 of document 01: opening a grid by its name or its number.
#![tactic(auto)]

ghost use Rattle.std.specs.Prelude.{◌≡◌, ◌≤◌};
ghost use Rattle.fields.specs.Parse.{then, got};
ghost use Rattle.fields.specs.Answer.{answer};
ghost use Rattle.fields.specs.Says.{says_answer};
ghost use Rattle.half.specs.Inner.{IsWidth};
ghost use Rattle.grid.specs.Grid.{is_float_tree, width_of, coding_of, open_grid, open_grid_named, open_grid_numbered};
ghost use Rattle.grid.specs.Inner.{content_with, read_tree, read_grid, look, opened_by};

use archive::Asked;
use descriptor::{GridDescriptor, TreeKind};
use fields::ParseError;
use forms::Coding;
use header::ArchiveHeader;
use place::{Place, Start};
use roots::TreeHead;
use skip::Skipped;
use transform::Map;

// An opened grid: its transform and where that ends, its background's pattern, the length of its active list, how many leaves it has, and the place of a
// walk before its first record. The patterns of the transform's doubles are the last 120 bytes before its end, or the last 144.
#[derive(Drop)]
pub struct OpenedGrid {
    pub transform: Map,
    pub transform_end: usize,
    pub background: u32,
    pub active_count: u64,
    pub leaf_count: u64,
    pub place: Place,
}

// All that opening a grid finds: the file's header, the grid's own descriptor and that of the grid whose tree it has, its transform, where transform and
// topology end, how many leaves there are, and what a walk starts from.
#[derive(Drop)]
pub struct Content {
    pub header: ArchiveHeader,
    pub own: GridDescriptor,
    pub tree: GridDescriptor,
    pub transform: Map,
    pub transform_end: usize,
    pub topology_end: usize,
    pub leaf_count: u64,
    pub start: Start,
}

fn is_float_tree(kind: TreeKind) -> bool
    ensures { result ≡ is_float_tree kind }
{
    matches!(kind, TreeKind::Float | TreeKind::HalfFloat)
}

// The width of a stored value: by the grid's half entry, and where that says nothing by the ending of its type's name.
pub fn width_of(half: Option<bool>, kind: TreeKind) -> usize
    ensures { (result ≡ width_of half kind) × IsWidth result }
{
    match half {
        Some(true) => 2,
        Some(false) => 4,
        None => match kind {
            TreeKind::HalfFloat => 2,
            TreeKind::Float | TreeKind::Other => 4,
        },
    }
}

fn coding_of(h: ArchiveHeader, d: GridDescriptor, head: TreeHead) -> Coding
    ensures { (result ≡ coding_of h d head) × IsWidth result.width }
{
    Coding {
        version: h.file_version,
        flags: d.compression,
        width: width_of(d.half, d.kind),
        background: head.background,
    }
}

// The tree behind this head: its topology, and then all its blocks. No tree has as many records or leaves as may be passed here, so the pass goes on to the
// end, or to a block that is refused.
fn read_tree(
    s: &[u8],
    h: ArchiveHeader,
    d: GridDescriptor,
    transform: Map,
    transform_end: usize,
    head: TreeHead,
) -> Result<Content, ParseError>
    requires { head.root_count ≤ 256 }
    ensures { says_answer result ≡ answer (read_tree s.now h d transform transform_end head head.roots_pos) }
{
    let coding = coding_of(h, d, head);
    let topology_end = tree::pass_roots(s, coding, head.root_count, head.roots_pos)?;
    let first = cursor::between_roots(head.root_count, head.roots_pos, d.block_pos);
    let Skipped::End { records, leaves } = skip::skip(s, coding, first, u64::MAX, u64::MAX)? else {
        return Err(ParseError::PastEnd);
    };
    let start = Start {
        coding,
        tiles_pos: head.tiles_pos,
        tile_count: head.tile_count,
        roots_pos: head.roots_pos,
        root_count: head.root_count,
        block_pos: d.block_pos,
        length: u64::MAX - records,
    };
    Ok(Content {
        header: h,
        own: d,
        tree: d,
        transform,
        transform_end,
        topology_end,
        leaf_count: u64::MAX - leaves,
        start,
    })
}

// The grid of this descriptor: its transform, topology and blocks. What stands before the roots is read first, as it tells how values are stored.
fn read_grid(s: &[u8], h: ArchiveHeader, d: GridDescriptor) -> Result<Content, ParseError>
    ensures { says_answer result ≡ answer (read_grid s.now h d) }
{
    if !is_float_tree(d.kind) {
        return Err(ParseError::UnsupportedGridType);
    }
    if d.instance_parent.len != 0 {
        return Err(ParseError::InstanceParent);
    }
    let (transform, end) = transform::read_transform(s, d.tree_pos)?;
    let (head, _) = roots::read_tree_head(s, 256, end)?;
    read_tree(s, h, d, transform, end, head)
}

// The grid that is asked for, with all that opening it finds.
pub fn look(s: &[u8], asked: Asked, name: &[u8]) -> Result<Content, ParseError>
    ensures { says_answer result ≡ look s.now asked name.now }
{
    let file = archive::read_file(s, asked, name)?;
    let Some(d) = file.grid else {
        return Err(ParseError::NotFound);
    };
    read_grid(s, file.header, d)
}

// Opens the grid that is asked for. A walk over it starts from what its content has.
pub fn open_grid(s: &[u8], asked: Asked, name: &[u8]) -> Result<OpenedGrid, ParseError>
    ensures { says_answer result ≡ open_grid s.now asked name.now }
{
    let content = look(s, asked, name)?;
    let start = content.start;
    Ok(OpenedGrid {
        transform: content.transform,
        transform_end: content.transform_end,
        background: start.coding.background,
        active_count: start.length,
        leaf_count: content.leaf_count,
        place: place::fresh(start),
    })
}

// Opens the grid of this name.
pub fn open_grid_named(s: &[u8], name: &[u8]) -> Result<OpenedGrid, ParseError>
    ensures { says_answer result ≡ open_grid_named s.now name.now }
{
    open_grid(s, Asked::ByName, name)
}

// Opens the grid with this number, from 0.
pub fn open_grid_numbered(s: &[u8], n: u32) -> Result<OpenedGrid, ParseError>
    ensures { says_answer result ≡ open_grid_numbered s.now n }
{
    open_grid(s, Asked::ByNumber(n), b"")
}
