// Document 01, section 7: the pieces of a tree in the order of the active list, one a call: a leaf's block, a 4-node after its leaves, a 5-node
// after its 4-nodes. In between, all there is stands in a cursor, which the caller keeps. It is plain numbers and may come from anywhere, so
// nothing is read that was not tested to lie in the file.
#![tactic(auto)]

ghost use Rattle.std.specs.Prelude.{◌≡◌, true, ◌+◌, ◌%◌, ◌≤◌, ◌<◌};
ghost use Rattle.fields.specs.Says.{says_answer};
ghost use Rattle.coordinates.specs.Coordinates.{aligned};
ghost use Rattle.coordinates.specs.Inner.{Divides};
ghost use Rattle.half.specs.Inner.{IsWidth};
ghost use Rattle.tree.specs.Active.{leaf_piece};
ghost use Rattle.cursor.specs.Inner.{between_roots, is_entered, leaving, leaf_rest, node4_rest, roots_rest, from5, from4, beyond, to_come, piece_of, says_piece, next_child};

use coordinates::{GlobalCoord, Index};
use fields::ParseError;
use forms::Coding;
use nodes::{Block, Leaf};
use runs::Values;

// A leaf, a 4-node or a 5-node: level 0, 1 or 2, its origin, where its masks stand, and its values. A leaf has no child mask; the position of
// its value mask stands there.
#[derive(Drop)]
pub struct Piece {
    pub level: u32,
    pub origin: GlobalCoord,
    pub child: usize,
    pub value: usize,
    pub values: Values,
}

// A node whose children are being handed out: its origin, where it starts in the file, and the first of its places that is not passed.
#[derive(Clone, Copy)]
pub struct Entered {
    pub origin: GlobalCoord,
    pub pos: usize,
    pub next: u32,
}

// Where a traversal stands: in how many nodes (0 between roots, 1 in a 5-node, 2 in a 4-node of it; more counts as 2), how many roots follow,
// these two nodes, and where topology and blocks go on. A node that it does not stand in is all zeros: behind each piece there is one cursor,
// whichever way it was reached.
#[derive(Clone, Copy)]
pub struct Cursor {
    pub depth: u32,
    pub roots_left: u32,
    pub node5: Entered,
    pub node4: Entered,
    pub topology_pos: usize,
    pub block_pos: usize,
}

// The next piece and the cursor behind it, or that no piece is left, or the check that refuses the next one.
pub type NextPiece = Result<Option<(Piece, Cursor)>, ParseError>;

// The cursor between roots, of which so many follow. Where all of a tree's roots follow, this is the start.
pub fn between_roots(roots_left: u32, topology_pos: usize, block_pos: usize) -> Cursor
    ensures { result ≡ between_roots roots_left topology_pos block_pos }
{
    let origin = GlobalCoord(0, 0, 0);
    let none = Entered {
        origin,
        pos: 0,
        next: 0,
    };
    Cursor {
        depth: 0,
        roots_left,
        node5: none,
        node4: none,
        topology_pos,
        block_pos,
    }
}

// Whether words can be those of a node: its child mask of n bytes lies in the file, its next place is none past them, and its origin is a
// multiple of m, so that its places' coordinates fit an i32.
pub fn is_entered(s: &[u8], m: u32, n: usize, w: Entered) -> bool
    requires { Divides m × (n ≤ 4096) }
    ensures { result ≡ is_entered s.now m n w }
{
    n <= s.len()
        && w.pos <= s.len() - n
        && w.next <= 8 * (n as u32)
        && coordinates::is_aligned(w.origin, m)
}

// The place of the next child of what is said to be a node, or that none is left. Words that are no node's are refused.
fn next_child(s: &[u8], m: u32, n: usize, w: Entered) -> Result<Option<Index>, ParseError>
    requires { Divides m × (n % 8 ≡ 0) × (n ≤ 4096) }
    ensures { says_answer result ≡ next_child s.now m n w }
{
    if !is_entered(s, m, n, w) {
        return Err(ParseError::ForeignPlace);
    }
    Ok(masks::next_one(s, w.pos, n, Index(w.next)))
}

// A leaf's block as a piece.
fn leaf_piece(b: Block) -> Piece
    ensures { piece_of result ≡ leaf_piece b }
{
    Piece {
        level: 0,
        origin: b.origin,
        child: b.mask,
        value: b.mask,
        values: b.values,
    }
}

// The leaf at place p of a 4-node: its mask is next in the topology, and its block is the next block.
fn leaf_at(
    s: &[u8],
    c: Coding,
    roots_left: u32,
    node5: Entered,
    node4: Entered,
    p: Index,
    topology_pos: usize,
    block_pos: usize,
) -> NextPiece
    requires { IsWidth c.width × (aligned 128 node4.origin ≡ true) × (p.0 < 4096) }
    ensures { says_piece s.now c result ≡ leaf_rest s.now c roots_left node5 node4.origin node4.pos p.0 (from4 s.now c roots_left node5 (beyond node4.origin node4.pos p.0)) topology_pos block_pos }
{
    let (mask, q) = fields::read_bytes(s, topology_pos, 64)?;
    let leaf = Leaf {
        origin: coordinates::offset_to_global_coord(p, 16, 8, node4.origin),
        mask: mask.start,
    };
    let (b, r) = nodes::read_block(s, c, leaf, block_pos)?;
    let passed = Entered {
        next: p.0 + 1,
        ..node4
    };
    let behind = Cursor {
        depth: 2,
        roots_left,
        node5,
        node4: passed,
        topology_pos: q,
        block_pos: r,
    };
    Ok(Some((leaf_piece(b), behind)))
}

// A node is left, and is the piece. Its header is read again here, so that a cursor need not hold it.
fn leave(s: &[u8], c: Coding, level: u32, n: usize, w: Entered, behind: Cursor) -> NextPiece
    requires { IsWidth c.width × (n % 8 ≡ 0) × (n ≤ 4096) }
    ensures { says_piece s.now c result ≡ leaving s.now c level n w.origin w.pos behind (to_come s.now c behind) }
{
    let (h, _) = nodes::read_node_header(s, c, n, w.pos)?;
    let piece = Piece {
        level,
        origin: w.origin,
        child: h.child,
        value: h.value,
        values: h.values,
    };
    Ok(Some((piece, behind)))
}

// In a 4-node: its next leaf, or else the 4-node itself.
fn next_in_node4(
    s: &[u8],
    c: Coding,
    roots_left: u32,
    node5: Entered,
    node4: Entered,
    topology_pos: usize,
    block_pos: usize,
) -> NextPiece
    requires { IsWidth c.width }
    ensures { says_piece s.now c result ≡ from4 s.now c roots_left node5 node4 topology_pos block_pos }
{
    match next_child(s, 128, 512, node4)? {
        Some(p) => leaf_at(s, c, roots_left, node5, node4, p, topology_pos, block_pos),
        None => {
            let behind = Cursor {
                depth: 1,
                node5,
                ..between_roots(roots_left, topology_pos, block_pos)
            };
            leave(s, c, 1, 512, node4, behind)
        }
    }
}

// The 4-node at place p of a 5-node, which is next in the topology: its first piece. Its header tells where its leaves' masks start.
fn node4_at(
    s: &[u8],
    c: Coding,
    roots_left: u32,
    node5: Entered,
    p: Index,
    topology_pos: usize,
    block_pos: usize,
) -> NextPiece
    requires { IsWidth c.width × (aligned 4096 node5.origin ≡ true) × (p.0 < 32768) }
    ensures { says_piece s.now c result ≡ node4_rest s.now c roots_left node5.origin node5.pos p.0 (from5 s.now c roots_left (beyond node5.origin node5.pos p.0)) topology_pos block_pos }
{
    let (_, q) = nodes::read_node_header(s, c, 512, topology_pos)?;
    let passed = Entered {
        next: p.0 + 1,
        ..node5
    };
    let node4 = Entered {
        origin: coordinates::offset_to_global_coord(p, 32, 128, node5.origin),
        pos: topology_pos,
        next: 0,
    };
    next_in_node4(s, c, roots_left, passed, node4, q, block_pos)
}

// In a 5-node: the first piece of its next 4-node, or else the 5-node itself.
fn next_in_node5(
    s: &[u8],
    c: Coding,
    roots_left: u32,
    node5: Entered,
    topology_pos: usize,
    block_pos: usize,
) -> NextPiece
    requires { IsWidth c.width }
    ensures { says_piece s.now c result ≡ from5 s.now c roots_left node5 topology_pos block_pos }
{
    match next_child(s, 4096, 4096, node5)? {
        Some(p) => node4_at(s, c, roots_left, node5, p, topology_pos, block_pos),
        None => {
            let behind = between_roots(roots_left, topology_pos, block_pos);
            leave(s, c, 2, 4096, node5, behind)
        }
    }
}

// Between roots: the first piece of the next root, or the end. That an origin is no other root's was checked when the grid was opened.
fn next_in_roots(
    s: &[u8],
    c: Coding,
    roots_left: u32,
    topology_pos: usize,
    block_pos: usize,
) -> NextPiece
    requires { IsWidth c.width }
    ensures { says_piece s.now c result ≡ roots_rest s.now c roots_left topology_pos block_pos }
{
    if roots_left == 0 {
        return Ok(None);
    }
    let (v, p) = fields::read_i_vec3(s, topology_pos)?;
    let (_, q) = nodes::read_node_header(s, c, 4096, p)?;
    let node5 = Entered {
        origin: coordinates::origin_of(v),
        pos: p,
        next: 0,
    };
    next_in_node5(s, c, roots_left - 1, node5, q, block_pos)
}

// The next piece, and the cursor behind it. A cursor that no call gave gets pieces of this file or a refusal.
pub fn next_piece(s: &[u8], c: Coding, cursor: Cursor) -> NextPiece
    requires { IsWidth c.width }
    ensures { says_piece s.now c result ≡ to_come s.now c cursor }
{
    let roots_left = cursor.roots_left;
    let node5 = cursor.node5;
    let topology_pos = cursor.topology_pos;
    let block_pos = cursor.block_pos;
    match cursor.depth {
        0 => next_in_roots(s, c, roots_left, topology_pos, block_pos),
        1 => next_in_node5(s, c, roots_left, node5, topology_pos, block_pos),
        _ => next_in_node4(
            s,
            c,
            roots_left,
            node5,
            cursor.node4,
            topology_pos,
            block_pos,
        ),
    }
}
