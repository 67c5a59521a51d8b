// Document 01, section 7: whole pieces of a tree are passed from a cursor on, as long as each fits into what is left of two budgets, so many records
// and so many leaves. Nothing of a piece is read but its masks, which count its records.
#![tactic(auto)]

ghost use Rattle.std.specs.Prelude.{◌≡◌, true, ◌/◌, Some};
ghost use Rattle.coordinates.specs.Coordinates.{places};
ghost use Rattle.masks.specs.Masks.{mask_bit, count_below};
ghost use Rattle.masks.specs.Inner.{IsMask, next_one};
ghost use Rattle.half.specs.Inner.{IsWidth};
ghost use Rattle.tree.specs.Active.{edge_of};
ghost use Rattle.cursor.specs.Inner.{in_node5, in_node4, is_entered};
ghost use Rattle.skip.specs.Inner.{skip_from, says_skip, RanTo, node4_of, LeavesRan, InNode5, NodeRan};

use coordinates::{GlobalCoord, Index};
use cursor::{Cursor, Entered, Piece};
use fields::ParseError;
use forms::Coding;
use nodes::Leaf;

// The first piece that does not fit with the cursor behind it, or that all pieces are passed; and the records and leaves still to be passed.
#[derive(Drop)]
pub enum Skipped {
    Before {
        piece: Piece,
        behind: Cursor,
        records: u64,
        leaves: u64,
    },
    End {
        records: u64,
        leaves: u64,
    },
}

// Where a run over pieces stands: its cursor, and the records and leaves still to be passed.
#[derive(Clone, Copy)]
struct Run {
    cursor: Cursor,
    records: u64,
    leaves: u64,
}

// Where a run over the leaves of a 4-node stands: the first place that is not passed, where topology and blocks go on, and the records and leaves still
// to be passed.
#[derive(Clone, Copy)]
struct LeafRun {
    next: u32,
    at: usize,
    block: usize,
    records: u64,
    leaves: u64,
}

// A run over a 4-node: it is passed, its leaves and itself, and the run goes on behind it in the 5-node; or the run stops before that.
#[derive(Clone, Copy)]
enum Node4Run {
    Passed(Run),
    Stopped(Run),
}

// The ones of a value mask, by the level of its piece; there are three levels.
fn count_records(s: &[u8], level: u32, value: usize) -> u32
    requires { IsMask s.now value (places (edge_of level) / 8) }
    ensures { result ≡ count_below (mask_bit s.now value) (places (edge_of level)) }
{
    match level {
        0 => masks::count_ones(s, value, 64),
        1 => masks::count_ones(s, value, 512),
        2 => masks::count_ones(s, value, 4096),
        _ => 0,
    }
}

// A cursor in a 4-node of a 5-node, and in a 5-node.
fn in_node4(roots_left: u32, node5: Entered, node4: Entered, at: usize, block: usize) -> Cursor
    ensures { result ≡ in_node4 roots_left node5 node4 at block }
{
    Cursor {
        depth: 2,
        roots_left,
        node5,
        node4,
        topology_pos: at,
        block_pos: block,
    }
}

fn in_node5(roots_left: u32, node5: Entered, at: usize, block: usize) -> Cursor
    ensures { result ≡ in_node5 roots_left node5 at block }
{
    let mut y = cursor::between_roots(roots_left, at, block);
    y.depth = 1;
    y.node5 = node5;
    y
}

// The leaves of a 4-node from a place on, as long as they fit. Ones are counted in the topology's mask, so that the next block's position waits for no
// byte of this block; and all that a turn changes is plain numbers, so that no struct is copied for a leaf. Before anything that does not lie in the file
// the run stops.
fn run_leaves(s: &[u8], c: Coding, origin: GlobalCoord, child: usize, start: LeafRun) -> LeafRun
    requires { IsWidth c.width × (is_entered s.now 128 512 (node4_of origin child start.next) ≡ true) }
    ensures { LeavesRan s.now c origin child start result }
{
    let mut next = start.next;
    let mut at = start.at;
    let mut block = start.block;
    let mut records = start.records;
    let mut leaves = start.leaves;
    while leaves != 0 {
        let Some(p) = masks::next_one(s, child, 512, Index(next)) else {
            break;
        };
        let Ok((span, q)) = fields::read_bytes(s, at, 64) else {
            break;
        };
        let ones = masks::count_ones(s, span.start, 64);
        let n = u64::from(ones);
        if records < n {
            break;
        }
        let leaf = Leaf {
            origin: coordinates::offset_to_global_coord(p, 16, 8, origin),
            mask: span.start,
        };
        let Ok(r) = nodes::pass_block(s, c, leaf, ones as usize, block) else {
            break;
        };
        next = p.0 + 1;
        at = q;
        block = r;
        records -= n;
        leaves -= 1;
    }
    LeafRun {
        next,
        at,
        block,
        records,
        leaves,
    }
}

// The 4-node at place p of the 5-node where the run stands: its leaves, and then itself, as long as they fit. Its header is read once for both.
fn run_node4(s: &[u8], c: Coding, t: Run, p: Index) -> Node4Run
    requires { IsWidth c.width × InNode5 s.now t × (Some p ≡ next_one (mask_bit s.now t.cursor.node5.pos) 32768 t.cursor.node5.next) }
    ensures { NodeRan s.now c t p.0 result }
{
    let x = t.cursor;
    let pos = x.topology_pos;
    let Ok((h, at)) = nodes::read_node_header(s, c, 512, pos) else {
        return Node4Run::Stopped(t);
    };
    let origin = coordinates::offset_to_global_coord(p, 32, 128, x.node5.origin);
    let mut node5 = x.node5;
    node5.next = p.0 + 1;
    let start = LeafRun {
        next: 0,
        at,
        block: x.block_pos,
        records: t.records,
        leaves: t.leaves,
    };
    let r = run_leaves(s, c, origin, pos, start);
    if masks::next_one(s, pos, 512, Index(r.next)).is_none() {
        let tiles = u64::from(masks::count_ones(s, h.value, 512));
        if tiles <= r.records {
            return Node4Run::Passed(Run {
                cursor: in_node5(x.roots_left, node5, r.at, r.block),
                records: r.records - tiles,
                leaves: r.leaves,
            });
        }
    }
    let node4 = Entered {
        origin,
        pos,
        next: r.next,
    };
    Node4Run::Stopped(Run {
        cursor: in_node4(x.roots_left, node5, node4, r.at, r.block),
        records: r.records,
        leaves: r.leaves,
    })
}

// The 4-nodes of the 5-node where the run stands.
fn run_nodes(s: &[u8], c: Coding, start: Run) -> Run
    requires { IsWidth c.width × InNode5 s.now start }
    ensures { RanTo s.now c start result }
{
    let mut t = start;
    while let Some(p) = masks::next_one(s, t.cursor.node5.pos, 4096, Index(t.cursor.node5.next)) {
        match run_node4(s, c, t, p) {
            Node4Run::Stopped(r) => return r,
            Node4Run::Passed(r) => t = r,
        }
    }
    t
}

// The leaves of the 4-node, or the 4-nodes of the 5-node, where the run stands; where it stands in none it does not move.
fn run_on(s: &[u8], c: Coding, t: Run) -> Run
    requires { IsWidth c.width }
    ensures { RanTo s.now c t result }
{
    let x = t.cursor;
    if x.depth == 1 && cursor::is_entered(s, 4096, 4096, x.node5) {
        return run_nodes(s, c, t);
    }
    if x.depth == 2 && cursor::is_entered(s, 128, 512, x.node4) {
        let mut node4 = x.node4;
        let start = LeafRun {
            next: node4.next,
            at: x.topology_pos,
            block: x.block_pos,
            records: t.records,
            leaves: t.leaves,
        };
        let r = run_leaves(s, c, node4.origin, node4.pos, start);
        node4.next = r.next;
        return Run {
            cursor: in_node4(x.roots_left, x.node5, node4, r.at, r.block),
            records: r.records,
            leaves: r.leaves,
        };
    }
    t
}

// The pieces from a cursor on, as long as they fit. Only here an end or a refusal is noticed. A cursor that no call gave gets pieces of this file or a
// refusal.
pub fn skip(
    s: &[u8],
    c: Coding,
    start: Cursor,
    records: u64,
    leaves: u64,
) -> Result<Skipped, ParseError>
    requires { IsWidth c.width }
    ensures { says_skip result ≡ skip_from s.now c records leaves start }
{
    let mut t = Run {
        cursor: start,
        records,
        leaves,
    };
    loop {
        // no `?`: a refusal has an arm of its own, which the edit refusal_as_end makes wrong
        let next = match cursor::next_piece(s, c, t.cursor) {
            Ok(next) => next,
            Err(e) => return Err(e),
        };
        let Some((piece, behind)) = next else {
            return Ok(Skipped::End {
                records: t.records,
                leaves: t.leaves,
            });
        };
        let leaf = u64::from(piece.level == 0);
        let count = u64::from(count_records(s, piece.level, piece.value));
        if t.leaves < leaf || t.records < count {
            return Ok(Skipped::Before {
                piece,
                behind,
                records: t.records,
                leaves: t.leaves,
            });
        }
        let passed = Run {
            cursor: behind,
            records: t.records - count,
            leaves: t.leaves - leaf,
        };
        t = run_on(s, c, passed);
    }
}
