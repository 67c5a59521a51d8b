// Section 4 of document 01: one pass over the roots and all that the topology has below them. Every check of it is made, and nothing but its end
// is kept.
#![tactic(auto)]

ghost use Rattle.std.specs.Prelude.{◌≡◌, ◌≤◌, []};
ghost use Rattle.fields.specs.Parse.{many};
ghost use Rattle.fields.specs.Inner.{end_of, says_end};
ghost use Rattle.coordinates.specs.declared.GlobalCoord.{GlobalCoord as Origin};
ghost use Rattle.half.specs.Inner.{IsWidth};
ghost use Rattle.masks.specs.Masks.{mask_bit, ones};
ghost use Rattle.masks.specs.Inner.{IsMask};
ghost use Rattle.tree.specs.Topology.{node4_field, child_field, node5_field, roots_field};

use coordinates::{GlobalCoord, Index};
use fields::ParseError;
use forms::Coding;

// A 4-node, of whatever origin. Its leaves' masks stand behind it in a row, so that their count tells where they end.
fn pass_node4(s: &[u8], c: Coding, at: usize) -> Result<usize, ParseError>
    requires { IsWidth c.width }
    ensures { (o : Origin) → says_end result ≡ end_of (node4_field s.now c o at) }
{
    let (h, p) = nodes::read_node_header(s, c, 512, at)?;
    let leaves = masks::count_ones(s, h.child, 512);
    let (_, q) = fields::read_bytes(s, p, 64 * (leaves as usize))?;
    Ok(q)
}

// The 4-nodes of the 5-node with this child mask, by rising child bit.
fn pass_nodes(s: &[u8], c: Coding, child: usize, at: usize) -> Result<usize, ParseError>
    requires { IsWidth c.width × IsMask s.now child 4096 }
    ensures { (o : Origin) → says_end result ≡ end_of (many (child_field s.now c o) (ones (mask_bit s.now child) 32768) at) }
{
    let mut end = at;
    let mut from: u32 = 0;
    while let Some(p) = masks::next_one(s, child, 4096, Index(from)) {
        end = pass_node4(s, c, end)?;
        from = p.0 + 1;
    }
    Ok(end)
}

// A 5-node, of whatever origin, and its 4-nodes.
fn pass_node5(s: &[u8], c: Coding, at: usize) -> Result<usize, ParseError>
    requires { IsWidth c.width }
    ensures { (o : Origin) → says_end result ≡ end_of (node5_field s.now c o at) }
{
    let (h, p) = nodes::read_node_header(s, c, 4096, at)?;
    pass_nodes(s, c, h.child, p)
}

// The roots, each with its nodes. The origins passed so far are kept, so that none is read twice.
pub fn pass_roots(s: &[u8], c: Coding, count: u32, at: usize) -> Result<usize, ParseError>
    requires { IsWidth c.width × (count ≤ 256) }
    ensures { says_end result ≡ end_of (roots_field s.now c count [] at) }
{
    let mut origins = [GlobalCoord(0, 0, 0); 256];
    let mut end = at;
    for i in 0..count as usize {
        let (o, p) = roots::read_origin(s, &origins[..i], end)?;
        end = pass_node5(s, c, p)?;
        origins[i] = o;
    }
    Ok(end)
}
