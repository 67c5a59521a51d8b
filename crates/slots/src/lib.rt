// Document 01, section 7: where a walk stands in a piece, and records put into five lent slices: one by one, or 64 at once.
#![tactic(auto)]

ghost use Rattle.std.specs.Prelude.{◌≡◌, true, ◌+◌, ◌*◌, ◌%◌, ◌≤◌, ◌<◌, length};
ghost use Rattle.coordinates.specs.Coordinates.{places, global_of, aligned};
ghost use Rattle.tree.specs.Active.{side_of, edge_of};
ghost use Rattle.batch.specs.Inner.{ranged};
ghost use Rattle.slots.specs.Slots.{slots_of, put, laid_from};
ghost use Rattle.slots.specs.Inner.{Room, Readable, mask_bytes, record_of, corner_at, axis_of, run_of};

use coordinates::{GlobalCoord, Index};
use forms::Coding;

// Where a walk stands in a piece: the piece's level, its origin, where its masks stand, which of its places are stored (0: all, 1: the active
// ones, else those without a child: a number and no enum, since a place's words may hold any), where its stored values start; the first place that is not
// passed, and how many places before it are stored.
#[derive(Clone, Copy)]
pub struct Inside {
    pub level: u32,
    pub origin: GlobalCoord,
    pub child_mask: usize,
    pub value_mask: usize,
    pub stored: u32,
    pub start: usize,
    pub from: u32,
    pub number: usize,
}

// The bytes of a mask of a piece, by its level; there are three levels.
pub fn mask_bytes(level: u32) -> usize
    ensures { (result ≡ mask_bytes level) × (result % 8 ≡ 0) × (result ≤ 4096) }
{
    match level {
        0 => 64,
        1 => 512,
        2 => 4096,
        _ => 0,
    }
}

// The corner of a place. The sides and steps are constants here, so that no division is left.
pub fn corner(level: u32, origin: GlobalCoord, p: Index) -> GlobalCoord
    requires { (p.0 < places (edge_of level)) × (aligned (edge_of level * side_of level) origin ≡ true) }
    ensures { result ≡ global_of (edge_of level) (side_of level) origin p }
{
    match level {
        0 => coordinates::offset_to_global_coord(p, 8, 1, origin),
        1 => coordinates::offset_to_global_coord(p, 16, 8, origin),
        _ => coordinates::offset_to_global_coord(p, 32, 128, origin),
    }
}

// A record into slot i of each slice.
pub fn put_record(
    i: usize,
    o: GlobalCoord,
    l: u32,
    v: u32,
    x: &mut [i32],
    y: &mut [i32],
    z: &mut [i32],
    level: &mut [u32],
    value: &mut [u32],
)
    requires { Room (i + 1) (slots_of x.old y.old z.old level.old value.old) }
    ensures { slots_of x.new y.new z.new level.new value.new ≡ put (slots_of x.old y.old z.old level.old value.old) i (record_of o l v) }
{
    x[i] = o.0;
    y[i] = o.1;
    z[i] = o.2;
    level[i] = l;
    value[i] = v;
}

#[derive(Clone, Copy)]
enum Axis {
    X,
    Y,
    Z,
}

// One coordinate of a corner.
fn along(o: GlobalCoord, axis: Axis) -> i32
    ensures { result ≡ axis_of o axis }
{
    match axis {
        Axis::X => o.0,
        Axis::Y => o.1,
        Axis::Z => o.2,
    }
}

// One coordinate of the corners of the next 64 places.
fn fill_axis(w: Inside, axis: Axis, slot: usize, x: &mut [i32])
    requires { (w.from + 64 ≤ places (edge_of w.level)) × (aligned (edge_of w.level * side_of w.level) w.origin ≡ true) × (slot + 64 ≤ length x.old) }
    ensures { x.new ≡ ranged x.old slot 64 (λ k. axis_of (corner_at w k) axis) }
{
    for k in 0..64 {
        x[slot + k] = along(corner(w.level, w.origin, Index(w.from + k as u32)), axis);
    }
}

// The records of the next 64 places, all active. Each slice is filled by a loop of its own, which the compiler vectorises.
pub fn fill_full(
    s: &[u8],
    c: Coding,
    room: usize,
    w: Inside,
    slot: usize,
    x: &mut [i32],
    y: &mut [i32],
    z: &mut [i32],
    level: &mut [u32],
    value: &mut [u32],
)
    requires { Readable s.now c room w × (w.from + 64 ≤ places (edge_of w.level)) × (w.number + 64 ≤ room) × Room (slot + 64) (slots_of x.old y.old z.old level.old value.old) }
    ensures { slots_of x.new y.new z.new level.new value.new ≡ laid_from (slots_of x.old y.old z.old level.old value.old) slot (run_of s.now c w 64) }
{
    fill_axis(w, Axis::X, slot, x);
    fill_axis(w, Axis::Y, slot, y);
    fill_axis(w, Axis::Z, slot, z);
    batch::fill_same(w.level, slot, level);
    batch::fill_values(s, c, w.start, w.number, slot, value);
}
