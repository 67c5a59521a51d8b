// The place formulas of document 01, section 4, and their way back. A place number, a place in its node and a voxel
// coordinate are three kinds, converted only here. A node is given by its side and step: 32 and 128 for a 5-node, 16 and 8
// for a 4-node, 8 and 1 for a leaf; one proof serves all three.
#![tactic(auto)]

ghost use Rattle.std.specs.Prelude.{◌≡◌, true, ◌*◌, ◌<◌};
ghost use Rattle.coordinates.specs.Inner.{Divides, Node};
ghost use Rattle.coordinates.specs.Coordinates.{aligned, coord_of, global_of, local_of, place_along, place_of, places, remainder, root_coord, root_origin, same_coord, origin_of};

use fields::IVec3;

// The place number of a child, a tile or a voxel in its node.
#[derive(Clone, Copy)]
pub struct Index(pub u32);

// A place in its node: x, y and z, each below the node's side.
#[derive(Drop)]
pub struct LocalCoord(pub u32, pub u32, pub u32);

// A voxel coordinate.
#[derive(Clone, Copy, PartialEq, Eq)]
pub struct GlobalCoord(pub i32, pub i32, pub i32);

// The remainder of v by m, 0 to m - 1, also for a negative v. Adding 2147483648, a multiple of m, leaves it as it is.
fn remainder_by(v: i32, m: u32) -> u32
    requires { Divides m }
    ensures { result ≡ remainder v m }
{
    ((i64::from(v) + 2147483648) as u32) % m
}

// One coordinate of place x along an axis of a node whose origin is o there.
fn axis_coord(o: i32, x: u32, side: u32, step: u32) -> i32
    requires { Node side step × (x < side) × (remainder o (side * step) ≡ 0) }
    ensures { result ≡ coord_of step o x }
{
    o + (x * step) as i32
}

// The place along an axis of voxel coordinate v. The remainder is by the node's whole span, as in OpenVDB.
fn axis_place(v: i32, side: u32, step: u32) -> u32
    requires { Node side step }
    ensures { (result ≡ place_along side step v) × (result < side) }
{
    remainder_by(v, side * step) / step
}

// The place that has number p in a node with this side. Callers have a side of 32, 16 or 8.
pub fn offset_to_local_coord(p: Index, side: u32) -> LocalCoord
    requires { 0 < side }
    ensures { result ≡ local_of side p }
{
    let x = p.0 / side / side;
    let y = p.0 / side % side;
    let z = p.0 % side;
    LocalCoord(x, y, z)
}

// The lowest voxel of place p. Callers have one of the three nodes, a place of it, and its origin: a root's is checked to be
// a multiple of 4096 (check 17), and those below it are results of this function.
pub fn offset_to_global_coord(p: Index, side: u32, step: u32, origin: GlobalCoord) -> GlobalCoord
    requires { Node side step × (p.0 < places side) × (aligned (side * step) origin ≡ true) }
    ensures { (result ≡ global_of side step origin p) × (aligned step result ≡ true) }
{
    let l = offset_to_local_coord(p, side);
    let x = axis_coord(origin.0, l.0, side, step);
    let y = axis_coord(origin.1, l.1, side, step);
    let z = axis_coord(origin.2, l.2, side, step);
    GlobalCoord(x, y, z)
}

// The place of voxel v in the node of this side and step that holds it.
pub fn global_coord_to_offset(v: GlobalCoord, side: u32, step: u32) -> Index
    requires { Node side step }
    ensures { (result ≡ place_of side step v) × (result.0 < places side) }
{
    let x = axis_place(v.0, side, step);
    let y = axis_place(v.1, side, step);
    let z = axis_place(v.2, side, step);
    Index((x * side + y) * side + z)
}

// Whether all three coordinates are multiples of m.
pub fn is_aligned(o: GlobalCoord, m: u32) -> bool
    requires { Divides m }
    ensures { result ≡ aligned m o }
{
    remainder_by(o.0, m) == 0 && remainder_by(o.1, m) == 0 && remainder_by(o.2, m) == 0
}

// One coordinate of the origin of v's root.
fn root_coord(v: i32) -> i32
    ensures { result ≡ root_coord v }
{
    v - remainder_by(v, 4096) as i32
}

// The origin of the root that would hold voxel v.
pub fn root_origin(v: GlobalCoord) -> GlobalCoord
    ensures { result ≡ root_origin v }
{
    let x = root_coord(v.0);
    let y = root_coord(v.1);
    let z = root_coord(v.2);
    GlobalCoord(x, y, z)
}

// Whether two coordinates are the same.
pub fn same_coord(a: GlobalCoord, b: GlobalCoord) -> bool
    ensures { result ≡ same_coord a b }
{
    a == b
}

// An origin read from the file.
pub fn origin_of(v: IVec3) -> GlobalCoord
    ensures { result ≡ origin_of v }
{
    GlobalCoord(v.x, v.y, v.z)
}
