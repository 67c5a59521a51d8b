// A walk's place with one of its words set. Its words are numbered from 0: six of what it started from, the number left, four of its coding, fourteen of
// its cursor, ten of where it stands in a piece.
use asking::line;
use coordinates::GlobalCoord;
use cursor::{Cursor, Entered};
use forms::Coding;
use place::{Place, Start};
use slots::Inside;

pub const COUNT: usize = 35;

fn origin(o: GlobalCoord, w: u64, v: u64) -> GlobalCoord {
    let c = fields::i32_of(line::low(v));
    match w {
        0 => GlobalCoord(c, o.1, o.2),
        1 => GlobalCoord(o.0, c, o.2),
        2 => GlobalCoord(o.0, o.1, c),
        _ => o,
    }
}

fn coding(mut c: Coding, w: u64, v: u64) -> Coding {
    match w {
        0 => c.version = line::low(v),
        1 => c.flags = line::low(v),
        2 => c.width = v as usize,
        3 => c.background = line::low(v),
        _ => {}
    }
    c
}

fn entered(mut e: Entered, w: u64, v: u64) -> Entered {
    e.origin = origin(e.origin, w, v);
    match w {
        3 => e.pos = v as usize,
        4 => e.next = line::low(v),
        _ => {}
    }
    e
}

fn cursor(mut c: Cursor, w: u64, v: u64) -> Cursor {
    c.node5 = entered(c.node5, w.wrapping_sub(4), v);
    c.node4 = entered(c.node4, w.wrapping_sub(9), v);
    match w {
        0 => c.depth = line::low(v),
        1 => c.roots_left = line::low(v),
        2 => c.topology_pos = v as usize,
        3 => c.block_pos = v as usize,
        _ => {}
    }
    c
}

fn inside(mut i: Inside, w: u64, v: u64) -> Inside {
    i.origin = origin(i.origin, w, v);
    match w {
        3 => i.level = line::low(v),
        4 => i.child_mask = v as usize,
        5 => i.value_mask = v as usize,
        6 => i.stored = line::low(v),
        7 => i.start = v as usize,
        8 => i.from = line::low(v),
        9 => i.number = v as usize,
        _ => {}
    }
    i
}

fn start(mut t: Start, w: u64, v: u64) -> Start {
    match w {
        0 => t.tiles_pos = v as usize,
        1 => t.tile_count = line::low(v),
        2 => t.roots_pos = v as usize,
        3 => t.root_count = line::low(v),
        4 => t.block_pos = v as usize,
        5 => t.length = v,
        _ => {}
    }
    t.coding = coding(t.coding, w.wrapping_sub(7), v);
    t
}

// The place with v as its word w.
pub fn with(mut p: Place, w: u64, v: u64) -> Place {
    if w == 6 {
        p.left = v;
    }
    p.start = start(p.start, w, v);
    p.cursor = cursor(p.cursor, w.wrapping_sub(11), v);
    p.inside = inside(p.inside, w.wrapping_sub(25), v);
    p
}
