// A walk's place as 40 words of 64 bits, for a caller that keeps it as plain numbers: in another language, or in a file. The first word is the number of
// the words' layout. Any other words behind it are some place: a word of a smaller field counts by its low 32 bits. What a place is turned into is turned
// back into the same place.
#![tactic(auto)]

ghost use Rattle.std.specs.Prelude.{◌≡◌};
ghost use Rattle.fields.specs.Le.{signed};
ghost use Rattle.words.specs.Words.{pattern, low32, at, layout, has_layout, StandFor, start_by, coords_by, entered_by, cursor_by, inside_by, place_by, start_words, coord_words, entered_words, cursor_words, inside_words, words_of};

use coordinates::GlobalCoord;
use cursor::{Cursor, Entered};
use forms::Coding;
use place::{Place, Start};
use slots::Inside;

const LAYOUT: u32 = 1;

// The number of the layout of a place's words. It changes when the words of an older place would be read as another one.
pub fn layout() -> u32
    ensures { result ≡ layout }
{
    LAYOUT
}

// Whether words have this layout.
pub fn has_layout(w: [u64; 40]) -> bool
    ensures { result ≡ has_layout w }
{
    w[0] == u64::from(LAYOUT)
}

// A signed number's pattern in two's complement.
pub fn pattern_of(x: i64) -> u64
    ensures { result ≡ pattern x }
{
    x.cast_unsigned()
}

fn low(w: u64) -> u32
    ensures { result ≡ low32 w }
{
    (w % 0x1_0000_0000) as u32
}

fn coord(w: u64) -> i32
    ensures { result ≡ signed 31 (low32 w) }
{
    low(w).cast_signed()
}

fn coords_of(x: u64, y: u64, z: u64) -> GlobalCoord
    ensures { result ≡ coords_by x y z }
{
    GlobalCoord(coord(x), coord(y), coord(z))
}

fn entered_of(x: u64, y: u64, z: u64, pos: u64, next: u64) -> Entered
    ensures { result ≡ entered_by x y z pos next }
{
    Entered {
        origin: coords_of(x, y, z),
        pos: pos as usize,
        next: low(next),
    }
}

fn cursor_of(w: [u64; 40]) -> Cursor
    ensures { result ≡ cursor_by w 12 }
{
    Cursor {
        depth: low(w[12]),
        roots_left: low(w[13]),
        node5: entered_of(w[14], w[15], w[16], w[17], w[18]),
        node4: entered_of(w[19], w[20], w[21], w[22], w[23]),
        topology_pos: w[24] as usize,
        block_pos: w[25] as usize,
    }
}

fn inside_of(w: [u64; 40]) -> Inside
    ensures { result ≡ inside_by w 26 }
{
    Inside {
        level: low(w[26]),
        origin: coords_of(w[27], w[28], w[29]),
        child_mask: w[30] as usize,
        value_mask: w[31] as usize,
        stored: low(w[32]),
        start: w[33] as usize,
        from: low(w[34]),
        number: w[35] as usize,
    }
}

fn start_of(w: [u64; 40]) -> Start
    ensures { result ≡ start_by w 1 }
{
    Start {
        coding: Coding {
            version: low(w[1]),
            flags: low(w[2]),
            width: w[3] as usize,
            background: low(w[4]),
        },
        tiles_pos: w[5] as usize,
        tile_count: low(w[6]),
        roots_pos: w[7] as usize,
        root_count: low(w[8]),
        block_pos: w[9] as usize,
        length: w[10],
    }
}

// The place that these words stand for, if they have this layout.
pub fn place_of(w: [u64; 40]) -> Place
    ensures { result ≡ place_by w }
{
    Place {
        start: start_of(w),
        left: w[11],
        cursor: cursor_of(w),
        inside: inside_of(w),
    }
}

// The word of a number of 32 bits, from which it comes back.
fn word(x: u32) -> u64
    ensures { (result ≡ x) × (low32 result ≡ x) }
{
    u64::from(x)
}

// The same for a coordinate.
pub fn coord_word(x: i32) -> u64
    ensures { (result ≡ pattern x) × (signed 31 (low32 result) ≡ x) }
{
    pattern_of(i64::from(x))
}

// The words of what a walk starts from, of a coordinate, a node, a cursor and a place in a piece, from each of which it comes back.
fn start_words(t: Start) -> [u64; 10]
    ensures { (result ≡ start_words t) × (start_by result 0 ≡ t) }
{
    [
        word(t.coding.version),
        word(t.coding.flags),
        t.coding.width as u64,
        word(t.coding.background),
        t.tiles_pos as u64,
        word(t.tile_count),
        t.roots_pos as u64,
        word(t.root_count),
        t.block_pos as u64,
        t.length,
    ]
}

fn coord_words(o: GlobalCoord) -> [u64; 3]
    ensures { (result ≡ coord_words o) × (coords_by (at result 0) (at result 1) (at result 2) ≡ o) }
{
    [coord_word(o.0), coord_word(o.1), coord_word(o.2)]
}

fn entered_words(e: Entered) -> [u64; 5]
    ensures { (result ≡ entered_words e) × (entered_by (at result 0) (at result 1) (at result 2) (at result 3) (at result 4) ≡ e) }
{
    let o = coord_words(e.origin);
    [o[0], o[1], o[2], e.pos as u64, word(e.next)]
}

fn cursor_words(c: Cursor) -> [u64; 14]
    ensures { (result ≡ cursor_words c) × (cursor_by result 0 ≡ c) }
{
    let mut out = [0; 14];
    out[0] = word(c.depth);
    out[1] = word(c.roots_left);
    out[2..7].copy_from_slice(&entered_words(c.node5));
    out[7..12].copy_from_slice(&entered_words(c.node4));
    out[12] = c.topology_pos as u64;
    out[13] = c.block_pos as u64;
    out
}

fn inside_words(w: Inside) -> [u64; 10]
    ensures { (result ≡ inside_words w) × (inside_by result 0 ≡ w) }
{
    let o = coord_words(w.origin);
    [
        word(w.level),
        o[0],
        o[1],
        o[2],
        w.child_mask as u64,
        w.value_mask as u64,
        word(w.stored),
        w.start as u64,
        word(w.from),
        w.number as u64,
    ]
}

// A place's words, which stand for it.
pub fn words_of(p: Place) -> [u64; 40]
    ensures { (result ≡ words_of p) × StandFor result p }
{
    let mut out = [0; 40];
    out[0] = u64::from(LAYOUT);
    out[1..11].copy_from_slice(&start_words(p.start));
    out[11] = p.left;
    out[12..26].copy_from_slice(&cursor_words(p.cursor));
    out[26..36].copy_from_slice(&inside_words(p.inside));
    out
}
