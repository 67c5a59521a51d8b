// Document 01, section 7: where a walk stands, and the records that follow.
#![tactic(auto)]

ghost use Rattle.std.specs.Prelude.{◌≡◌, true, ◌-◌, ◌≤◌, ◌<◌, min};
ghost use Rattle.half.specs.Inner.{IsWidth};
ghost use Rattle.cursor.specs.Inner.{piece_of};
ghost use Rattle.slots.specs.Slots.{slots_of};
ghost use Rattle.slots.specs.Inner.{Room};
ghost use Rattle.skip.specs.Inner.{skip_from};
ghost use Rattle.place.specs.Inner.{behind_of, EndsAt, Steps, stored_number, entered, nowhere, fresh_place, moved, listing_from, says_listed, next_stand, hand_on, HandedOn};

use bits::Run;
use coordinates::{GlobalCoord, Index};
use cursor::{Cursor, NextPiece, Piece};
use fields::ParseError;
use forms::{Coding, Stored};
use skip::Skipped;
use slots::Inside;

// What a walk starts from, which tells its grid: how values are stored, where root tiles, roots and blocks start, how many tiles and roots there are,
// and the length of the active list.
#[derive(Clone, Copy, PartialEq, Eq)]
pub struct Start {
    pub coding: Coding,
    pub tiles_pos: usize,
    pub tile_count: u32,
    pub roots_pos: usize,
    pub root_count: u32,
    pub block_pos: usize,
    pub length: u64,
}

// Where a walk stands, all in whole numbers: what it started from, the number of records left, and where it stands right behind the record that was
// handed out last: the cursor behind that record's piece, and the place in that piece.
#[derive(Clone, Copy)]
pub struct Place {
    pub start: Start,
    pub left: u64,
    pub cursor: Cursor,
    pub inside: Inside,
}

impl Place {
    // The place after n more records, or after all that are left where there are fewer, found by counting. A place that no walk over these bytes gave gets
    // a place with as many fewer left, or 22.
    pub fn step(self, s: &[u8], n: u64) -> Result<Place, ParseError>
        ensures { Steps s.now self (min n self.left) result }
    {
        let count = n.min(self.left);
        if count == 0 {
            return Ok(self);
        }
        let coding = self.start.coding;
        if !is_wide(coding.width) {
            return Err(ParseError::ForeignPlace);
        }
        let Some((cursor, inside)) = stand_after(s, coding, self.cursor, self.inside, count) else {
            return Err(ParseError::ForeignPlace);
        };
        let stand = Stand {
            cursor,
            inside,
            filled: count as usize,
        };
        Ok(self.moved_to(stand))
    }

    // The place that follows when a call's records are handed out: the same walk, standing behind these, with as many fewer left.
    pub fn moved_to(mut self, at: Stand) -> Place
        requires { at.filled ≤ self.left }
        ensures { result ≡ moved self (self.left - at.filled) at.cursor at.inside }
    {
        self.left -= at.filled as u64;
        self.cursor = at.cursor;
        self.inside = at.inside;
        self
    }
}

// Where a walk stands among the pieces, and the first slot that it did not fill.
#[derive(Clone, Copy)]
pub struct Stand {
    pub cursor: Cursor,
    pub inside: Inside,
    pub filled: usize,
}

// Before the first record.
pub fn fresh(start: Start) -> Place
    ensures { result ≡ fresh_place start }
{
    let cursor = cursor::between_roots(start.root_count, start.roots_pos, start.block_pos);
    let inside = Inside {
        level: 0,
        origin: GlobalCoord(0, 0, 0),
        child_mask: 0,
        value_mask: 0,
        stored: 0,
        start: 0,
        from: 512,
        number: 0,
    };
    Place {
        start,
        left: start.length,
        cursor,
        inside,
    }
}

fn stored_number(stored: Stored) -> u32
    ensures { result ≡ stored_number stored }
{
    match stored {
        Stored::Every => 0,
        Stored::Active => 1,
        Stored::Childless => 2,
    }
}

// Before a piece's first place.
fn enter(q: Piece) -> Inside
    ensures { result ≡ entered (piece_of q) }
{
    Inside {
        level: q.level,
        origin: q.origin,
        child_mask: q.child,
        value_mask: q.value,
        stored: stored_number(q.values.stored),
        start: q.values.start,
        from: 0,
        number: 0,
    }
}

// The next piece that lists a record, and the cursor behind it: empty pieces are passed many at once.
fn pass_empty(s: &[u8], c: Coding, cursor: Cursor) -> NextPiece
    requires { IsWidth c.width }
    ensures { says_listed s.now c result ≡ listing_from s.now c cursor }
{
    match skip::skip(s, c, cursor, 0, u64::MAX)? {
        Skipped::End { .. } => Ok(None),
        Skipped::Before { piece, behind, .. } => Ok(Some((piece, behind))),
    }
}

// The same. A piece that lists one shows it in the first words of its value mask.
fn next_listed(s: &[u8], c: Coding, cursor: Cursor) -> NextPiece
    requires { IsWidth c.width }
    ensures { says_listed s.now c result ≡ listing_from s.now c cursor }
{
    let Some((q, behind)) = cursor::next_piece(s, c, cursor)? else {
        return Ok(None);
    };
    let n = slots::mask_bytes(q.level);
    if masks::next_one(s, q.value, n, Index(0)).is_some() {
        return Ok(Some((q, behind)));
    }
    pass_empty(s, c, behind)
}

// Where a walk stands that is behind the places of a piece, in the next one that lists a record: where all was whole, slots are left, and there is one.
fn next_stand(s: &[u8], c: Coding, cursor: Cursor, t: Run, limit: usize) -> Option<Stand>
    requires { IsWidth c.width }
    ensures { result ≡ next_stand t.whole t.filled limit (listing_from s.now c cursor) }
{
    if !t.whole || limit <= t.filled {
        return None;
    }
    let Ok(next) = next_listed(s, c, cursor) else {
        return None;
    };
    let (q, behind) = next?;
    Some(Stand {
        cursor: behind,
        inside: enter(q),
        filled: t.filled,
    })
}

// The records from here on, piece after piece, into the slots from the first one on, no further than `limit`.
fn hand_pieces(
    s: &[u8],
    c: Coding,
    cursor: Cursor,
    inside: Inside,
    limit: usize,
    x: &mut [i32],
    y: &mut [i32],
    z: &mut [i32],
    level: &mut [u32],
    value: &mut [u32],
) -> Stand
    requires { IsWidth c.width × Room limit (slots_of x.old y.old z.old level.old value.old) }
    ensures { HandedOn (hand_on s.now c limit cursor inside) (slots_of x.old y.old z.old level.old value.old) (slots_of x.new y.new z.new level.new value.new) result }
{
    let mut at = Stand {
        cursor,
        inside,
        filled: 0,
    };
    loop {
        let t = records::fill_piece(s, c, at.inside, at.filled, limit, x, y, z, level, value);
        let Some(next) = next_stand(s, c, at.cursor, t, limit) else {
            return Stand {
                cursor: at.cursor,
                inside: t.inside,
                filled: t.filled,
            };
        };
        at = next;
    }
}

// The same. The two widths become constants here, so that the compiler carries none of them through the loops.
pub fn hand_on(
    s: &[u8],
    c: Coding,
    cursor: Cursor,
    inside: Inside,
    limit: usize,
    x: &mut [i32],
    y: &mut [i32],
    z: &mut [i32],
    level: &mut [u32],
    value: &mut [u32],
) -> Stand
    requires { IsWidth c.width × Room limit (slots_of x.old y.old z.old level.old value.old) }
    ensures { HandedOn (hand_on s.now c limit cursor inside) (slots_of x.old y.old z.old level.old value.old) (slots_of x.new y.new z.new level.new value.new) result }
{
    let mut known = c;
    if c.width == 2 {
        known.width = 2;
        return hand_pieces(s, known, cursor, inside, limit, x, y, z, level, value);
    }
    known.width = 4;
    hand_pieces(s, known, cursor, inside, limit, x, y, z, level, value)
}

// Where a walk stands behind so many records of the pieces from a cursor on, the cursor behind the last one's piece and the place in that piece: in the
// first piece that does not fit into one record less.
fn stand_on(s: &[u8], c: Coding, cursor: Cursor, k: u64) -> Option<(Cursor, Inside)>
    requires { IsWidth c.width × (0 < k) }
    ensures { result ≡ behind_of s.now c (skip_from s.now c (k - 1) 18446744073709551615 cursor) }
{
    let Ok(
        Skipped::Before {
            piece,
            behind,
            records,
            ..
        },
    ) = skip::skip(s, c, cursor, k - 1, u64::MAX)
    else {
        return None;
    };
    Some((behind, nth::stand_behind(s, enter(piece), records as u32)))
}

// The same from where a walk stands in a piece: in that piece, where it lists as many from there on.
fn stand_after(s: &[u8], c: Coding, cursor: Cursor, w: Inside, k: u64) -> Option<(Cursor, Inside)>
    requires { IsWidth c.width × (0 < k) }
    ensures { EndsAt s.now c k cursor w result }
{
    let n = slots::mask_bytes(w.level);
    if 8 * n as u32 <= w.from {
        return stand_on(s, c, cursor, k);
    }
    if !records::is_inside(s, n, w) {
        return None;
    }
    let passed = masks::count_ones_below(s, w.value_mask, n, Index(w.from));
    let left = u64::from(masks::count_ones(s, w.value_mask, n) - passed);
    if left < k {
        return stand_on(s, c, cursor, k - left);
    }
    Some((cursor, nth::stand_behind(s, w, passed + (k - 1) as u32)))
}

// Whether a stored value can have this width.
pub fn is_wide(width: usize) -> bool
    ensures { (result ≡ true → IsWidth width) × (IsWidth width → result ≡ true) }
{
    width == 2 || width == 4
}
