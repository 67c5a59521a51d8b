// Sections 6 and 8 of document 01: the values of a leaf, and those of a run of leaves with one opening of the grid.
#![tactic(auto)]

ghost use Rattle.std.specs.Prelude.{◌≡◌, ◌&&◌, ◌-◌, ◌/◌, ◌%◌, leb, length, drop};
ghost use Rattle.fields.specs.Parse.{when};
ghost use Rattle.leaves.specs.Leaves.{fill_leaf, fill_leaf_named, fill_leaf_numbered, fill_leaves, fill_leaves_named, fill_leaves_numbered};
ghost use Rattle.leaves.specs.Answers.{says_fill, KeptBy};
ghost use Rattle.leaves.specs.Inner.{start_cursor, leaves_from, values_of, HasLeaves, right_slots};

use archive::Asked;
use cursor::Cursor;
use fields::ParseError;
use place::Start;
use skip::Skipped;

// The cursor behind the first leaves. No tree has as many records as may be passed, so that only a leaf ends the pass: the last one of them.
fn behind_leaves(s: &[u8], start: Start, first: u64) -> Cursor
    requires { HasLeaves s.now start first 1 }
    ensures { leaves_from s.now start.coding result ≡ drop first (leaves_from s.now start.coding (start_cursor start)) }
{
    let x = cursor::between_roots(start.root_count, start.roots_pos, start.block_pos);
    if first == 0 {
        return x;
    }
    match skip::skip(s, start.coding, x, u64::MAX, first - 1) {
        Ok(Skipped::Before { behind, .. }) => behind,
        Ok(Skipped::End { .. }) => unreachable!(),
        Err(_) => unreachable!(),
    }
}

// Fills the slots with the values of the leaves from a number on. These are taken from piece to piece: a pass over pieces for each leaf would copy the
// cursor several times. A turn of the loop is a piece, and only some pieces are leaves: so it is no loop over the slots.
fn fill_run(s: &[u8], start: Start, first: u64, slots: &mut [u32])
    requires { HasLeaves s.now start first (length slots.old / 512) × (length slots.old % 512 ≡ 0) }
    ensures { slots.new ≡ values_of s.now start.coding (leaves_from s.now start.coding (start_cursor start)) first (length slots.old / 512) }
{
    if slots.is_empty() {
        return;
    }
    let c = start.coding;
    let mut cursor = behind_leaves(s, start, first);
    let mut at = 0;
    while at < slots.len() {
        let (q, behind) = match cursor::next_piece(s, c, cursor) {
            Ok(Some(next)) => next,
            Ok(None) => unreachable!(),
            Err(_) => unreachable!(),
        };
        cursor = behind;
        if q.level == 0 {
            expand::fill_leaf(s, c, q.value, q.values, &mut slots[at..at + 512]);
            at += 512;
        }
    }
}

// Whether so many slots are those of one leaf, or of whole leaves.
fn right_slots(single: bool, n: usize) -> bool
    ensures { result ≡ right_slots single n }
{
    if single { n == 512 } else { n % 512 == 0 }
}

// Whether there are n of `count` leaves from one on.
pub fn has_run(count: u64, first: u64, n: usize) -> bool
    ensures { result ≡ leb n (count - first) }
{
    n as u64 <= count.saturating_sub(first)
}

// Whether n slots are right, and as many leaves are there from one on.
fn fits(single: bool, n: usize, count: u64, first: u64) -> bool
    ensures { result ≡ (right_slots single n && leb (n / 512) (count - first)) }
{
    right_slots(single, n) && has_run(count, first, n / 512)
}

// Writes the values of the leaves from a number on of the grid that is asked for: of a single one, or of as many as there are slots for. A refused call
// leaves the slots as they were.
fn fill_asked(
    s: &[u8],
    asked: Asked,
    name: &[u8],
    single: bool,
    first: u64,
    slots: &mut [u32],
) -> Result<(), ParseError>
    ensures { (says_fill result slots.new ≡ when single (fill_leaf s.now asked name.now first (length slots.old)) (fill_leaves s.now asked name.now first (length slots.old))) × KeptBy result slots.old slots.new }
{
    let g = grid::open_grid(s, asked, name)?;
    if !fits(single, slots.len(), g.leaf_count, first) {
        return Err(ParseError::NoSuchLeaf);
    }
    fill_run(s, g.place.start, first, slots);
    Ok(())
}

// Writes the 512 values of a leaf, by its number from 0 in topology order, of the grid of this name.
pub fn fill_leaf_named(
    s: &[u8],
    name: &[u8],
    number: u64,
    slots: &mut [u32],
) -> Result<(), ParseError>
    ensures { (says_fill result slots.new ≡ fill_leaf_named s.now name.now number (length slots.old)) × KeptBy result slots.old slots.new }
{
    fill_asked(s, Asked::ByName, name, true, number, slots)
}

// The same for the grid with this number, from 0.
pub fn fill_leaf_numbered(
    s: &[u8],
    n: u32,
    number: u64,
    slots: &mut [u32],
) -> Result<(), ParseError>
    ensures { (says_fill result slots.new ≡ fill_leaf_numbered s.now n number (length slots.old)) × KeptBy result slots.old slots.new }
{
    fill_asked(s, Asked::ByNumber(n), b"", true, number, slots)
}

// Writes the values of the leaves from a number on, 512 slots each, of the grid of this name.
pub fn fill_leaves_named(
    s: &[u8],
    name: &[u8],
    first: u64,
    slots: &mut [u32],
) -> Result<(), ParseError>
    ensures { (says_fill result slots.new ≡ fill_leaves_named s.now name.now first (length slots.old)) × KeptBy result slots.old slots.new }
{
    fill_asked(s, Asked::ByName, name, false, first, slots)
}

// The same for the grid with this number, from 0.
pub fn fill_leaves_numbered(
    s: &[u8],
    n: u32,
    first: u64,
    slots: &mut [u32],
) -> Result<(), ParseError>
    ensures { (says_fill result slots.new ≡ fill_leaves_numbered s.now n first (length slots.old)) × KeptBy result slots.old slots.new }
{
    fill_asked(s, Asked::ByNumber(n), b"", false, first, slots)
}
