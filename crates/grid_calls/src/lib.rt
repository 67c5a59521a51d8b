// Opening a grid, and the walk, for a caller in another language: the answer's words are laid into lent arrays. What is returned is 0, or the number of the
// check that refused; then nothing lent is changed.
#![tactic(auto)]

ghost use Rattle.std.specs.Prelude.{◌≡◌};
ghost use Rattle.std.specs.Result.{ForOk};
ghost use Rattle.fields.specs.Says.{says_answer};
ghost use Rattle.grid.specs.Grid.{open_grid_named, open_grid_numbered};
ghost use Rattle.outward.specs.Inner.{DoublesHeld};
ghost use Rattle.slots.specs.Slots.{slots_of};
ghost use Rattle.grid_calls.specs.Calls.{OpenCall, WalkCall};

use fields::ParseError;
use grid::OpenedGrid;

// Lays the words of an opened grid, and of its fresh place, into what was lent; or hands the refusal on.
fn lay_grid(
    s: &[u8],
    answer: Result<OpenedGrid, ParseError>,
    out: &mut [u64; 32],
    place: &mut [u64; 40],
) -> u32
    requires { ForOk answer (DoublesHeld s.now) }
    ensures { OpenCall s.now (says_answer answer) out.old place.old result out.new place.new }
{
    match answer {
        Ok(g) => {
            *place = words::words_of(g.place);
            *out = outward::opened_words(s, g);
            0
        }
        Err(e) => u32::from(e),
    }
}

// Opens the grid of this name.
pub fn open_grid_named(s: &[u8], name: &[u8], out: &mut [u64; 32], place: &mut [u64; 40]) -> u32
    ensures { OpenCall s.now (open_grid_named s.now name.now) out.old place.old result out.new place.new }
{
    lay_grid(s, grid::open_grid_named(s, name), out, place)
}

// Opens the grid with this number, from 0.
pub fn open_grid_numbered(s: &[u8], n: u32, out: &mut [u64; 32], place: &mut [u64; 40]) -> u32
    ensures { OpenCall s.now (open_grid_numbered s.now n) out.old place.old result out.new place.new }
{
    lay_grid(s, grid::open_grid_numbered(s, n), out, place)
}

// The walk call: the records that follow a place, into lent slots. Words of another layout are no place of these bytes.
pub fn walk(
    s: &[u8],
    place: &mut [u64; 40],
    x: &mut [i32],
    y: &mut [i32],
    z: &mut [i32],
    level: &mut [u32],
    value: &mut [u32],
    counts: &mut [u64; 2],
) -> u32
    ensures { WalkCall s.now place.old counts.old (slots_of x.old y.old z.old level.old value.old) result place.new counts.new (slots_of x.new y.new z.new level.new value.new) }
{
    if !words::has_layout(*place) {
        return u32::from(ParseError::ForeignPlace);
    }
    match walk::walk(s, words::place_of(*place), x, y, z, level, value) {
        Ok(w) => {
            *place = words::words_of(w.place);
            *counts = [w.filled as u64, w.left];
            0
        }
        Err(e) => u32::from(e),
    }
}
