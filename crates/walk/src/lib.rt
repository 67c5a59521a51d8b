// Document 01, section 7: the walk call.
#![tactic(auto)]

ghost use Rattle.std.specs.Prelude.{◌≡◌, min};
ghost use Rattle.slots.specs.Slots.{slots_of};
ghost use Rattle.walk.specs.Walk.{Promise};

use fields::ParseError;
use place::Place;

// The walk's next place, how many slots are filled, and how many records are left.
#[derive(Clone, Copy)]
pub struct Walked {
    pub place: Place,
    pub filled: usize,
    pub left: u64,
}

// How many records can be handed out: as many as the shortest slice has slots, and no more than are left.
fn record_count(x: usize, y: usize, z: usize, level: usize, value: usize, left: u64) -> usize
    ensures { result ≡ min (min x (min y (min z (min level value)))) left }
{
    let slots = x.min(y.min(z.min(level.min(value))));
    (slots as u64).min(left) as usize
}

// Fills a row of record slots from its start with the records that follow a place: as many as the shortest slice has slots, and no more than are left. A
// place that no call over these bytes gave gets records of this file or 22.
pub fn walk(
    s: &[u8],
    p: Place,
    x: &mut [i32],
    y: &mut [i32],
    z: &mut [i32],
    level: &mut [u32],
    value: &mut [u32],
) -> Result<Walked, ParseError>
    ensures { Promise s.now p (slots_of x.old y.old z.old level.old value.old) result (slots_of x.new y.new z.new level.new value.new) }
{
    let limit = record_count(x.len(), y.len(), z.len(), level.len(), value.len(), p.left);
    if limit == 0 {
        return Ok(Walked {
            place: p,
            filled: 0,
            left: p.left,
        });
    }
    let coding = p.start.coding;
    if !place::is_wide(coding.width) {
        return Err(ParseError::ForeignPlace);
    }
    let at = place::hand_on(s, coding, p.cursor, p.inside, limit, x, y, z, level, value);
    if at.filled == 0 {
        return Err(ParseError::ForeignPlace);
    }
    let next = p.moved_to(at);
    Ok(Walked {
        place: next,
        filled: at.filled,
        left: next.left,
    })
}
