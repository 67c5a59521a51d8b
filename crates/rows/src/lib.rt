// Document 01, section 7: the walk call over a lent row of record structs. The core, `walk::walk`, writes five slices of numbers. It is asked for at
// most 64 records at a time, and these are stored in the row one after the other.
#![tactic(auto)]

ghost use Rattle.std.specs.Prelude.{◌≡◌, map, length, ◌≤◌};
ghost use Rattle.slots.specs.Slots.{slots_of, slot_count};
ghost use Rattle.walk.specs.Walk.{Promise};
ghost use Rattle.walk.specs.Demand3.{rows};
ghost use Rattle.rows.specs.Rows.{row_of, columns};

use fields::ParseError;
use place::Place;
use walk::Walked;

#[derive(Clone, Copy)]
pub struct Record {
    pub x: i32,
    pub y: i32,
    pub z: i32,
    pub level: u32,
    pub value: u32,
}

// Stores the records of the first slots in a row, as many as it is long.
fn store(x: &[i32], y: &[i32], z: &[i32], level: &[u32], value: &[u32], row: &mut [Record])
    requires { length row.old ≤ slot_count (slots_of x.now y.now z.now level.now value.now) }
    ensures { row.new ≡ map row_of (rows (slots_of x.now y.now z.now level.now value.now) 0 (length row.old)) }
{
    for i in 0..row.len() {
        row[i] = Record {
            x: x[i],
            y: y[i],
            z: z[i],
            level: level[i],
            value: value[i],
        };
    }
}

// Fills a row of record slots from its start with the records that follow a place: as many as there are slots, and no more than are left. A place that
// no call over these bytes gave gets records of this file or 22. A refusal is the call's only where nothing is filled; else the call ends with what is.
// It goes on by what is filled and not by chunks of the row: from a place never reached a call may fill fewer slots than it is lent, and the next one
// fills those right behind.
pub fn walk_records(s: &[u8], p: Place, slots: &mut [Record]) -> Result<Walked, ParseError>
    ensures { Promise s.now p (columns slots.old) result (columns slots.new) }
{
    let mut x = [0i32; 64];
    let mut y = [0i32; 64];
    let mut z = [0i32; 64];
    let mut level = [0u32; 64];
    let mut value = [0u32; 64];
    let mut past = Walked {
        place: p,
        filled: 0,
        left: p.left,
    };
    while past.filled < slots.len() {
        let size = (slots.len() - past.filled).min(64);
        let w = match walk::walk(
            s,
            past.place,
            &mut x,
            &mut y,
            &mut z,
            &mut level,
            &mut value[..size],
        ) {
            Ok(w) => w,
            Err(e) if past.filled == 0 => return Err(e),
            Err(_) => return Ok(past),
        };
        let end = past.filled + w.filled;
        let row = &mut slots[past.filled..end];
        store(&x, &y, &z, &level, &value, row);
        past = Walked {
            place: w.place,
            filled: end,
            left: w.left,
        };
        if w.filled == 0 {
            return Ok(past);
        }
    }
    Ok(past)
}
