// Document 01, section 5: the value of each place of a node. A node is given by the number n of bytes of each of its masks and by where these stand:
// its child mask at `child`, its value mask at `value`. A leaf has no child mask; nothing of a leaf is looked up there, and its value mask's position
// stands in.
#![tactic(auto)]

ghost use Rattle.std.specs.Prelude.{◌≡◌, ◌+◌, ◌*◌, ◌<◌};
ghost use Rattle.half.specs.Inner.{IsWidth};
ghost use Rattle.half.specs.Half.{stored_value};
ghost use Rattle.forms.specs.Inner.{SelectionHeld};
ghost use Rattle.runs.specs.Inner.{Held};
ghost use Rattle.values.specs.Values.{inactive_value, place_value};
ghost use Rattle.values.specs.Inner.{InRun};

use coordinates::Index;
use forms::{Coding, Inactives};
use runs::Values;

// What an inactive place holds.
fn inactive_value(s: &[u8], n: usize, v: Inactives, p: Index) -> u32
    requires { SelectionHeld s.now n v.selection × (p.0 < 8 * n) }
    ensures { result ≡ inactive_value s.now v p.0 }
{
    let Some(at) = v.selection else {
        return v.first;
    };
    if masks::bit(s, at, n, p) {
        return v.second;
    }
    v.first
}

// The stored value with the number k of a run that starts at a position. The callers have its number below the run's count. The widths are constants
// here, so that a loop over k has no product left.
pub fn stored_value(s: &[u8], c: Coding, start: usize, k: usize) -> u32
    requires { IsWidth c.width × InRun s.now c start k }
    ensures { result ≡ stored_value s.now c.width (start + k * c.width) }
{
    if c.width == 2 {
        return half::value_at(s, start + k * 2, 2);
    }
    half::value_at(s, start + k * 4, 4)
}

// The value of one place. The callers have the values from `runs::read_values`.
pub fn place_value(
    s: &[u8],
    c: Coding,
    n: usize,
    child: usize,
    value: usize,
    v: Values,
    p: Index,
) -> u32
    requires { Held s.now c n child value v × (p.0 < 8 * n) }
    ensures { result ≡ place_value s.now c child value v p.0 }
{
    if runs::is_stored(s, v.stored, n, child, value, p) {
        let k = runs::number_of(s, v.stored, n, child, value, p);
        return stored_value(s, c, v.start, k);
    }
    inactive_value(s, n, v.inactives, p)
}
