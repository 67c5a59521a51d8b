// The values of leaves and their origins for a caller in another language. What is returned is 0, or the number of the check that refused; then no slot is
// changed.
#![tactic(auto)]

ghost use Rattle.std.specs.Prelude.{◌≡◌, length, MatchResult};
ghost use Rattle.fields.specs.Says.{number};
ghost use Rattle.leaves.specs.Leaves.{fill_leaf_named, fill_leaf_numbered, fill_leaves_named, fill_leaves_numbered};
ghost use Rattle.origins.specs.Origins.{axes, leaf_origins_named, leaf_origins_numbered};
ghost use Rattle.outward.specs.Outward.{laid};

use fields::ParseError;

// What a call returns for its answer.
fn returned(answer: Result<(), ParseError>) -> u32
    ensures { MatchResult answer (λ _. result ≡ 0) (λ e. result ≡ number e) }
{
    match answer {
        Ok(()) => 0,
        Err(e) => u32::from(e),
    }
}

// Writes the 512 values of a leaf, by its number from 0, of the grid of this name.
pub fn fill_leaf_named(s: &[u8], name: &[u8], number: u64, slots: &mut [u32]) -> u32
    ensures { (result, slots.new) ≡ laid (fill_leaf_named s.now name.now number (length slots.old)) (λ values. values) slots.old }
{
    returned(leaves::fill_leaf_named(s, name, number, slots))
}

// The same for the grid with this number, from 0.
pub fn fill_leaf_numbered(s: &[u8], n: u32, number: u64, slots: &mut [u32]) -> u32
    ensures { (result, slots.new) ≡ laid (fill_leaf_numbered s.now n number (length slots.old)) (λ values. values) slots.old }
{
    returned(leaves::fill_leaf_numbered(s, n, number, slots))
}

// Writes the values of the leaves from a number on, 512 slots each, of the grid of this name.
pub fn fill_leaves_named(s: &[u8], name: &[u8], first: u64, slots: &mut [u32]) -> u32
    ensures { (result, slots.new) ≡ laid (fill_leaves_named s.now name.now first (length slots.old)) (λ values. values) slots.old }
{
    returned(leaves::fill_leaves_named(s, name, first, slots))
}

// The same for the grid with this number, from 0.
pub fn fill_leaves_numbered(s: &[u8], n: u32, first: u64, slots: &mut [u32]) -> u32
    ensures { (result, slots.new) ≡ laid (fill_leaves_numbered s.now n first (length slots.old)) (λ values. values) slots.old }
{
    returned(leaves::fill_leaves_numbered(s, n, first, slots))
}

// Writes the origins of the leaves from a number on, into three slices of one length, of the grid of this name.
pub fn leaf_origins_named(
    s: &[u8],
    name: &[u8],
    first: u64,
    x: &mut [i32],
    y: &mut [i32],
    z: &mut [i32],
) -> u32
    ensures { (result, axes x.new y.new z.new) ≡ laid (leaf_origins_named s.now name.now first (length x.old) (length y.old) (length z.old)) (λ origins. origins) (axes x.old y.old z.old) }
{
    returned(origins::origins_named(s, name, first, x, y, z))
}

// The same for the grid with this number, from 0.
pub fn leaf_origins_numbered(
    s: &[u8],
    n: u32,
    first: u64,
    x: &mut [i32],
    y: &mut [i32],
    z: &mut [i32],
) -> u32
    ensures { (result, axes x.new y.new z.new) ≡ laid (leaf_origins_numbered s.now n first (length x.old) (length y.old) (length z.old)) (λ origins. origins) (axes x.old y.old z.old) }
{
    returned(origins::origins_numbered(s, n, first, x, y, z))
}
