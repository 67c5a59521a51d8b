// The reader for programs in C and Rust: the functions that include/vdb.h tells, as Rattle calls them. The static library libvdb.a, the crate vdb_c, has an
// export for each of them. Each hands on to the crate that has it. What it returns is 0, or the number of the check that refused; then nothing lent is
// changed.
#![tactic(auto)]

ghost use Rattle.std.specs.Prelude.{◌≡◌, length};
ghost use Rattle.archive.specs.Archive.{open_file, grid_named, grid_numbered, file_entry, grid_entry_named, grid_entry_numbered};
ghost use Rattle.grid.specs.Grid.{open_grid_named, open_grid_numbered};
ghost use Rattle.leaves.specs.Leaves.{fill_leaf_named, fill_leaf_numbered, fill_leaves_named, fill_leaves_numbered};
ghost use Rattle.origins.specs.Origins.{axes, leaf_origins_named, leaf_origins_numbered};
ghost use Rattle.slots.specs.Slots.{slots_of};
ghost use Rattle.words.specs.Words.{layout};
ghost use Rattle.outward.specs.Outward.{laid, header_words, descriptor_words, entry_words};
ghost use Rattle.grid_calls.specs.Calls.{OpenCall, WalkCall};

// The number of the layout of all that is lent: a caller that was built for another one lends nothing.
pub fn vdb_layout() -> u32
    ensures { result ≡ layout }
{
    words::layout()
}

// Opens the file.
pub fn vdb_open_file(s: &[u8], out: &mut [u64; 8]) -> u32
    ensures { (result, out.new) ≡ laid (open_file s.now) header_words out.old }
{
    file_calls::open_file(s, out)
}

// The descriptor of the grid of this name.
pub fn vdb_grid_named(s: &[u8], name: &[u8], out: &mut [u64; 16]) -> u32
    ensures { (result, out.new) ≡ laid (grid_named s.now name.now) descriptor_words out.old }
{
    file_calls::grid_named(s, name, out)
}

// The descriptor of the grid with this number, from 0.
pub fn vdb_grid_numbered(s: &[u8], n: u32, out: &mut [u64; 16]) -> u32
    ensures { (result, out.new) ≡ laid (grid_numbered s.now n) descriptor_words out.old }
{
    file_calls::grid_numbered(s, n, out)
}

// An entry of the file's metadata.
pub fn vdb_file_entry(s: &[u8], name: &[u8], out: &mut [u64; 5]) -> u32
    ensures { (result, out.new) ≡ laid (file_entry s.now name.now) entry_words out.old }
{
    file_calls::file_entry(s, name, out)
}

// An entry of the metadata of the grid of this name.
pub fn vdb_grid_entry_named(s: &[u8], grid: &[u8], name: &[u8], out: &mut [u64; 5]) -> u32
    ensures { (result, out.new) ≡ laid (grid_entry_named s.now grid.now name.now) entry_words out.old }
{
    file_calls::grid_entry_named(s, grid, name, out)
}

// An entry of the metadata of the grid with this number, from 0.
pub fn vdb_grid_entry_numbered(s: &[u8], n: u32, name: &[u8], out: &mut [u64; 5]) -> u32
    ensures { (result, out.new) ≡ laid (grid_entry_numbered s.now n name.now) entry_words out.old }
{
    file_calls::grid_entry_numbered(s, n, name, out)
}

// Opens the grid of this name.
pub fn vdb_open_grid_named(s: &[u8], name: &[u8], out: &mut [u64; 32], place: &mut [u64; 40]) -> u32
    ensures { OpenCall s.now (open_grid_named s.now name.now) out.old place.old result out.new place.new }
{
    grid_calls::open_grid_named(s, name, out, place)
}

// Opens the grid with this number, from 0.
pub fn vdb_open_grid_numbered(s: &[u8], n: u32, out: &mut [u64; 32], place: &mut [u64; 40]) -> u32
    ensures { OpenCall s.now (open_grid_numbered s.now n) out.old place.old result out.new place.new }
{
    grid_calls::open_grid_numbered(s, n, out, place)
}

// The walk call: the records that follow a place, into lent slots. Words of another layout are no place of these bytes.
pub fn vdb_walk(
    s: &[u8],
    place: &mut [u64; 40],
    x: &mut [i32],
    y: &mut [i32],
    z: &mut [i32],
    level: &mut [u32],
    value: &mut [u32],
    counts: &mut [u64; 2],
) -> u32
    ensures { WalkCall s.now place.old counts.old (slots_of x.old y.old z.old level.old value.old) result place.new counts.new (slots_of x.new y.new z.new level.new value.new) }
{
    grid_calls::walk(s, place, x, y, z, level, value, counts)
}

// Writes the 512 values of a leaf, by its number from 0, of the grid of this name.
pub fn vdb_fill_leaf_named(s: &[u8], name: &[u8], number: u64, slots: &mut [u32]) -> u32
    ensures { (result, slots.new) ≡ laid (fill_leaf_named s.now name.now number (length slots.old)) (λ values. values) slots.old }
{
    leaf_calls::fill_leaf_named(s, name, number, slots)
}

// The same for the grid with this number, from 0.
pub fn vdb_fill_leaf_numbered(s: &[u8], n: u32, number: u64, slots: &mut [u32]) -> u32
    ensures { (result, slots.new) ≡ laid (fill_leaf_numbered s.now n number (length slots.old)) (λ values. values) slots.old }
{
    leaf_calls::fill_leaf_numbered(s, n, number, slots)
}

// Writes the values of the leaves from a number on, 512 slots each, of the grid of this name.
pub fn vdb_fill_leaves_named(s: &[u8], name: &[u8], first: u64, slots: &mut [u32]) -> u32
    ensures { (result, slots.new) ≡ laid (fill_leaves_named s.now name.now first (length slots.old)) (λ values. values) slots.old }
{
    leaf_calls::fill_leaves_named(s, name, first, slots)
}

// The same for the grid with this number, from 0.
pub fn vdb_fill_leaves_numbered(s: &[u8], n: u32, first: u64, slots: &mut [u32]) -> u32
    ensures { (result, slots.new) ≡ laid (fill_leaves_numbered s.now n first (length slots.old)) (λ values. values) slots.old }
{
    leaf_calls::fill_leaves_numbered(s, n, first, slots)
}

// Writes the origins of the leaves from a number on, into three slices of one length, of the grid of this name.
pub fn vdb_leaf_origins_named(
    s: &[u8],
    name: &[u8],
    first: u64,
    x: &mut [i32],
    y: &mut [i32],
    z: &mut [i32],
) -> u32
    ensures { (result, axes x.new y.new z.new) ≡ laid (leaf_origins_named s.now name.now first (length x.old) (length y.old) (length z.old)) (λ origins. origins) (axes x.old y.old z.old) }
{
    leaf_calls::leaf_origins_named(s, name, first, x, y, z)
}

// The same for the grid with this number, from 0.
pub fn vdb_leaf_origins_numbered(
    s: &[u8],
    n: u32,
    first: u64,
    x: &mut [i32],
    y: &mut [i32],
    z: &mut [i32],
) -> u32
    ensures { (result, axes x.new y.new z.new) ≡ laid (leaf_origins_numbered s.now n first (length x.old) (length y.old) (length z.old)) (λ origins. origins) (axes x.old y.old z.old) }
{
    leaf_calls::leaf_origins_numbered(s, n, first, x, y, z)
}
