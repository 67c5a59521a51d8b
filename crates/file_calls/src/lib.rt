// The questions about a file and its grids for a caller in another language: the answer's words are laid into a lent array. What is returned is 0, or the
// number of the check that refused; then nothing lent is changed.
#![tactic(auto)]

ghost use Rattle.std.specs.Prelude.{◌≡◌};
ghost use Rattle.archive.specs.Archive.{open_file, grid_named, grid_numbered, file_entry, grid_entry_named, grid_entry_numbered};
ghost use Rattle.outward.specs.Outward.{laid, header_words, descriptor_words, entry_words};

// Opens the file.
pub fn open_file(s: &[u8], out: &mut [u64; 8]) -> u32
    ensures { (result, out.new) ≡ laid (open_file s.now) header_words out.old }
{
    outward::lay(answers::open_file(s), outward::header_words, out)
}

// The descriptor of the grid of this name.
pub fn grid_named(s: &[u8], name: &[u8], out: &mut [u64; 16]) -> u32
    ensures { (result, out.new) ≡ laid (grid_named s.now name.now) descriptor_words out.old }
{
    outward::lay(answers::grid_named(s, name), outward::descriptor_words, out)
}

// The descriptor of the grid with this number, from 0.
pub fn grid_numbered(s: &[u8], n: u32, out: &mut [u64; 16]) -> u32
    ensures { (result, out.new) ≡ laid (grid_numbered s.now n) descriptor_words out.old }
{
    outward::lay(answers::grid_numbered(s, n), outward::descriptor_words, out)
}

// An entry of the file's metadata.
pub fn file_entry(s: &[u8], name: &[u8], out: &mut [u64; 5]) -> u32
    ensures { (result, out.new) ≡ laid (file_entry s.now name.now) entry_words out.old }
{
    outward::lay(answers::file_entry(s, name), outward::entry_words, out)
}

// An entry of the metadata of the grid of this name.
pub fn grid_entry_named(s: &[u8], grid: &[u8], name: &[u8], out: &mut [u64; 5]) -> u32
    ensures { (result, out.new) ≡ laid (grid_entry_named s.now grid.now name.now) entry_words out.old }
{
    outward::lay(
        answers::grid_entry_named(s, grid, name),
        outward::entry_words,
        out,
    )
}

// An entry of the metadata of the grid with this number, from 0.
pub fn grid_entry_numbered(s: &[u8], n: u32, name: &[u8], out: &mut [u64; 5]) -> u32
    ensures { (result, out.new) ≡ laid (grid_entry_numbered s.now n name.now) entry_words out.old }
{
    outward::lay(
        answers::grid_entry_numbered(s, n, name),
        outward::entry_words,
        out,
    )
}
