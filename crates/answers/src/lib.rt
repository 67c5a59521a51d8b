// Section 2 of document 01: the answers of a file, by name and by number. Each opens the whole file first.
#![tactic(auto)]

ghost use Rattle.std.specs.Prelude.{◌≡◌};
ghost use Rattle.fields.specs.Says.{says_answer};
ghost use Rattle.archive.specs.Archive.{open_file, grid_asked, grid_named, grid_numbered, entry_at, file_entry, grid_entry, grid_entry_named, grid_entry_numbered};

use archive::Asked;
use descriptor::GridDescriptor;
use fields::ParseError;
use header::ArchiveHeader;
use metadata::MetadataValue;

// Opens the file.
pub fn open_file(s: &[u8]) -> Result<ArchiveHeader, ParseError>
    ensures { says_answer result ≡ open_file s.now }
{
    let file = archive::read_file(s, Asked::Nothing, b"")?;
    Ok(file.header)
}

// The descriptor that is asked for.
pub fn grid_asked(s: &[u8], asked: Asked, name: &[u8]) -> Result<GridDescriptor, ParseError>
    ensures { says_answer result ≡ grid_asked s.now asked name.now }
{
    let file = archive::read_file(s, asked, name)?;
    file.grid.ok_or(ParseError::NotFound)
}

// The descriptor of the grid of this name.
pub fn grid_named(s: &[u8], name: &[u8]) -> Result<GridDescriptor, ParseError>
    ensures { says_answer result ≡ grid_named s.now name.now }
{
    grid_asked(s, Asked::ByName, name)
}

// The descriptor of the grid with this number, from 0.
pub fn grid_numbered(s: &[u8], n: u32) -> Result<GridDescriptor, ParseError>
    ensures { says_answer result ≡ grid_numbered s.now n }
{
    grid_asked(s, Asked::ByNumber(n), b"")
}

// The last entry of this name in the metadata at `at`.
fn entry_at(s: &[u8], name: &[u8], at: usize) -> Result<MetadataValue, ParseError>
    ensures { says_answer result ≡ entry_at s.now name.now at }
{
    let (found, _) = metadata::read_metadata(s, name, at)?;
    let e = found.ok_or(ParseError::NotFound)?;
    Ok(e.value)
}

// An entry of the file's metadata.
pub fn file_entry(s: &[u8], name: &[u8]) -> Result<MetadataValue, ParseError>
    ensures { says_answer result ≡ file_entry s.now name.now }
{
    let h = open_file(s)?;
    entry_at(s, name, h.meta_pos)
}

// An entry of the metadata of the grid that is asked for.
fn grid_entry(s: &[u8], asked: Asked, grid: &[u8], name: &[u8]) -> Result<MetadataValue, ParseError>
    ensures { says_answer result ≡ grid_entry s.now asked grid.now name.now }
{
    let d = grid_asked(s, asked, grid)?;
    entry_at(s, name, d.meta_pos)
}

// An entry of the metadata of the grid of this name.
pub fn grid_entry_named(s: &[u8], grid: &[u8], name: &[u8]) -> Result<MetadataValue, ParseError>
    ensures { says_answer result ≡ grid_entry_named s.now grid.now name.now }
{
    grid_entry(s, Asked::ByName, grid, name)
}

// An entry of the metadata of the grid with this number, from 0.
pub fn grid_entry_numbered(s: &[u8], n: u32, name: &[u8]) -> Result<MetadataValue, ParseError>
    ensures { says_answer result ≡ grid_entry_numbered s.now n name.now }
{
    grid_entry(s, Asked::ByNumber(n), b"", name)
}
