// Section 2 of document 01: the whole file, with the grid that is asked for.
#![tactic(auto)]

ghost use Rattle.std.specs.Prelude.{◌≡◌, ◌≤◌, ◌<◌, [], length, true, false, Some, None};
ghost use Rattle.fields.specs.Parse.{when};
ghost use Rattle.fields.specs.Fields.{same_bytes};
ghost use Rattle.fields.specs.Says.{says, says_answer};
ghost use Rattle.archive.specs.Archive.{repeated, is_asked, file_asked};
ghost use Rattle.archive.specs.Inner.{next_field, grids_field};

use descriptor::GridDescriptor;
use fields::{Difference, Field, ParseError, Span};
use header::ArchiveHeader;

// Which grid is asked for, if any; a name stands beside it.
#[derive(Clone, Copy)]
pub enum Asked {
    Nothing,
    ByName,
    ByNumber(u32),
}

// An opened file: its header, and the grid that was asked for, if it is there.
#[derive(Clone, Copy)]
pub struct AskedFile {
    pub header: ArchiveHeader,
    pub grid: Option<GridDescriptor>,
}

// Whether two names are known to differ: by their lengths, or at one of these places.
fn told_apart(a: &[u8], b: &[u8], places: &[usize]) -> bool
    ensures { result ≡ true → false ≡ same_bytes a.now b.now }
{
    if a.len() != b.len() {
        return true;
    }
    for &p in places {
        if p < a.len() && a[p] != b[p] {
            return true;
        }
    }
    false
}

// Whether the n-th name, b, is the earlier name a. Where they have to be compared whole, the place at which they differ is kept as the n-th: any
// two of the earlier names differ in length or at one of the places, so that at most one of them is compared whole with b.
fn same_name(a: &[u8], b: &[u8], places: &mut [usize; 64], n: usize) -> bool
    requires { n < 64 }
    ensures { result ≡ same_bytes a.now b.now }
{
    if told_apart(a, b, &places[..n]) {
        return false;
    }
    match fields::first_difference(a, b) {
        Difference::Nowhere => true,
        Difference::Lengths => false,
        Difference::At(p) => {
            places[n] = p;
            false
        }
    }
}

// Whether one of the earlier names has these bytes.
fn is_repeated(s: &[u8], names: &[Span], name: &[u8], places: &mut [usize; 64]) -> bool
    requires { length names.now < 64 }
    ensures { result ≡ repeated s.now name.now names.now }
{
    for &w in names {
        if same_name(fields::bytes_of(s, w), name, places, names.len()) {
            return true;
        }
    }
    false
}

// A descriptor that comes after those of the earlier names: check 10 once its grid's metadata is read.
fn read_next(
    s: &[u8],
    h: ArchiveHeader,
    names: &[Span],
    at: usize,
    places: &mut [usize; 64],
) -> Field<GridDescriptor>
    requires { length names.now < 64 }
    ensures { says result ≡ next_field s.now h names.now at }
{
    let (d, q) = descriptor::read_descriptor(s, h, at)?;
    if is_repeated(s, names, fields::bytes_of(s, d.name), places) {
        return Err(ParseError::RepeatedGridName);
    }
    Ok((d, q))
}

// Whether the descriptor with the number i is the one that is asked for.
fn is_asked(s: &[u8], asked: Asked, name: &[u8], i: u32, d: GridDescriptor) -> bool
    ensures { result ≡ is_asked s.now asked name.now i d }
{
    match asked {
        Asked::Nothing => false,
        Asked::ByName => fields::has_bytes(s, d.name, name),
        Asked::ByNumber(n) => i == n,
    }
}

// A grid that is asked for takes the place of what was found before it.
fn newer(
    s: &[u8],
    asked: Asked,
    name: &[u8],
    i: u32,
    d: GridDescriptor,
    best: Option<GridDescriptor>,
) -> Option<GridDescriptor>
    ensures { result ≡ when (is_asked s.now asked name.now i d) (Some d) best }
{
    if is_asked(s, asked, name, i, d) {
        return Some(d);
    }
    best
}

// The descriptors from `at` on, each checked, with the one that is asked for. The names passed so far are kept, so that none is read twice.
fn read_grids(
    s: &[u8],
    h: ArchiveHeader,
    asked: Asked,
    name: &[u8],
    at: usize,
) -> Field<Option<GridDescriptor>>
    requires { h.grid_count ≤ 64 }
    ensures { says result ≡ grids_field s.now h h.grid_count [] 0 asked name.now None at }
{
    let mut names = [Span { start: 0, len: 0 }; 64];
    let mut places = [0; 64];
    let mut found = None;
    let mut p = at;
    for i in 0..h.grid_count {
        let n = i as usize;
        let (d, q) = read_next(s, h, &names[..n], p, &mut places)?;
        names[n] = d.name;
        found = newer(s, asked, name, i, d, found);
        p = q;
    }
    Ok((found, p))
}

// The whole file, opened and checked, with the grid that is asked for.
pub fn read_file(s: &[u8], asked: Asked, name: &[u8]) -> Result<AskedFile, ParseError>
    ensures { says_answer result ≡ file_asked s.now asked name.now }
{
    let (header, p) = header::read_header(s)?;
    let (grid, _) = read_grids(s, header, asked, name, p)?;
    Ok(AskedFile { header, grid })
}
