// Section 2 of document 01: the header.
#![tactic(auto)]

ghost use Rattle.std.specs.Prelude.{◌≡◌};
ghost use Rattle.header.specs.Header.{magic_field, version_field, offsets_field, packed_field, front_field, count_field, header};
ghost use Rattle.fields.specs.Inner.{says_end};
ghost use Rattle.fields.specs.Says.{says};

use fields::{Field, ParseError, Span};

// What stands before the identity: the version, the library's two numbers, and whether the file is packed.
#[derive(Clone, Copy)]
pub struct Front {
    pub version: u32,
    pub major: u32,
    pub minor: u32,
    pub packed: bool,
}

// What stands before the descriptors; meta_pos is where the file's metadata starts.
#[derive(Clone, Copy)]
pub struct ArchiveHeader {
    pub file_version: u32,
    pub library_version_major: u32,
    pub library_version_minor: u32,
    // the byte of versions 220 and 221
    pub packed: bool,
    pub guid: Span,
    pub meta_pos: usize,
    pub grid_count: u32,
}

// The eight bytes that a file starts with, check 3.
pub fn read_magic(s: &[u8], at: usize) -> Result<usize, ParseError>
    ensures { says_end result ≡ magic_field s.now at }
{
    let (m, p) = fields::read_bytes(s, at, 8)?;
    if !fields::has_bytes(s, m, b" BDV\0\0\0\0") {
        return Err(ParseError::MagicMismatch);
    }
    Ok(p)
}

// The version, check 4.
pub fn read_version(s: &[u8], at: usize) -> Field<u32>
    ensures { says result ≡ version_field s.now at }
{
    let (v, p) = fields::read_u32(s, at)?;
    if v < 220 || 224 < v {
        return Err(ParseError::UnsupportedVersion);
    }
    Ok((v, p))
}

// The offsets byte, check 5.
pub fn read_offsets(s: &[u8], at: usize) -> Field<u8>
    ensures { says result ≡ offsets_field s.now at }
{
    let (b, p) = fields::read_u8(s, at)?;
    if b != 1 {
        return Err(ParseError::NoGridOffsets);
    }
    Ok((b, p))
}

// Whether the file is packed, which a byte says before version 222.
pub fn read_packed(s: &[u8], version: u32, at: usize) -> Field<bool>
    ensures { says result ≡ packed_field s.now version at }
{
    if 222 <= version {
        return Ok((false, at));
    }
    let (b, p) = fields::read_u8(s, at)?;
    Ok((b != 0, p))
}

// What stands before the identity.
pub fn read_front(s: &[u8], at: usize) -> Field<Front>
    ensures { says result ≡ front_field s.now at }
{
    let o = read_magic(s, at)?;
    let (version, p) = read_version(s, o)?;
    let (major, q) = fields::read_u32(s, p)?;
    let (minor, r) = fields::read_u32(s, q)?;
    let (_, t) = read_offsets(s, r)?;
    let (packed, n) = read_packed(s, version, t)?;
    let front = Front {
        version,
        major,
        minor,
        packed,
    };
    Ok((front, n))
}

// How many grids there are, check 8.
pub fn read_count(s: &[u8], at: usize) -> Field<u32>
    ensures { says result ≡ count_field s.now at }
{
    let (n, p) = fields::read_u32(s, at)?;
    if 64 < n {
        return Err(ParseError::TooManyGrids);
    }
    Ok((n, p))
}

// The header, check 1 first. Of the file's metadata only its end is wanted, so no entry is asked for.
pub fn read_header(s: &[u8]) -> Field<ArchiveHeader>
    ensures { says result ≡ header s.now }
{
    if 2147483647 < s.len() {
        return Err(ParseError::FileTooLong);
    }
    let (front, p) = read_front(s, 0)?;
    let (guid, q) = fields::read_bytes(s, p, 36)?;
    let (_, r) = metadata::read_metadata(s, b"", q)?;
    let (count, n) = read_count(s, r)?;
    let h = ArchiveHeader {
        file_version: front.version,
        library_version_major: front.major,
        library_version_minor: front.minor,
        packed: front.packed,
        guid,
        meta_pos: q,
        grid_count: count,
    };
    Ok((h, n))
}
