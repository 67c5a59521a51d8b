// Section 1 of document 01: a reader is the file's bytes with a reading position. The work is done by the crate fields, over a slice and a number;
// here a field is read where the reader stands, and the reader is moved on.
#![tactic(auto)]

ghost use Rattle.std.specs.Prelude.{◌≡◌};
ghost use Rattle.fields.specs.Fields.{u32_field, i_vec3_field, d_vec3_field, bytes_field, string_field};
ghost use Rattle.fields.specs.Says.{says};
ghost use Rattle.descriptor.specs.Descriptor.{names_field};
ghost use Rattle.reader.specs.Reader.{reader_at, next_at, reading, versions_field};

use descriptor::GridNames;
use fields::{DVec3, Field, IVec3, Span};

// The file's bytes and the position of the next field.
#[derive(Drop)]
pub struct Reader<'a> {
    pub src: &'a [u8],
    pub at: usize,
}

// Three of the header's numbers: the file's version, and two of the library that wrote it.
#[derive(Drop)]
pub struct Versions {
    pub file_version: u32,
    pub library_version_major: u32,
    pub library_version_minor: u32,
}

// A reader at the file's start.
pub fn new<'a>(src: &'a [u8]) -> Reader<'a>
    ensures { result ≡ reader_at src.entry 0 }
{
    Reader { src, at: 0 }
}

// Where a reader that stood at `at` stands after a field.
fn after<T>(f: &Field<T>, at: usize) -> usize
    ensures { result ≡ next_at (says f.now) at }
{
    match f {
        Ok((_, n)) => *n,
        Err(_) => at,
    }
}

// The fields of section 1, with the names of the Rust: what stands at the reader's position. The reader is moved on behind it; a field that runs past the
// end leaves the reader where it stood.
pub fn read_u32<'s, 'a>(reader: &'s mut Reader<'a>) -> Field<u32>
    ensures { (says result, reader.new) ≡ reading u32_field reader.old }
{
    let f = fields::read_u32(reader.src, reader.at);
    reader.at = after(&f, reader.at);
    f
}

pub fn read_i_vec3<'s, 'a>(reader: &'s mut Reader<'a>) -> Field<IVec3>
    ensures { (says result, reader.new) ≡ reading i_vec3_field reader.old }
{
    let f = fields::read_i_vec3(reader.src, reader.at);
    reader.at = after(&f, reader.at);
    f
}

pub fn read_d_vec3<'s, 'a>(reader: &'s mut Reader<'a>) -> Field<DVec3>
    ensures { (says result, reader.new) ≡ reading d_vec3_field reader.old }
{
    let f = fields::read_d_vec3(reader.src, reader.at);
    reader.at = after(&f, reader.at);
    f
}

// A string's bytes, where its length is known.
pub fn read_string<'s, 'a>(reader: &'s mut Reader<'a>, len: usize) -> Field<Span>
    ensures { (says result, reader.new) ≡ reading (λ s at. bytes_field s len at) reader.old }
{
    let f = fields::read_bytes(reader.src, reader.at, len);
    reader.at = after(&f, reader.at);
    f
}

// A string with its length before it.
pub fn read_name<'s, 'a>(reader: &'s mut Reader<'a>) -> Field<Span>
    ensures { (says result, reader.new) ≡ reading string_field reader.old }
{
    let f = fields::read_name(reader.src, reader.at);
    reader.at = after(&f, reader.at);
    f
}

// A descriptor's three names, read by a reader. Its parameters are a slice and a number, so that a caller needs to know nothing of readers.
pub fn read_names(s: &[u8], at: usize) -> Field<GridNames>
    ensures { says result ≡ names_field s.now at }
{
    let mut reader = new(s);
    reader.at = at;
    let (name, _) = read_name(&mut reader)?;
    let (grid_type, _) = read_name(&mut reader)?;
    let (instance_parent, n) = read_name(&mut reader)?;
    let names = GridNames {
        name,
        grid_type,
        instance_parent,
    };
    Ok((names, n))
}

// The header's three numbers, read by a reader, as they stand there: whether the version is one that is covered is asked by the crate header.
pub fn read_versions(s: &[u8], at: usize) -> Field<Versions>
    ensures { says result ≡ versions_field s.now at }
{
    let mut reader = new(s);
    reader.at = at;
    let (file_version, _) = read_u32(&mut reader)?;
    let (library_version_major, _) = read_u32(&mut reader)?;
    let (library_version_minor, n) = read_u32(&mut reader)?;
    let versions = Versions {
        file_version,
        library_version_major,
        library_version_minor,
    };
    Ok((versions, n))
}
