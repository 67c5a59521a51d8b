// Section 2 of document 01: metadata entries, and of several of one name the last.
#![tactic(auto)]

ghost use Rattle.std.specs.Prelude.{◌≡◌, ◌-◌, Some};
ghost use Rattle.fields.specs.Parse.{when};
ghost use Rattle.fields.specs.Fields.{bytes_of, same_bytes};
ghost use Rattle.fields.specs.Says.{says};
ghost use Rattle.metadata.specs.Metadata.{value_kind, kind_field, value_field, entry, lookup};

use fields::{Field, IVec3, Span};

// The kinds that are told apart.
#[derive(Clone, Copy, PartialEq, Eq)]
pub enum ValueKind {
    String,
    Bool,
    Int32,
    Int64,
    Float,
    Vec3i,
    Other,
}

// The name of a kind, with what it stands for.
#[derive(Clone, Copy)]
pub struct NamedKind {
    pub name: Span,
    pub kind: ValueKind,
}

// A value; a float is its 32-bit pattern, strings and raw values are start and length in the file.
#[derive(Clone, Copy)]
pub enum MetadataValue {
    String(Span),
    Bool(bool),
    I32(i32),
    I64(i64),
    Float(u32),
    Vec3i(IVec3),
    // the kind's name, and the raw bytes
    Unknown(Span, Span),
}

// An entry; whole is where all of it stands in the file.
#[derive(Clone, Copy)]
pub struct Entry {
    pub name: Span,
    pub value: MetadataValue,
    pub whole: Span,
}

// The kind that a kind's name stands for. Not a match on byte strings: its last arm gives a proof no fact about the name.
pub fn value_kind(k: &[u8]) -> ValueKind
    ensures { result ≡ value_kind k.now }
{
    if fields::same_bytes(k, b"string") {
        return ValueKind::String;
    }
    if fields::same_bytes(k, b"bool") {
        return ValueKind::Bool;
    }
    if fields::same_bytes(k, b"int32") {
        return ValueKind::Int32;
    }
    if fields::same_bytes(k, b"int64") {
        return ValueKind::Int64;
    }
    if fields::same_bytes(k, b"float") {
        return ValueKind::Float;
    }
    if fields::same_bytes(k, b"vec3i") {
        return ValueKind::Vec3i;
    }
    ValueKind::Other
}

// A kind's name at `at`, with what it stands for.
pub fn read_kind(s: &[u8], at: usize) -> Field<NamedKind>
    ensures { says result ≡ kind_field s.now at }
{
    let (name, p) = fields::read_name(s, at)?;
    let kind = value_kind(fields::bytes_of(s, name));
    Ok((NamedKind { name, kind }, p))
}

// The value at `at` of an entry of this kind, whose kind's name is k and whose length field is n.
pub fn read_value(s: &[u8], kind: ValueKind, k: Span, n: usize, at: usize) -> Field<MetadataValue>
    ensures { says result ≡ value_field s.now kind k n at }
{
    match kind {
        ValueKind::String => {
            let (w, e) = fields::read_bytes(s, at, n)?;
            Ok((MetadataValue::String(w), e))
        }
        ValueKind::Bool => {
            let (b, e) = fields::read_u8(s, at)?;
            Ok((MetadataValue::Bool(b != 0), e))
        }
        ValueKind::Int32 => {
            let (v, e) = fields::read_i32(s, at)?;
            Ok((MetadataValue::I32(v), e))
        }
        ValueKind::Int64 => {
            let (v, e) = fields::read_i64(s, at)?;
            Ok((MetadataValue::I64(v), e))
        }
        ValueKind::Float => {
            let (v, e) = fields::read_u32(s, at)?;
            Ok((MetadataValue::Float(v), e))
        }
        ValueKind::Vec3i => {
            let (v, e) = fields::read_i_vec3(s, at)?;
            Ok((MetadataValue::Vec3i(v), e))
        }
        ValueKind::Other => {
            let (w, e) = fields::read_bytes(s, at, n)?;
            Ok((MetadataValue::Unknown(k, w), e))
        }
    }
}

// The entry at `at`: name, kind's name, length, value. That it ends behind its start is not known here, and saturating_sub needs no proof of it.
pub fn read_entry(s: &[u8], at: usize) -> Field<Entry>
    ensures { says result ≡ entry s.now at }
{
    let (name, p) = fields::read_name(s, at)?;
    let (k, q) = read_kind(s, p)?;
    let (n, r) = fields::read_u32(s, q)?;
    let (value, e) = read_value(s, k.kind, k.name, n as usize, r)?;
    let whole = Span {
        start: at,
        len: e.saturating_sub(at),
    };
    Ok((Entry { name, value, whole }, e))
}

// An entry of this name takes the place of what was found before it.
fn newer(s: &[u8], name: &[u8], e: Entry, best: Option<Entry>) -> Option<Entry>
    ensures { result ≡ when (same_bytes (bytes_of s.now e.name) name.now) (Some e) best }
{
    if fields::has_bytes(s, e.name, name) {
        return Some(e);
    }
    best
}

// The metadata at `at` and the position after it, with the last entry of this name.
pub fn read_metadata(s: &[u8], name: &[u8], at: usize) -> Field<Option<Entry>>
    ensures { says result ≡ lookup s.now name.now at }
{
    let (n, first) = fields::read_u32(s, at)?;
    let mut p = first;
    let mut found = None;
    for _ in 0..n {
        let (e, q) = read_entry(s, p)?;
        found = newer(s, name, e, found);
        p = q;
    }
    Ok((found, p))
}
