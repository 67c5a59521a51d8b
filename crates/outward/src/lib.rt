// What an answer looks like as plain words, for a caller in another language: the words of a header, of a descriptor, of an entry and of an opened grid;
// and how an answer's words are laid into what a call was lent.
#![tactic(auto)]

ghost use Rattle.std.specs.Prelude.{◌≡◌, ◌+◌, ◌*◌, ◌≤◌, length, MatchResult};
ghost use Rattle.std.specs.Result.{ForOk};
ghost use Rattle.fields.specs.Says.{number};
ghost use Rattle.outward.specs.Outward.{half_number, header_words, descriptor_words, entry_words, double_count, double_at, opened_words};
ghost use Rattle.outward.specs.Inner.{DoublesHeld};

use descriptor::GridDescriptor;
use fields::ParseError;
use grid::OpenedGrid;
use header::ArchiveHeader;
use metadata::MetadataValue;
use transform::Map;

pub fn header_words(h: ArchiveHeader) -> [u64; 8]
    ensures { result ≡ header_words h }
{
    [
        u64::from(h.file_version),
        u64::from(h.library_version_major),
        u64::from(h.library_version_minor),
        u64::from(h.packed),
        h.guid.start as u64,
        h.guid.len as u64,
        h.meta_pos as u64,
        u64::from(h.grid_count),
    ]
}

fn half_number(half: Option<bool>) -> u64
    ensures { result ≡ half_number half }
{
    match half {
        None => 0,
        Some(false) => 1,
        Some(true) => 2,
    }
}

pub fn descriptor_words(d: GridDescriptor) -> [u64; 16]
    ensures { result ≡ descriptor_words d }
{
    [
        d.name.start as u64,
        d.name.len as u64,
        d.grid_type.start as u64,
        d.grid_type.len as u64,
        d.instance_parent.start as u64,
        d.instance_parent.len as u64,
        d.grid_pos as u64,
        d.block_pos as u64,
        d.end_pos as u64,
        u64::from(d.compression),
        half_number(d.half),
        d.meta_pos as u64,
        d.tree_pos as u64,
        grid::width_of(d.half, d.kind) as u64,
        0,
        0,
    ]
}

pub fn entry_words(v: MetadataValue) -> [u64; 5]
    ensures { result ≡ entry_words v }
{
    match v {
        MetadataValue::String(w) => [0, w.start as u64, w.len as u64, 0, 0],
        MetadataValue::Bool(b) => [1, u64::from(b), 0, 0, 0],
        MetadataValue::I32(n) => [2, words::coord_word(n), 0, 0, 0],
        MetadataValue::I64(n) => [3, words::pattern_of(n), 0, 0, 0],
        MetadataValue::Float(n) => [4, u64::from(n), 0, 0, 0],
        MetadataValue::Vec3i(v) => [
            5,
            words::coord_word(v.x),
            words::coord_word(v.y),
            words::coord_word(v.z),
            0,
        ],
        MetadataValue::Unknown(kind, w) => [
            6,
            w.start as u64,
            w.len as u64,
            kind.start as u64,
            kind.len as u64,
        ],
    }
}

// How many doubles a map has.
fn double_count(map: Map) -> usize
    ensures { (result ≡ double_count map) × (result ≤ 18) }
{
    match map {
        Map::UniformScaleMap(_) => 15,
        Map::ScaleTranslateMap(_) => 18,
    }
}

// The pattern of the double with the number i of `count` doubles from `start` on; past them it is 0.
fn double_at(s: &[u8], start: usize, count: usize, i: usize) -> u64
    requires { (start + 8 * count ≤ length s.now) × (count ≤ 18) }
    ensures { result ≡ double_at s.now start count i }
{
    if i < count {
        fields::u64_at(s, start + 8 * i)
    } else {
        0
    }
}

pub fn opened_words(s: &[u8], g: OpenedGrid) -> [u64; 32]
    requires { DoublesHeld s.now g }
    ensures { result ≡ opened_words s.now g }
{
    let count = double_count(g.transform);
    let start = g.transform_end - 8 * count;
    let mut out = [0; 32];
    out[0] = u64::from(g.background);
    out[1] = g.active_count;
    out[2] = g.leaf_count;
    out[3] = u64::from(g.place.start.tile_count);
    out[4] = count as u64;
    out[5] = start as u64;
    for i in 0..26 {
        out[6 + i] = double_at(s, start, count, i);
    }
    out
}

// Lays the words of what an answer gives into what was lent, and returns 0; or returns the number of the check that refused.
pub fn lay<T, W: Drop, F: FnOnce(T) -> W>(
    answer: Result<T, ParseError>,
    words: F,
    out: &mut W,
) -> u32
    requires { ForOk answer (F.pre words) }
    ensures { MatchResult answer (λ a. (result ≡ 0) × F.post words a out.new) (λ e. (result ≡ number e) × (out.new ≡ out.old)) }
{
    match answer {
        Ok(a) => {
            *out = words(a);
            0
        }
        Err(e) => u32::from(e),
    }
}
