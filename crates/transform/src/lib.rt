// Section 3 of document 01: the transform, one of two maps, each with its doubles.
#![tactic(auto)]

ghost use Rattle.std.specs.Prelude.{◌≡◌};
ghost use Rattle.fields.specs.Says.{says};
ghost use Rattle.transform.specs.Transform.{map_kind, map_kind_field, scale_field, scale_translate_field, map_field, transform};

use fields::{DVec3, Field, ParseError};

// The vectors of UniformScaleMap and ScaleMap, in the file's order.
#[derive(Drop)]
pub struct Scale {
    pub scale_values: DVec3,
    pub voxel_size: DVec3,
    pub scale_values_inverse: DVec3,
    pub inv_scale_sqr: DVec3,
    pub inv_twice_scale: DVec3,
}

// The vectors of UniformScaleTranslateMap and ScaleTranslateMap, in the file's order.
#[derive(Drop)]
pub struct ScaleTranslate {
    pub translation: DVec3,
    pub scale_values: DVec3,
    pub voxel_size: DVec3,
    pub scale_values_inverse: DVec3,
    pub inv_scale_sqr: DVec3,
    pub inv_twice_scale: DVec3,
}

#[derive(Drop)]
pub enum Map {
    UniformScaleMap(Scale),
    ScaleTranslateMap(ScaleTranslate),
}

// Which map a name stands for.
#[derive(Drop)]
pub enum MapKind {
    Scale,
    ScaleTranslate,
    Other,
}

// The map that a name stands for: two names each. Not a match on byte strings: its last arm gives a proof no fact about the name.
pub fn map_kind(name: &[u8]) -> MapKind
    ensures { result ≡ map_kind name.now }
{
    if fields::same_bytes(name, b"UniformScaleMap") || fields::same_bytes(name, b"ScaleMap") {
        return MapKind::Scale;
    }
    if fields::same_bytes(name, b"UniformScaleTranslateMap")
        || fields::same_bytes(name, b"ScaleTranslateMap")
    {
        return MapKind::ScaleTranslate;
    }
    MapKind::Other
}

// A map's name, by the map that it stands for.
pub fn read_map_kind(s: &[u8], at: usize) -> Field<MapKind>
    ensures { says result ≡ map_kind_field s.now at }
{
    let (name, p) = fields::read_name(s, at)?;
    Ok((map_kind(fields::bytes_of(s, name)), p))
}

// The five vectors that both maps have.
pub fn read_scale(s: &[u8], at: usize) -> Field<Scale>
    ensures { says result ≡ scale_field s.now at }
{
    let (scale_values, p) = fields::read_d_vec3(s, at)?;
    let (voxel_size, q) = fields::read_d_vec3(s, p)?;
    let (scale_values_inverse, r) = fields::read_d_vec3(s, q)?;
    let (inv_scale_sqr, t) = fields::read_d_vec3(s, r)?;
    let (inv_twice_scale, n) = fields::read_d_vec3(s, t)?;
    let v = Scale {
        scale_values,
        voxel_size,
        scale_values_inverse,
        inv_scale_sqr,
        inv_twice_scale,
    };
    Ok((v, n))
}

// The translation, then those five.
pub fn read_scale_translate(s: &[u8], at: usize) -> Field<ScaleTranslate>
    ensures { says result ≡ scale_translate_field s.now at }
{
    let (translation, p) = fields::read_d_vec3(s, at)?;
    let (v, n) = read_scale(s, p)?;
    let v = ScaleTranslate {
        translation,
        scale_values: v.scale_values,
        voxel_size: v.voxel_size,
        scale_values_inverse: v.scale_values_inverse,
        inv_scale_sqr: v.inv_scale_sqr,
        inv_twice_scale: v.inv_twice_scale,
    };
    Ok((v, n))
}

// The vectors at `at` of a map of this kind. A name that stands for no map is check 14, and a vector that is not whole check 2.
pub fn read_map(s: &[u8], kind: MapKind, at: usize) -> Field<Map>
    ensures { says result ≡ map_field s.now kind at }
{
    match kind {
        MapKind::Scale => {
            let (v, n) = read_scale(s, at)?;
            Ok((Map::UniformScaleMap(v), n))
        }
        MapKind::ScaleTranslate => {
            let (v, n) = read_scale_translate(s, at)?;
            Ok((Map::ScaleTranslateMap(v), n))
        }
        MapKind::Other => Err(ParseError::UnsupportedMap),
    }
}

// A map's name, then its vectors.
pub fn read_transform(s: &[u8], at: usize) -> Field<Map>
    ensures { says result ≡ transform s.now at }
{
    let (kind, p) = read_map_kind(s, at)?;
    read_map(s, kind, p)
}
