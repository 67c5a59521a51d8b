// The questions to the layers below:
//
//     Fields AT                                      a field of each kind
//     Mask AT BYTES PLACE                            a mask, and a place of it
//     Two AT AT BYTES                                two masks compared
//     Halves FROM TO                                 the sum of halves widened
//     Stored AT WIDTH                                a stored value
//     Node FROM TO VERSION FLAGS WIDTH BYTES         the sum of a node's places; its child mask is at 0, its value mask and its values follow
//     Place P5 P4 P3                                 places below the root whose origin is at 0
//     Voxel                                          the root of the voxel at 0, and its places
use asking::{line, series, show};
use coordinates::{GlobalCoord, Index};
use fields::Field;
use forms::{Coding, Stored};
use std::io::{self, Write};

// A field's value, or that there is none.
fn field<W: Write, T: Drop, F: FnOnce(&mut W, T) -> io::Result<()>>(
    out: &mut W,
    a: Field<T>,
    shown: F,
) -> io::Result<()>
    requires { F.IsAlwaysCallable shown }
{
    match a {
        Ok((v, _)) => shown(out, v),
        Err(_) => show::nothing(out),
    }
}

fn numbers(out: &mut impl Write, s: &[u8], at: usize) -> io::Result<()> {
    field(
        out,
        fields::read_u8(s, at),
        |out, v| show::small(out, u32::from(v)),
    )?;
    field(out, fields::read_u32(s, at), |out, v| show::small(out, v))?;
    field(out, fields::read_u64(s, at), |out, v| show::number(out, v))?;
    field(
        out,
        fields::read_i32(s, at),
        |out, v| show::signed32(out, v),
    )?;
    field(out, fields::read_i64(s, at), |out, v| show::signed(out, v))
}

fn fields_at(out: &mut impl Write, s: &[u8], at: usize) -> io::Result<()> {
    numbers(out, s, at)?;
    field(out, fields::read_u64(s, at), |out, v| {
        show::double(out, fields::f64_of(v))
    })?;
    field(
        out,
        fields::read_i_vec3(s, at),
        |out, v| show::i_vec3(out, v),
    )?;
    field(
        out,
        fields::read_d_vec3(s, at),
        |out, v| show::d_vec3(out, v),
    )?;
    field(
        out,
        fields::read_name(s, at),
        |out, w| show::span(out, s, w),
    )
}

fn half(i: usize) -> u64 {
    u64::from(half::widen((i % 65536) as u16))
}

// The value of place p of the node whose child mask stands at 0: 4294967296 and the refusal where the values are refused, 8589934592 where the
// place has a child. Past the last place: where the values end.
fn value_of(
    s: &[u8],
    version: u32,
    flags: u32,
    width: usize,
    n: usize,
    background: u32,
    p: usize,
) -> u64 {
    let bytes = n / 8 % 513 * 8;
    let coding = Coding {
        version,
        flags,
        width: 4 - width / 2 % 2 * 2,
        background,
    };
    if s.len() < 2 * bytes {
        return 0;
    }
    match runs::read_values(s, coding, Stored::Childless, bytes, 0, bytes, 2 * bytes) {
        Err(e) => 4294967296 + u64::from(u32::from(e)),
        Ok((v, end)) => {
            if 8 * bytes <= p {
                return end as u64;
            }
            if masks::bit(s, 0, bytes, Index(p as u32)) {
                return 8589934592;
            }
            u64::from(values::place_value(s, coding, bytes, 0, bytes, v, Index(p as u32)))
        }
    }
}

fn place(s: &[u8], n: &[u64; 8], p: usize) -> u64 {
    value_of(
        s,
        line::low(n[3]),
        line::low(n[4]),
        n[5] as usize,
        n[6] as usize,
        line::low(n[7]),
        p,
    )
}

fn next(out: &mut impl Write, a: Option<Index>) -> io::Result<()> {
    match a {
        Some(q) => show::small(out, q.0),
        None => show::nothing(out),
    }
}

fn mask(out: &mut impl Write, s: &[u8], start: usize, n: usize, place: usize) -> io::Result<()> {
    let at = start % 8192;
    let bytes = n / 8 % 513 * 8;
    let p = place % 32769;
    if s.len() < 16384 {
        return Ok(());
    }
    show::small(out, masks::count_ones(s, at, bytes))?;
    show::small(out, masks::count_zeros(s, at, bytes))?;
    if 8 * bytes < p {
        return Ok(());
    }
    let q = Index(p as u32);
    show::small(out, masks::count_ones_below(s, at, bytes, q))?;
    show::small(out, masks::count_zeros_below(s, at, bytes, q))?;
    next(out, masks::next_one(s, at, bytes, q))?;
    if p < 8 * bytes {
        show::flag(out, masks::bit(s, at, bytes, q))?;
    }
    Ok(())
}

fn two(out: &mut impl Write, s: &[u8], one: usize, other: usize, n: usize) -> io::Result<()> {
    let a = one % 8192;
    let b = other % 8192;
    let bytes = n / 8 % 513 * 8;
    if s.len() < 16384 {
        return Ok(());
    }
    show::flag(out, masks::masks_overlap(s, a, b, bytes))?;
    show::flag(out, masks::masks_equal(s, a, b, bytes))
}

fn stored(out: &mut impl Write, s: &[u8], at: usize, width: usize) -> io::Result<()> {
    if s.len() < 4 || s.len() - 4 < at {
        return Ok(());
    }
    show::pattern(out, half::value_at(s, at, if width == 2 { 2 } else { 4 }))
}

fn coord(out: &mut impl Write, v: GlobalCoord) -> io::Result<()> {
    show::signed32(out, v.0)?;
    show::signed32(out, v.1)?;
    show::signed32(out, v.2)
}

// The vector at 0.
fn vector(s: &[u8]) -> GlobalCoord {
    match fields::read_i_vec3(s, 0) {
        Ok((v, _)) => coordinates::origin_of(v),
        Err(_) => GlobalCoord(0, 0, 0),
    }
}

// The corners of a 5-node's place, of a place of the 4-node there, and of a place of the leaf there.
fn down(out: &mut impl Write, root: GlobalCoord, p: u32, q: u32, r: u32) -> io::Result<()> {
    coord(out, root)?;
    if coordinates::is_aligned(root, 4096) {
        let node_4 = coordinates::offset_to_global_coord(Index(p % 32768), 32, 128, root);
        coord(out, node_4)?;
        let leaf = coordinates::offset_to_global_coord(Index(q % 4096), 16, 8, node_4);
        coord(out, leaf)?;
        coord(
            out,
            coordinates::offset_to_global_coord(Index(r % 512), 8, 1, leaf),
        )?;
    }
    Ok(())
}

// A place's number, and the place.
fn index(out: &mut impl Write, p: Index, side: u32) -> io::Result<()> {
    if side == 0 {
        return Ok(());
    }
    let l = coordinates::offset_to_local_coord(p, side);
    show::small(out, p.0)?;
    show::small(out, l.0)?;
    show::small(out, l.1)?;
    show::small(out, l.2)
}

// The origin of the root, and the places on the way down.
fn back(out: &mut impl Write, v: GlobalCoord) -> io::Result<()> {
    coord(out, v)?;
    coord(out, coordinates::root_origin(v))?;
    index(out, coordinates::global_coord_to_offset(v, 32, 128), 32)?;
    index(out, coordinates::global_coord_to_offset(v, 16, 8), 16)?;
    index(out, coordinates::global_coord_to_offset(v, 8, 1), 8)
}

pub fn ask(out: &mut impl Write, command: u8, s: &[u8], n: &[u64; 8]) -> io::Result<()> {
    let a = n[1] as usize;
    let b = n[2] as usize;
    let c = n[3] as usize;
    match command {
        b'F' => fields_at(out, s, a),
        b'M' => mask(out, s, a, b, c),
        b'D' => two(out, s, a, b, c),
        b'H' => series::row(out, a, b, half),
        b'N' => series::row(out, a, b, |p| place(s, n, p)),
        b'S' => stored(out, s, a, b),
        b'P' => down(
            out,
            vector(s),
            line::low(n[1]),
            line::low(n[2]),
            line::low(n[3]),
        ),
        b'V' => back(out, vector(s)),
        _ => Ok(()),
    }
}
