// Document 01, section 5: what stands before a node's stored values. The node byte selects one of seven forms, which says what the inactive places
// hold, with the grid's background where nothing is carried for them, and which places are stored. A node is given by the number n of bytes of each
// of its masks.
#![tactic(auto)]

ghost use Rattle.std.specs.Prelude.{◌≡◌};
ghost use Rattle.fields.specs.Parse.{field, when};
ghost use Rattle.fields.specs.Says.{says};
ghost use Rattle.half.specs.Inner.{IsWidth};
ghost use Rattle.half.specs.Half.{stored_value};
ghost use Rattle.forms.specs.Forms.{may_pack, form_selected, form_field, minus, inactive_field, selection_field, inactives_field, stored_by, head_field};

use fields::{Field, ParseError};

// How a grid's values are stored: the file's version, the grid's flags, the width of a stored value, 2 or 4 bytes, and the pattern of the grid's
// background.
#[derive(Clone, Copy, PartialEq, Eq)]
pub struct Coding {
    pub version: u32,
    pub flags: u32,
    pub width: usize,
    pub background: u32,
}

// What a node byte selects: whether a first and a second inactive value are carried, whether the background stands negated for the first, whether a
// selection mask is carried, and whether flag 0x2 leaves only the active places.
#[derive(Clone, Copy)]
pub struct Form {
    pub has_first: bool,
    pub has_second: bool,
    pub negated: bool,
    pub has_selection: bool,
    pub only_active: bool,
}

// Which places of a node are stored: every one, the active ones, or those without a child.
#[derive(Clone, Copy, PartialEq, Eq)]
pub enum Stored {
    Every,
    Active,
    Childless,
}

// What the inactive places hold: the first and the second inactive value, and where the mask stands that selects between them, if there is one.
#[derive(Clone, Copy)]
pub struct Inactives {
    pub first: u32,
    pub second: u32,
    pub selection: Option<usize>,
}

// What stands before a node's run of stored values: which places are stored, and what the inactive places hold.
#[derive(Clone, Copy)]
pub struct ValuesHead {
    pub stored: Stored,
    pub inactives: Inactives,
}

// Whether flags say that runs of stored values may be packed.
pub fn may_pack(flags: u32) -> bool
    ensures { result ≡ may_pack flags }
{
    flags % 2 == 1 || flags / 4 % 2 == 1
}

// The form that carries nothing, of node byte 0.
const BARE: Form = Form {
    has_first: false,
    has_second: false,
    negated: false,
    has_selection: false,
    only_active: true,
};

// The form of node byte 6, and of all nodes under 222: nothing is carried, and every place is stored.
const WHOLE: Form = Form {
    only_active: false,
    ..BARE
};

// The form that a node byte selects, with the position after the byte. It is one match, by which each byte goes a way of its own from here to the run of
// values: said field by field (`has_second: b == 5`) it costs a third more instructions for each leaf that is passed.
fn select_form(b: u8, p: usize) -> Field<Form>
    ensures { says result ≡ form_selected b p }
{
    let form = match b {
        0 => BARE,
        1 => Form {
            negated: true,
            ..BARE
        },
        2 => Form {
            has_first: true,
            ..BARE
        },
        3 => Form {
            negated: true,
            has_selection: true,
            ..BARE
        },
        4 => Form {
            has_first: true,
            has_selection: true,
            ..BARE
        },
        5 => Form {
            has_first: true,
            has_second: true,
            has_selection: true,
            ..BARE
        },
        6 => WHOLE,
        7..=255 => return Err(ParseError::InvalidNodeMetadata),
    };
    Ok((form, p))
}

// The node byte's form; under 222 there is no byte.
fn read_form(s: &[u8], version: u32, at: usize) -> Field<Form>
    ensures { says result ≡ form_field s.now version at }
{
    if version < 222 {
        return Ok((WHOLE, at));
    }
    let (b, p) = fields::read_u8(s, at)?;
    select_form(b, p)
}

// A value as a field: a half, widened, where the width is 2, else four bytes.
fn read_value(s: &[u8], at: usize, width: usize) -> Field<u32>
    requires { IsWidth width }
    ensures { says result ≡ field s.now width (stored_value s.now width at) at }
{
    if fields::remaining(s, at) < width {
        return Err(ParseError::PastEnd);
    }
    Ok((half::value_at(s, at, width), at + width))
}

// Minus a float, by its pattern.
fn minus(v: u32) -> u32
    ensures { result ≡ minus v }
{
    v ^ 0x8000_0000
}

// What stands for the first inactive value where none is carried.
fn unread(form: Form, background: u32) -> u32
    ensures { result ≡ when form.negated (minus background) background }
{
    if form.negated {
        return minus(background);
    }
    background
}

// An inactive value, of 4 bytes whatever the width of the stored values is; where none is carried, the other one.
fn read_inactive(s: &[u8], carried: bool, other: u32, at: usize) -> Field<u32>
    ensures { says result ≡ inactive_field s.now carried other at }
{
    if carried {
        return read_value(s, at, 4);
    }
    Ok((other, at))
}

// Where a selection mask of n bytes stands, where one is carried.
fn read_selection(s: &[u8], carried: bool, n: usize, at: usize) -> Field<Option<usize>>
    ensures { says result ≡ selection_field s.now carried n at }
{
    if !carried {
        return Ok((None, at));
    }
    let (mask, p) = fields::read_bytes(s, at, n)?;
    Ok((Some(mask.start), p))
}

// What the inactive places hold: what a form carries, and the background for what it does not.
fn read_inactives(s: &[u8], background: u32, form: Form, n: usize, at: usize) -> Field<Inactives>
    ensures { says result ≡ inactives_field s.now background form n at }
{
    let other = unread(form, background);
    let (first, p) = read_inactive(s, form.has_first, other, at)?;
    let (second, q) = read_inactive(s, form.has_second, background, p)?;
    let (selection, r) = read_selection(s, form.has_selection, n, q)?;
    Ok((
        Inactives {
            first,
            second,
            selection,
        },
        r,
    ))
}

// Which places are stored; `old` is what is stored under 222.
fn stored_by(c: Coding, old: Stored, form: Form) -> Stored
    ensures { result ≡ stored_by c old form }
{
    if c.version < 222 {
        return old;
    }
    if c.flags / 2 % 2 == 1 && form.only_active {
        return Stored::Active;
    }
    Stored::Every
}

// What stands before the run.
pub fn read_head(s: &[u8], c: Coding, old: Stored, n: usize, at: usize) -> Field<ValuesHead>
    ensures { says result ≡ head_field s.now c old n at }
{
    let (form, p) = read_form(s, c.version, at)?;
    let (inactives, q) = read_inactives(s, c.background, form, n, p)?;
    let stored = stored_by(c, old, form);
    Ok((ValuesHead { stored, inactives }, q))
}
