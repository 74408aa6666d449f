// The table of kinds, as document 01 has it: what an entry is; the byte of a kind, the widths of its fields, how long
// its record is. Module `seconds` has stored seconds.
pub mod seconds;

ghost use Rattle.std.specs.Prelude.{◌≡◌, ◌+◌, ◌≤◌};
ghost use Rattle.sheet_format.specs.Kinds.{base, table, code_of, kind_for, fields, widths_of, size_of, is_end, unused, plain};

use sheet_types::phases::Phase;

// The kinds of the table. Enter, leave, graze, open and closest are document 01's words. A new kind is a case here and
// a row of `table` and `kinds`, and in the code an arm of `kind_for`, `code_of`, `widths_of`, `size_of`, `stage_of`,
// `is_end`, of the fields in `records` and of the crate `rules`.
#[derive(Clone, Copy)]
pub enum Kind {
    Head,
    Enter(Phase),
    Leave(Phase),
    Graze(Phase),
    Open(Phase),
    Closest,
    Share,
    End,
}

// An entry of a sheet: its kind and up to four numbers, 0 for what the kind does not use.
// Seconds are stored ones, the second of the window plus 10,800: 0 to 21,600.
//   head          a station: its number, 1 to 999; b first, c last: the window, first ≤ last; d guard: 16 to 1,000 units
//   enter, leave  a from, b to; c direction: in tenths of a degree, 0 to 3599, or 65,535 for none
//   graze, open   a from, b to
//   closest       a second; b magnitude: in millionths, 0 to 1,300,000, and 0 after an entry of a star
//   share         a share: of the Sun's disc that is covered, in millionths, 0 to 1,000,000
//   end           none
// The kind stands between the first two numbers, so that no two of them are loaded as one right after they were stored
// apart.
#[derive(Clone, Copy)]
pub struct Entry {
    pub a: u32,
    pub kind: Kind,
    pub b: u32,
    pub d: u32,
    pub c: u32,
}

// How many bytes a field has.
#[derive(Clone, Copy)]
pub enum Width {
    Absent,
    Two,
    Four,
}

// The widths of an entry's four fields.
#[derive(Clone, Copy)]
pub struct Widths {
    pub a: Width,
    pub b: Width,
    pub c: Width,
    pub d: Width,
}

// The stages of a sheet in their order: nothing yet, then head, the phases by time, closest, the share if there is
// one, end. `StarClosest` is closest after an entry of a star, where no share may come.
#[derive(Clone, Copy)]
pub enum Stage {
    Start,
    Head,
    Phase(Phase),
    Closest,
    StarClosest,
    Share,
    End,
}

// What an entry says of the shadow's edge: an enter and a leave cross it.
#[derive(Clone, Copy, PartialEq, Eq)]
pub enum Crossing {
    Neither,
    Enter,
    Leave,
}

// How far a sheet has come, as far as its rules ask. The order of the fields is for speed, as an entry's.
#[derive(Clone, Copy)]
pub struct Progress {
    // the window, stored seconds: the first; the last entry's stage; the last
    pub first: u32,
    pub stage: Stage,
    pub last: u32,
    // of the phase at that stage: the last crossing, and the previous `to`, 0 if there is none
    pub crossing: Crossing,
    pub until: u32,
}

// ---- the table in code

// The first kind of a phase's four.
fn base_of(phase: Phase) -> u32
    ensures { (result ≡ base phase) × (result ≤ 64) }
{
    match phase {
        Phase::Penumbra => 0x10,
        Phase::Central => 0x20,
        Phase::Star => 0x40,
    }
}

// The byte of a kind. Not `From<Kind>`: `code_of` also promises that it is at most 127.
pub fn code_of(kind: Kind) -> u32
    ensures { (result ≡ code_of kind) × (result ≤ 127) }
{
    match kind {
        Kind::Head => 0x01,
        Kind::Enter(phase) => base_of(phase),
        Kind::Leave(phase) => base_of(phase) + 1,
        Kind::Graze(phase) => base_of(phase) + 2,
        Kind::Open(phase) => base_of(phase) + 3,
        Kind::Closest => 0x30,
        Kind::Share => 0x31,
        Kind::End => 0x7f,
    }
}

// The kind of a phase that stands so far behind its first.
fn phase_kind(phase: Phase, behind: u32) -> Option<Kind>
    requires { behind ≤ 3 }
    ensures { result ≡ kind_for (base phase + behind) }
{
    match behind {
        0 => Some(Kind::Enter(phase)),
        1 => Some(Kind::Leave(phase)),
        2 => Some(Kind::Graze(phase)),
        _ => Some(Kind::Open(phase)),
    }
}

// The kind that a number names. A phase's four are found by one difference, so that which of them comes next costs no
// branch. Not `TryFrom`: why an unknown number is refused, and at which place, is the caller's to say.
pub fn kind_for(code: u32) -> Option<Kind>
    ensures { result ≡ kind_for code }
{
    match code {
        0x10..=0x13 => phase_kind(Phase::Penumbra, code - 0x10),
        0x20..=0x23 => phase_kind(Phase::Central, code - 0x20),
        0x40..=0x43 => phase_kind(Phase::Star, code - 0x40),
        0x01 => Some(Kind::Head),
        0x30 => Some(Kind::Closest),
        0x31 => Some(Kind::Share),
        0x7f => Some(Kind::End),
        _ => None,
    }
}

fn fields(a: Width, b: Width, c: Width, d: Width) -> Widths
    ensures { result ≡ fields a b c d }
{
    Widths { a, b, c, d }
}

// The widths of a kind's fields.
pub fn widths_of(kind: Kind) -> Widths
    ensures { result ≡ widths_of kind }
{
    match kind {
        Kind::Head => fields(Width::Two, Width::Two, Width::Two, Width::Two),
        Kind::Enter(_) => fields(Width::Two, Width::Two, Width::Two, Width::Absent),
        Kind::Leave(_) => fields(Width::Two, Width::Two, Width::Two, Width::Absent),
        Kind::Graze(_) => fields(Width::Two, Width::Two, Width::Absent, Width::Absent),
        Kind::Open(_) => fields(Width::Two, Width::Two, Width::Absent, Width::Absent),
        Kind::Closest => fields(Width::Two, Width::Four, Width::Absent, Width::Absent),
        Kind::Share => fields(Width::Four, Width::Absent, Width::Absent, Width::Absent),
        Kind::End => fields(Width::Absent, Width::Absent, Width::Absent, Width::Absent),
    }
}

// How many bytes a record of that kind has, its kind's byte among them.
pub fn size_of(kind: Kind) -> usize
    ensures { (result ≡ size_of kind) × (result ≤ 17) }
{
    match kind {
        Kind::Head => 9,
        Kind::Enter(_) => 7,
        Kind::Leave(_) => 7,
        Kind::Graze(_) => 5,
        Kind::Open(_) => 5,
        Kind::Closest => 7,
        Kind::Share => 5,
        Kind::End => 1,
    }
}

// The same, computed from the kind's byte: a reader waits for it before it can look at the next record.
// It has a `requires`, so it is none of the public promises.
pub fn size_for(code: u32, kind: Kind) -> usize
    requires { code ≡ code_of kind }
    ensures { (result ≡ size_of kind) × (result ≤ 17) }
{
    if is_end(kind) {
        return 1;
    }
    if code == 0x01 {
        return 9;
    }
    if code == 0x31 {
        return 5;
    }
    let size = 7 - code % 4 / 2 * 2;
    size as usize
}

// The stage of a kind in the order of a sheet.
pub fn stage_of(kind: Kind) -> Stage
    ensures { result ≡ (table kind).stage }
{
    match kind {
        Kind::Head => Stage::Head,
        Kind::Enter(phase) => Stage::Phase(phase),
        Kind::Leave(phase) => Stage::Phase(phase),
        Kind::Graze(phase) => Stage::Phase(phase),
        Kind::Open(phase) => Stage::Phase(phase),
        Kind::Closest => Stage::Closest,
        Kind::Share => Stage::Share,
        Kind::End => Stage::End,
    }
}

// Whether a record of that kind ends the sheet.
pub fn is_end(kind: Kind) -> bool
    ensures { result ≡ is_end kind }
{
    match kind {
        Kind::Head => false,
        Kind::Enter(_) => false,
        Kind::Leave(_) => false,
        Kind::Graze(_) => false,
        Kind::Open(_) => false,
        Kind::Closest => false,
        Kind::Share => false,
        Kind::End => true,
    }
}

// Whether a number of that width is 0 if it is not used.
fn is_unused(width: Width, x: u32) -> bool
    ensures { result ≡ unused width x }
{
    match width {
        Width::Absent => x == 0,
        Width::Two => true,
        Width::Four => true,
    }
}

// Whether an entry's numbers are 0 where its kind uses none.
pub fn is_plain(entry: Entry) -> bool
    ensures { result ≡ plain entry }
{
    let kind = entry.kind;
    let w = widths_of(kind);
    let a = w.a;
    let b = w.b;
    let c = w.c;
    let d = w.d;
    is_unused(a, entry.a) & is_unused(b, entry.b) & is_unused(c, entry.c) & is_unused(d, entry.d)
}
