// The rules of an entry's fields, by the stage of its kind.
ghost use Rattle.std.specs.Prelude.{◌≡◌};
ghost use Rattle.sheet_format.specs.Kinds.{table};
ghost use Rattle.sheet_format.specs.FieldRules.{guard_holds, in_window, span_holds, open_holds};
ghost use Rattle.sheet_rules.specs.laws.Fields.{is_open, direction_holds, phase_holds};

use sheet_format::kinds::{Entry, Kind, Progress, Stage};

fn guard_holds(guard: u32) -> bool
    ensures { result ≡ guard_holds guard }
{
    (16 <= guard) & (guard <= 1_000)
}

fn in_window(p: Progress, x: u32) -> bool
    ensures { result ≡ in_window p x }
{
    (p.first <= x) & (x <= p.last)
}

fn span_holds(p: Progress, from: u32, to: u32) -> bool
    ensures { result ≡ span_holds p from to }
{
    (p.first <= from) & (from < to) & (to <= p.last)
}

fn open_holds(p: Progress, from: u32, to: u32) -> bool
    ensures { result ≡ open_holds p from to }
{
    let at_end = (from == p.first) | (to == p.last);
    (p.first <= from) & (from <= to) & (to <= p.last) & at_end
}

// Whether a direction holds where the kind has one. Almost all are an angle, so that is asked first, whatever the kind.
fn direction_holds(kind: Kind, direction: u32) -> bool
    ensures { result ≡ direction_holds kind direction }
{
    if direction <= 3599 {
        return true;
    }
    let none = direction == 65535;
    match kind {
        Kind::Head => true,
        Kind::Enter(_) => none,
        Kind::Leave(_) => none,
        Kind::Graze(_) => true,
        Kind::Open(_) => true,
        Kind::Closest => true,
        Kind::Share => true,
        Kind::End => true,
    }
}

fn is_open(kind: Kind) -> bool
    ensures { result ≡ is_open kind }
{
    match kind {
        Kind::Head => false,
        Kind::Enter(_) => false,
        Kind::Leave(_) => false,
        Kind::Graze(_) => false,
        Kind::Open(_) => true,
        Kind::Closest => false,
        Kind::Share => false,
        Kind::End => false,
    }
}

// Of an entry of a phase.
fn phase_holds(p: Progress, kind: Kind, from: u32, to: u32, direction: u32) -> bool
    ensures { result ≡ phase_holds p kind from to direction }
{
    let spans = span_holds(p, from, to) & direction_holds(kind, direction);
    if is_open(kind) {
        return open_holds(p, from, to);
    }
    spans
}

// Whether its fields keep the rule of its kind.
pub fn rule_holds(p: Progress, entry: Entry) -> bool
    ensures { result ≡ (table entry.kind).rule p entry }
{
    let kind = entry.kind;
    let a = entry.a;
    let b = entry.b;
    let c = entry.c;
    let d = entry.d;
    let last = p.stage;
    let stage = sheet_format::kinds::stage_of(kind);
    match stage {
        Stage::Start => false,
        Stage::Head => (1 <= a) & (a <= 999) & (b <= c) & (c <= 21600) & guard_holds(d),
        Stage::Phase(_) => phase_holds(p, kind, a, b, c),
        Stage::Closest => in_window(p, a) & (b <= crate::order::greatest_magnitude(last)),
        Stage::StarClosest => false,
        Stage::Share => a <= 1000000,
        Stage::End => true,
    }
}
