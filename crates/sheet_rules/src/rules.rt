// The rules of a sheet. Reader and writer ask of each entry `order_of`, refusal 8, then `fields_of`, refusal 7;
// `after` is how far the sheet has then come.

ghost use Rattle.std.specs.Prelude.{◌≡◌};
ghost use Rattle.sheet_rules.specs.Rules.{start, phase_in_order, crossing_kept, passed, reached, inOrder, after_of};
ghost use Rattle.sheet_rules.specs.Rules.{order_of, fields_as};
ghost use Rattle.sheet_rules.specs.laws.Stages.{crossing_of, crossing_after};

use sheet_format::kinds::{Crossing, Entry, Kind, Progress, Stage};
use sheet_types::phases::Phase;

// Whether an entry keeps the order of a sheet: refusal 8 where it does not. No `bool` and no Result: the papers' form
// takes the answer apart by `let .. else` and gives the refusal with the place, which only the caller knows.
#[derive(Clone, Copy)]
pub enum OrderRule {
    Kept,
    Broken,
}

// Whether an entry's fields keep their rules: refusal 7 where they do not. In the form of `OrderRule`.
#[derive(Clone, Copy)]
pub enum FieldRule {
    Kept,
    Broken,
}

// Nothing has been read.
pub fn begun() -> Progress
    ensures { result ≡ start }
{
    let stage = Stage::Start;
    let crossing = Crossing::Neither;
    Progress {
        stage,
        first: 0,
        last: 0,
        until: 0,
        crossing,
    }
}

// ---- order

fn crossing_of(kind: Kind) -> Crossing
    ensures { result ≡ crossing_of kind }
{
    match kind {
        Kind::Head => Crossing::Neither,
        Kind::Enter(_) => Crossing::Enter,
        Kind::Leave(_) => Crossing::Leave,
        Kind::Graze(_) => Crossing::Neither,
        Kind::Open(_) => Crossing::Neither,
        Kind::Closest => Crossing::Neither,
        Kind::Share => Crossing::Neither,
        Kind::End => Crossing::Neither,
    }
}

// Whether an entry of a phase, with that crossing, may come next.
fn phase_in_order(p: Progress, phase: Phase, crossing: Crossing, from: u32) -> bool
    ensures { result ≡ phase_in_order p phase crossing from }
{
    let stage = p.stage;
    let last = p.crossing;
    if crate::order::is_within(stage, phase) {
        let later = p.until <= from;
        return later & !crate::order::repeats(last, crossing);
    }
    crate::order::phase_may_come(stage, phase)
}

// ---- how far the sheet has come

// An entry of a phase came, with that `to` and that crossing.
fn passed_to(p: Progress, phase: Phase, to: u32, crossing: Crossing) -> Progress
    ensures { result ≡ passed p phase to crossing }
{
    let stage = Stage::Phase(phase);
    Progress {
        stage,
        first: p.first,
        last: p.last,
        until: to,
        crossing,
    }
}

// An entry of no phase came.
fn reach(stage: Stage, first: u32, last: u32) -> Progress
    ensures { result ≡ reached stage first last }
{
    let crossing = Crossing::Neither;
    Progress {
        stage,
        first,
        last,
        until: 0,
        crossing,
    }
}

// The crossing that stands when a graze or an open of the phase came.
fn crossing_kept(p: Progress, phase: Phase) -> Crossing
    ensures { result ≡ crossing_kept p phase }
{
    let stage = p.stage;
    if crate::order::is_within(stage, phase) {
        p.crossing
    } else {
        Crossing::Neither
    }
}

// The crossing that stands after one of the phase came, `kept` if it was none.
fn crossing_after(crossing: Crossing, kept: Crossing) -> Crossing
    ensures { result ≡ crossing_after crossing kept }
{
    match crossing {
        Crossing::Neither => kept,
        Crossing::Enter => crossing,
        Crossing::Leave => crossing,
    }
}

// ---- an entry, by the stage of its kind

// Whether it may come next.
fn in_order(p: Progress, entry: Entry) -> bool
    ensures { result ≡ inOrder p entry }
{
    let kind = entry.kind;
    let last = p.stage;
    let stage = sheet_format::kinds::stage_of(kind);
    match stage {
        Stage::Start => false,
        Stage::Head => crate::order::head_may_come(last),
        Stage::Phase(phase) => {
            let crossing = crossing_of(kind);
            phase_in_order(p, phase, crossing, entry.a)
        }
        Stage::Closest => crate::order::closest_may_come(last),
        Stage::StarClosest => false,
        Stage::Share => crate::order::share_may_come(last),
        Stage::End => crate::order::end_may_come(last),
    }
}

// How far the sheet has come after it.
pub fn after(p: Progress, entry: Entry) -> Progress
    ensures { result ≡ after_of p entry }
{
    let kind = entry.kind;
    let b = entry.b;
    let c = entry.c;
    let last = p.stage;
    let stage = sheet_format::kinds::stage_of(kind);
    match stage {
        Stage::Start => reach(stage, b, c),
        Stage::Head => reach(stage, b, c),
        Stage::Phase(phase) => {
            let crossing = crossing_of(kind);
            let kept = crossing_kept(p, phase);
            let now = crossing_after(crossing, kept);
            passed_to(p, phase, b, now)
        }
        Stage::Closest => {
            let closest = crate::order::closest_after(last);
            reach(closest, p.first, p.last)
        }
        Stage::StarClosest => reach(stage, p.first, p.last),
        Stage::Share => reach(stage, p.first, p.last),
        Stage::End => reach(stage, p.first, p.last),
    }
}

// ---- the answers

// Whether an entry may come after what came before it.
#[tactic(auto, unfolding(crate::specs::Rules::order_of))]
pub fn order_of(p: Progress, entry: Entry) -> OrderRule
    ensures { result ≡ order_of p entry }
{
    if in_order(p, entry) {
        OrderRule::Kept
    } else {
        OrderRule::Broken
    }
}

// Whether an entry's fields keep the rule of its kind.
// `plain` is what else is asked of them: that what its kind does not use is 0.
#[tactic(auto, unfolding(crate::specs::Rules::fields_as))]
pub fn fields_of(p: Progress, plain: bool, entry: Entry) -> FieldRule
    ensures { result ≡ fields_as plain p entry }
{
    if plain & crate::fields::rule_holds(p, entry) {
        FieldRule::Kept
    } else {
        FieldRule::Broken
    }
}
