// The order of a sheet: what may come after what came last.
ghost use Rattle.std.specs.Prelude.{◌≡◌};
ghost use Rattle.sheet_format.specs.FieldRules.{is_within, greatestMagnitude};
ghost use Rattle.sheet_rules.specs.Order.{phase_follows, may_come, closest_after};
ghost use Rattle.sheet_rules.specs.Order as Order;
ghost use Rattle.sheet_format.specs.declared.kinds.Stage.TheVariants as S;

use sheet_format::kinds::{Crossing, Stage};
use sheet_types::phases::Phase;

// Whether entries of a phase may follow those of another, or its own.
fn phase_follows(last: Phase, phase: Phase) -> bool
    ensures { result ≡ phase_follows last phase }
{
    match last {
        Phase::Penumbra => phase != Phase::Star,
        Phase::Central => phase == Phase::Central,
        Phase::Star => phase == Phase::Star,
    }
}

// Whether an entry of that phase came last.
pub fn is_within(last: Stage, phase: Phase) -> bool
    ensures { result ≡ is_within last phase }
{
    match last {
        Stage::Start => false,
        Stage::Head => false,
        Stage::Phase(of) => of == phase,
        Stage::Closest => false,
        Stage::StarClosest => false,
        Stage::Share => false,
        Stage::End => false,
    }
}

pub fn head_may_come(last: Stage) -> bool
    ensures { result ≡ may_come last S.Head }
{
    match last {
        Stage::Start => true,
        Stage::Head => false,
        Stage::Phase(_) => false,
        Stage::Closest => false,
        Stage::StarClosest => false,
        Stage::Share => false,
        Stage::End => false,
    }
}

pub fn phase_may_come(last: Stage, phase: Phase) -> bool
    ensures { result ≡ may_come last (S.Phase phase) }
{
    match last {
        Stage::Start => false,
        Stage::Head => true,
        Stage::Phase(of) => phase_follows(of, phase),
        Stage::Closest => false,
        Stage::StarClosest => false,
        Stage::Share => false,
        Stage::End => false,
    }
}

pub fn closest_may_come(last: Stage) -> bool
    ensures { result ≡ may_come last S.Closest }
{
    match last {
        Stage::Start => false,
        Stage::Head => true,
        Stage::Phase(_) => true,
        Stage::Closest => false,
        Stage::StarClosest => false,
        Stage::Share => false,
        Stage::End => false,
    }
}

pub fn share_may_come(last: Stage) -> bool
    ensures { result ≡ may_come last S.Share }
{
    match last {
        Stage::Start => false,
        Stage::Head => false,
        Stage::Phase(_) => false,
        Stage::Closest => true,
        Stage::StarClosest => false,
        Stage::Share => false,
        Stage::End => false,
    }
}

pub fn end_may_come(last: Stage) -> bool
    ensures { result ≡ may_come last S.End }
{
    match last {
        Stage::Start => false,
        Stage::Head => false,
        Stage::Phase(_) => false,
        Stage::Closest => true,
        Stage::StarClosest => true,
        Stage::Share => true,
        Stage::End => false,
    }
}

// Closest, as a stage, after what came last.
pub fn closest_after(last: Stage) -> Stage
    ensures { result ≡ closest_after last }
{
    if is_within(last, Phase::Star) {
        Stage::StarClosest
    } else {
        Stage::Closest
    }
}

// The most that a magnitude may be after what came last.
pub fn greatest_magnitude(last: Stage) -> u32
    ensures { result ≡ greatestMagnitude last }
{
    if is_within(last, Phase::Star) {
        0
    } else {
        1_300_000
    }
}

// Whether a crossing comes next to one of its own kind.
pub fn repeats(last: Crossing, crossing: Crossing) -> bool
    ensures { result ≡ Order.repeats last crossing }
{
    (crossing == last) & (crossing != Crossing::Neither)
}
