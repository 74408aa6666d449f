// The contacts of an occultation to the hundredth of a second: two hundredths between which the true contact lies.
#![tactic(auto)]

pub mod hundredths;
pub mod search;

ghost use Rattle.std.specs.Prelude.{◌≡◌, ◌≤◌, nat_abs, ◌≤ℤ◌};
ghost use Rattle.sine_table.specs.Table.{Sines};
ghost use Rattle.elements.specs.Stars.{cylinder_of};
ghost use Rattle.shadow_geometry.specs.Shadow.{eclipse_cone, cone};
ghost use Rattle.requests.specs.RequestLaws.{InLimits};
ghost use Rattle.contact_times.specs.Brackets.{bracket_of};
ghost use Rattle.contact_times.specs.Contacts.{used_guard, crossing, phase_checked, contact_checked, contact_answer, contact_sines};

use crate::hundredths::Crossing;
use elements::Body;
use requests::Occultation;
use sheet_types::phases::Phase;
use sheet_types::refusals::Refusal;

// The cone of a phase of an eclipse.
fn eclipse_cone(e: elements::Elements, phase: Phase) -> elements::Cone
    ensures { result ≡ eclipse_cone phase e }
{
    let penumbra = e.penumbra;
    let central = e.central;
    match phase {
        Phase::Penumbra => penumbra,
        Phase::Central => central,
        Phase::Star => penumbra,
    }
}

// The cylinder behind the Moon.
fn cylinder(s: elements::Star) -> elements::Cone
    ensures { result ≡ cylinder_of s }
{
    let c0 = s.radius;
    let l = elements::Quadratic { c0, c1: 0, c2: 0 };
    elements::Cone { l, tanf: 0 }
}

// The cone of a phase, or the cylinder.
fn cone_of(body: Body, phase: Phase) -> elements::Cone
    ensures { result ≡ cone body phase }
{
    match body {
        Body::Sun(e) => eclipse_cone(e, phase),
        Body::Star(s) => cylinder(s),
    }
}

// The guard under which contacts are sought: at least 32.
fn used_guard(guard: i64) -> i64
    ensures { result ≡ used_guard guard }
{
    guard.max(32)
}

// The two hundredths between which the contact of a phase between two seconds lies, of an occultation within its
// limits.
pub fn contact(
    table: &[u32],
    o: Occultation,
    phase: Phase,
    from: i64,
    to: i64,
) -> Option<(i64, i64)>
    requires { (Sines table.now) × (InLimits o) × (nat_abs from ≤ 10800) × (nat_abs to ≤ 10800) × (from ≤ℤ to) }
    ensures { result ≡ bracket_of (crossing o phase) from to }
{
    let s = o.station;
    let place = station::geocentric(table, s);
    let body = o.body;
    let axis = elements::stars::axis_of(body);
    let cone = cone_of(body, phase);
    let guard = used_guard(o.guard);
    let c = Crossing {
        axis,
        cone,
        place,
        phase,
        guard,
    };
    crate::search::contact_bracket(table, c, from, to)
}

// Refusal 22 with place 0 for the number of a phase that the shadow does not have.
fn check_phase(body: Body, phase: i64) -> Result<(), Refusal>
    ensures { result ≡ phase_checked body phase }
{
    let count = shadow::bodies::phase_count(body);
    if 0 <= phase {
        if (phase as usize) < count {
            return Ok(());
        }
    }
    Err(Refusal {
        number: 22,
        place: 0,
    })
}

// Whether only the two seconds' states can still refuse it, or the first of the refusals before that; `sines` is filled
// in the first case alone.
fn check(o: Occultation, phase: i64, from: i64, to: i64, sines: &mut [u32]) -> Result<(), Refusal>
    ensures answer { result ≡ contact_checked o phase from to sines.old }
    ensures sines { sines.new ≡ contact_sines o phase from to sines.old }
{
    let w = requests::windows::Window {
        first: from,
        last: to,
    };
    let holds = requests::windows::window_holds(w);
    if !holds {
        return Err(Refusal {
            number: 1,
            place: 0,
        });
    }
    requests::check(o)?;
    let body = o.body;
    check_phase(body, phase)?;
    requests::admission::fill_sines(sines)
}

// The contact of a phase, given by its number, between two seconds, which may lie outside the occultation's window, or
// the refusal; `sines` is the buffer for table S. The contact is two hundredths of a second from the reference instant,
// the earlier first, -1,080,000 to 1,080,000.
pub fn contact_at(
    o: Occultation,
    phase: i64,
    from: i64,
    to: i64,
    sines: &mut [u32],
) -> Result<(i64, i64), Refusal>
    ensures answer { result ≡ contact_answer o phase from to sines.old }
    ensures sines { sines.new ≡ contact_sines o phase from to sines.old }
{
    check(o, phase, from, to, sines)?;
    let body = o.body;
    let kind = shadow::bodies::nth_phase(body, phase as usize);
    // Refusal 22 with place 1 where none is found.
    contact(sines, o, kind, from, to).ok_or(Refusal {
        number: 22,
        place: 1,
    })
}
