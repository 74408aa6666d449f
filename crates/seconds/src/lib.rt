// The seconds of an occultation: direction and magnitude at one of them; and all of one second.
#![tactic(auto)]

ghost use Rattle.std.specs.Prelude.{◌≡◌, ◌≤◌, nat_abs};
ghost use Rattle.sine_table.specs.Table.{Sines};
ghost use Rattle.elements.specs.StarLaws.{StarSizes};
ghost use Rattle.station.specs.Place.{place_of};
ghost use Rattle.station.specs.Sizes.{PlaceSizes};
ghost use Rattle.requests.specs.RequestLaws.{InLimits};
ghost use Rattle.seconds.specs.Seconds.{direction_at, magnitude_at};
ghost use Rattle.seconds.specs.OneSecond.{IsStarSecond, whole_second, second_answer, second_sines};
ghost use Rattle.seconds.specs.Exact.{AnswerMeans};

use elements::Body;
use requests::Occultation;
use sheet_types::refusals::Refusal;

// The direction at a second.
pub fn direction_at(table: &[u32], o: Occultation, place: station::Place, t: i64) -> u32
    requires { (Sines table.now) × (InLimits o) × (place ≡ place_of o.station) × (nat_abs t ≤ 10800) }
    ensures { result ≡ direction_at o t }
{
    let body = o.body;
    let axis = elements::stars::axis_of(body);
    let direction = shadow::bodies::direction_at(table, axis, place, t);
    direction as u32
}

// The magnitude at a second: a star's is 0.
pub fn magnitude_at(table: &[u32], o: Occultation, place: station::Place, t: i64) -> u32
    requires { (Sines table.now) × (InLimits o) × (place ≡ place_of o.station) × (nat_abs t ≤ 10800) }
    ensures { result ≡ magnitude_at o t }
{
    let body = o.body;
    let guard = o.guard;
    match body {
        Body::Sun(e) => shadow::magnitude_at(table, e, place, t, guard),
        Body::Star(_) => 0,
    }
}

// All of a second of a star, whose one phase stands for both.
fn star_second(
    table: &[u32],
    star: elements::Star,
    place: station::Place,
    t: i64,
    guard: i64,
) -> shadow::Second
    requires { (Sines table.now) × (StarSizes star) × (PlaceSizes place) × (nat_abs t ≤ 10800) × (nat_abs guard ≤ 1000) }
    ensures { IsStarSecond guard star place t result }
{
    let body = Body::Star(star);
    let x = shadow::bodies::sample_at(table, body, place, t);
    let radius = x.first;
    let state = shadow::state(guard, radius, x.m);
    let direction = shadow::directions::direction(table, x.u, x.v);
    shadow::Second {
        shadow: shadow::Shadow {
            u: x.u,
            v: x.v,
            l1: radius,
            l2: radius,
            m: x.m,
        },
        penumbra: state,
        central: state,
        magnitude: 0,
        direction,
    }
}

// One second of an occultation within its limits, from a filled sine table.
fn second_within(table: &[u32], o: Occultation, t: i64) -> shadow::Second
    requires { (Sines table.now) × (InLimits o) × (nat_abs t ≤ 10800) }
    ensures { result ≡ whole_second o t }
{
    let s = o.station;
    let place = station::geocentric(table, s);
    let body = o.body;
    let guard = o.guard;
    match body {
        Body::Sun(e) => shadow::second_at(table, e, place, t, guard),
        Body::Star(star) => star_second(table, star, place, t, guard),
    }
}

// The shadow, the states, the magnitude and the direction at second t of an occultation, which may lie outside its
// window; `sines` is the buffer for table S.
pub fn second(o: Occultation, t: i64, sines: &mut [u32]) -> Result<shadow::Second, Refusal>
    ensures answer { result ≡ second_answer o t sines.old }
    ensures sines { sines.new ≡ second_sines o t sines.old }
    ensures means { AnswerMeans o t result }
{
    let inside = requests::windows::in_span(t);
    if !inside {
        return Err(Refusal {
            number: 1,
            place: 0,
        });
    }
    requests::admission::admit(o, sines)?;
    let x = second_within(sines, o, t);
    Ok(x)
}
