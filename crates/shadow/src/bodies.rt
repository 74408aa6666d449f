// The shadow of what the Moon hides, the Sun or a star: its phases, what it is at a second, and the direction of its
// axis.
ghost use Rattle.std.specs.Prelude.{◌≡◌, ◌≤◌, ◌<◌, nat_abs, length, get_or};
ghost use Rattle.sheet_types.specs.declared.phases.Phase.TheVariants.{Penumbra};
ghost use Rattle.sine_table.specs.Table.{Sines};
ghost use Rattle.elements.specs.declared.Body.TheVariants as B;
ghost use Rattle.elements.specs.Sizes.{AxisSizes, ElementSizes};
ghost use Rattle.elements.specs.StarLaws.{StarSizes, BodySizes};
ghost use Rattle.station.specs.Sizes.{PlaceSizes};
ghost use Rattle.shadow_geometry.specs.Shadow.{phases_of};
ghost use Rattle.shadow.specs.Second.{IsSample, direction_at};

use super::Sample;
use elements::Body;
use sheet_types::phases::Phase;

// How many phases the shadow has.
pub fn phase_count(body: Body) -> usize
    ensures { result ≡ length (phases_of body) }
{
    match body {
        Body::Sun(_) => 2,
        Body::Star(_) => 1,
    }
}

// The k-th of them, from 0, in the order of a sheet.
pub fn nth_phase(body: Body, k: usize) -> Phase
    requires { k < length (phases_of body) }
    ensures { result ≡ get_or (phases_of body) k Penumbra }
{
    match body {
        Body::Sun(_) => sheet_types::phases::eclipse_phase(k),
        Body::Star(_) => Phase::Star,
    }
}

// The shadow of an eclipse at second t, in its two phases.
fn eclipse_sample(table: &[u32], e: elements::Elements, place: station::Place, t: i64) -> Sample
    requires { (Sines table.now) × (ElementSizes e) × (PlaceSizes place) × (nat_abs t ≤ 10800) }
    ensures { IsSample (B.Sun e) place t result }
{
    let s = super::shadow_at(table, e, place, t);
    Sample {
        u: s.u,
        v: s.v,
        m: s.m,
        first: s.l1,
        second: s.l2,
    }
}

// The shadow of a star at second t: its one phase stands for both.
fn star_sample(table: &[u32], s: elements::Star, place: station::Place, t: i64) -> Sample
    requires { (Sines table.now) × (StarSizes s) × (PlaceSizes place) × (nat_abs t ≤ 10800) }
    ensures { IsSample (B.Star s) place t result }
{
    let axis = elements::stars::axis(s);
    let o = super::offset_at(table, axis, place, t);
    let radius = s.radius;
    Sample {
        u: o.u,
        v: o.v,
        m: o.m,
        first: radius,
        second: radius,
    }
}

// The shadow at second t, in its phases.
pub fn sample_at(table: &[u32], body: Body, place: station::Place, t: i64) -> Sample
    requires { (Sines table.now) × (BodySizes body) × (PlaceSizes place) × (nat_abs t ≤ 10800) }
    ensures { IsSample body place t result }
{
    match body {
        Body::Sun(e) => eclipse_sample(table, e, place, t),
        Body::Star(s) => star_sample(table, s, place, t),
    }
}

// The direction of the axis from the station at a second.
pub fn direction_at(table: &[u32], axis: elements::Axis, place: station::Place, t: i64) -> u16
    requires { (Sines table.now) × (AxisSizes 90000000 axis) × (PlaceSizes place) × (nat_abs t ≤ 10800) }
    ensures { result ≡ direction_at axis place t }
{
    let o = super::offset_at(table, axis, place, t);
    super::directions::direction(table, o.u, o.v)
}
