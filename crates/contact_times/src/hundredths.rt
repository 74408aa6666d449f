// The shadow at a hundredth of a second: document 01's rules with 360,000 parts of an hour for 3,600.
ghost use Rattle.std.specs.Prelude.{◌≡◌, ◌≤◌, pos, nat_abs};
ghost use Rattle.rounding.specs.Value.{Value};
ghost use Rattle.sheet_types.specs.States.{code};
ghost use Rattle.sine_table.specs.Table.{Sines};
ghost use Rattle.elements.specs.Sizes.{AxisSizes, ConeSizes};
ghost use Rattle.station.specs.Sizes.{PlaceSizes};
ghost use Rattle.shadow_geometry.specs.Shadow.{edge};
ghost use Rattle.shadow.specs.Shadow.{radius_at, IsOffset};
ghost use Rattle.contact_times.specs.Parts.{hundredths, axis_by, cone_by};
ghost use Rattle.contact_times.specs.Brackets.{state_at};
ghost use Rattle.contact_times.specs.Sizes.{CrossingSizes};

use shadow::AxisAt;
use sheet_types::phases::Phase;

// One phase of a shadow at a station, under a guard.
#[derive(Clone, Copy)]
pub struct Crossing {
    pub axis: elements::Axis,
    // of the phase
    pub cone: elements::Cone,
    pub place: station::Place,
    pub phase: Phase,
    // half-width of the undecided band around the cone's edge, 10^-8 of the Earth's equatorial radius, 0 to 1,000
    pub guard: i64,
}

// u, v, ζ and M of any axis at t hundredths.
fn offset_at(table: &[u32], axis: elements::Axis, place: station::Place, t: i64) -> shadow::Offset
    requires { (Sines table.now) × (AxisSizes 90000000 axis) × (PlaceSizes place) × (nat_abs t ≤ 1080000) }
    ensures { IsOffset (axis_by hundredths axis t) place (pos 0) result }
{
    let at = AxisAt {
        x: elements::cubic_by::<360_000>(axis.x, t),
        y: elements::cubic_by::<360_000>(axis.y, t),
        d: elements::quadratic_by::<360_000>(axis.d, t),
        mu: elements::quadratic_by::<360_000>(axis.mu, t),
    };
    shadow::offset_of(table, at, place)
}

// L of a cone at t hundredths, at height ζ: l less the cone's term.
fn radius_at(cone: elements::Cone, zeta: i64, t: i64) -> i64
    requires { (ConeSizes 60000000 cone) × (nat_abs zeta ≤ 202000000) × (nat_abs t ≤ 1080000) }
    ensures { Value (radius_at (cone_by hundredths cone t) zeta (pos 0)) 600000000 result }
{
    let l = elements::quadratic_by::<360_000>(cone.l, t);
    shadow::radius_of(l, cone.tanf, zeta)
}

// Where the cone's edge is, from L.
fn edge_of(phase: Phase, l: i64) -> i64
    requires { nat_abs l ≤ 600000000 }
    ensures { Value (edge phase l) 600000000 result }
{
    match phase {
        Phase::Penumbra => l,
        Phase::Central => rounding::abs(l),
        Phase::Star => l,
    }
}

// 0 outside, 1 inside, 2 unsure, at t hundredths.
pub fn state_at(table: &[u32], c: Crossing, t: i64) -> u8
    requires { (Sines table.now) × (CrossingSizes c) × (nat_abs t ≤ 1080000) }
    ensures { result ≡ code (state_at c t) }
{
    let o = offset_at(table, c.axis, c.place, t);
    let l = radius_at(c.cone, o.zeta, t);
    let r = edge_of(c.phase, l);
    shadow::state(c.guard, r, o.m)
}
