// The 22 elements of an eclipse from seven hourly rows of Sun and Moon and the sidereal time at Greenwich at these
// hours, all in whole numbers. In module `numbers` from and to the caller's numbers.
#![tactic(auto)]

pub mod angles;
pub mod least_squares;
pub mod numbers;

ghost use Rattle.std.specs.Prelude.{◌≡◌, true, ◌≤◌, ◌<◌, nat_abs};
ghost use Rattle.rounding.specs.Value.{Value};
ghost use Rattle.sine_table.specs.Table.{Sines};
ghost use Rattle.besselian_rows.specs.Exact.{accepted, RadiiInRange};
ghost use Rattle.besselian_rows.specs.AcceptedLaws.{Accepted};
ghost use Rattle.element_fits.specs.Sizes.{HourlySizes, CoefficientSizes};
ghost use Rattle.elements.specs.Sizes.{QuadraticSizes};
ghost use Rattle.element_fits.specs.FromTables.{ascension, hour_of, hours_of, turn, offset, hour_angles, hour_angle, middleOf, columnsOf, fitted, fitting_of};
ghost use Rattle.element_fits.specs.Answers.{unless, off, close, missed, larger, misfit, raised, first_missed, misfits_of, judged};
ghost use Rattle.element_fits.specs.laws.Each.{AtEach};
ghost use Rattle.element_fits.specs.laws.Sizes.{AllAccepted, HoursSizes, ColumnsSizes};

use crate::least_squares::{Hourly, cubic, quadratic};
use elements::{Cubic, Elements, Quadratic};
use sheet_types::refusals::Refusal;

// The rows of the tables, at the hours -3 to 3. That all are accepted is no part of the type: `rows_of` makes it of any
// numbers, and its definition stays. Seven fields, here and below, as the definitions name them.
#[derive(Clone, Copy)]
pub struct Rows {
    pub r0: besselian_rows::besselian::Row,
    pub r1: besselian_rows::besselian::Row,
    pub r2: besselian_rows::besselian::Row,
    pub r3: besselian_rows::besselian::Row,
    pub r4: besselian_rows::besselian::Row,
    pub r5: besselian_rows::besselian::Row,
    pub r6: besselian_rows::besselian::Row,
}

// What one row gives to the fits: x, y, l1 and l2 in 10^-8 radius, the axis' declination and right ascension in 10^-6
// degree.
#[derive(Clone, Copy)]
pub struct Hour {
    pub x: i64,
    pub y: i64,
    pub d: i64,
    pub l1: i64,
    pub l2: i64,
    pub ascension: i64,
}

// The same of all rows, at the hours -3 to 3.
#[derive(Clone, Copy)]
pub struct Hours {
    pub h0: Hour,
    pub h1: Hour,
    pub h2: Hour,
    pub h3: Hour,
    pub h4: Hour,
    pub h5: Hour,
    pub h6: Hour,
}

// The right ascension of a row's axis.
fn ascension(table: &[u32], p: besselian_rows::besselian::Row) -> i64
    requires { (Sines table.now) × (Accepted p) }
    ensures { Value (ascension p) 360_000_000 result }
{
    let axis = besselian_rows::rows::find_axis(p);
    let directions = besselian_rows::rows::find_directions(p, axis);
    let x = directions.cosa;
    let y = directions.sina;
    crate::angles::argument(table, x, y) as i64
}

// What one row gives.
fn hour_of(
    table: &[u32],
    p: besselian_rows::besselian::Row,
    k: besselian_rows::besselian::Radii,
) -> Hour
    requires { (Sines table.now) × (accepted p ≡ true) × (RadiiInRange k) }
    ensures { result ≡ hour_of k p }
{
    let b = besselian_rows::rows::elements_of(p, k);
    let x = b.x;
    let y = b.y;
    let sind = b.sind;
    let l1 = b.l1;
    let l2 = b.l2;
    let d = crate::angles::arcsine(table, sind);
    let ascension = ascension(table, p);
    Hour {
        x,
        y,
        d,
        l1,
        l2,
        ascension,
    }
}

// The hour angle at Greenwich of a row's axis, less 15 degrees for each hour: g is the sidereal time, a the right
// ascension.
fn turn(g: i64, a: i64, hour: i64) -> i64
    requires { (nat_abs g ≤ 360_000_000) × (nat_abs a ≤ 360_000_000) × (nat_abs hour ≤ 3) }
    ensures { Value (turn g a hour) 765_000_000 result }
{
    g - a - 15_000_000 * hour
}

// How far it is from that of the middle row, from -180 up to 180 degrees.
fn offset(t: i64, middle: i64) -> i64
    requires { (nat_abs t ≤ 765_000_000) × (nat_abs middle ≤ 765_000_000) }
    ensures { Value (offset t middle) 180_000_000 result }
{
    let turned = sine::reduced(t - middle + 180_000_000);
    turned as i64 - 180_000_000
}

// What all rows give.
fn hours_of(table: &[u32], t: Rows, k: besselian_rows::besselian::Radii) -> Hours
    requires { (Sines table.now) × (AllAccepted t) × (RadiiInRange k) }
    ensures { result ≡ hours_of k t }
{
    let h0 = hour_of(table, t.r0, k);
    let h1 = hour_of(table, t.r1, k);
    let h2 = hour_of(table, t.r2, k);
    let h3 = hour_of(table, t.r3, k);
    let h4 = hour_of(table, t.r4, k);
    let h5 = hour_of(table, t.r5, k);
    let h6 = hour_of(table, t.r6, k);
    Hours {
        h0,
        h1,
        h2,
        h3,
        h4,
        h5,
        h6,
    }
}

// One value at the seven hours.
fn each<F: Fn(Hour) -> i64>(h: Hours, value: F) -> Hourly
    requires { F.IsAlwaysCallable value }
    ensures { AtEach (F.post value) h result }
{
    Hourly {
        v0: value(h.h0),
        v1: value(h.h1),
        v2: value(h.h2),
        v3: value(h.h3),
        v4: value(h.h4),
        v5: value(h.h5),
        v6: value(h.h6),
    }
}

// The same of a row whose sidereal time, right ascension and hour are given.
fn relative(g: i64, a: i64, hour: i64, middle: i64) -> i64
    requires { (nat_abs g ≤ 360_000_000) × (nat_abs a ≤ 360_000_000) × (nat_abs hour ≤ 3) × (nat_abs middle ≤ 765_000_000) }
    ensures { Value (offset (turn g a hour) middle) 180_000_000 result }
{
    let t = turn(g, a, hour);
    offset(t, middle)
}

// The hour angles of all rows, from that of the middle one and 15 degrees an hour.
fn hour_angles(g: Hourly, a: Hourly, middle: i64) -> Hourly
    requires { (HourlySizes 360_000_000 g) × (HourlySizes 360_000_000 a) × (nat_abs middle ≤ 765_000_000) }
    ensures { result ≡ hour_angles g a middle }
{
    let v0 = relative(g.v0, a.v0, -3, middle);
    let v1 = relative(g.v1, a.v1, -2, middle);
    let v2 = relative(g.v2, a.v2, -1, middle);
    let v3 = relative(g.v3, a.v3, 0, middle);
    let v4 = relative(g.v4, a.v4, 1, middle);
    let v5 = relative(g.v5, a.v5, 2, middle);
    let v6 = relative(g.v6, a.v6, 3, middle);
    Hourly {
        v0,
        v1,
        v2,
        v3,
        v4,
        v5,
        v6,
    }
}

// μ: the quadratic of these, with the middle row's hour angle and 15 degrees an hour put back.
fn hour_angle(q: Quadratic, middle: i64) -> Quadratic
    requires { (QuadraticSizes 900_000_000 180_000_000 180_000_000 q) × (nat_abs middle ≤ 765_000_000) }
    ensures { result ≡ hour_angle q middle }
{
    let b0 = q.c0;
    let b1 = q.c1;
    let c2 = q.c2;
    let c0 = sine::reduced(middle + b0) as i64;
    let c1 = b1 + 15_000_000;
    Quadratic { c0, c1, c2 }
}

// Six values at the seven hours, which are fitted. mu: the hour angle less 15 degrees an hour, from that of the
// middle row.
#[derive(Clone, Copy)]
pub struct Columns {
    pub x: Hourly,
    pub y: Hourly,
    pub d: Hourly,
    pub l1: Hourly,
    pub l2: Hourly,
    pub mu: Hourly,
}

// The hour angle of the middle row.
fn middle_of(h: Hours, g: Hourly) -> i64
    requires { (HoursSizes h) × (HourlySizes 360_000_000 g) }
    ensures { Value (middleOf h g) 765_000_000 result }
{
    let h3 = h.h3;
    turn(g.v3, h3.ascension, 0)
}

// What all rows give, as six columns.
fn columns_of(h: Hours, g: Hourly, middle: i64) -> Columns
    requires { (HoursSizes h) × (HourlySizes 360_000_000 g) × (nat_abs middle ≤ 765_000_000) }
    ensures { result ≡ columnsOf h g middle }
{
    let x = each(h, |hour| hour.x);
    let y = each(h, |hour| hour.y);
    let d = each(h, |hour| hour.d);
    let l1 = each(h, |hour| hour.l1);
    let l2 = each(h, |hour| hour.l2);
    let ascensions = each(h, |hour| hour.ascension);
    let mu = hour_angles(g, ascensions, middle);
    Columns {
        x,
        y,
        d,
        l1,
        l2,
        mu,
    }
}

// The elements of six columns, with the middle row's hour angle and tangents.
fn fitted(c: Columns, middle: i64, tanf1: i64, tanf2: i64) -> Elements
    requires { (ColumnsSizes c) × (nat_abs middle ≤ 765_000_000) × (nat_abs tanf1 ≤ 600_000) × (nat_abs tanf2 ≤ 600_000) }
    ensures { result ≡ fitted c middle tanf1 tanf2 }
{
    let x = cubic(c.x);
    let y = cubic(c.y);
    let d = quadratic(c.d);
    let l1 = quadratic(c.l1);
    let l2 = quadratic(c.l2);
    let q = quadratic(c.mu);
    let mu = hour_angle(q, middle);
    let axis = elements::Axis { x, y, d, mu };
    let penumbra = elements::Cone { l: l1, tanf: tanf1 };
    let central = elements::Cone { l: l2, tanf: tanf2 };
    Elements {
        axis,
        penumbra,
        central,
    }
}

// The columns of some rows, and the elements that are fitted to them.
#[derive(Clone, Copy)]
pub struct Fitting {
    pub columns: Columns,
    pub elements: Elements,
}

fn fitting_of(table: &[u32], t: Rows, g: Hourly, k: besselian_rows::besselian::Radii) -> Fitting
    requires { (Sines table.now) × (AllAccepted t) × (HourlySizes 360_000_000 g) × (RadiiInRange k) }
    ensures { result ≡ fitting_of k t g }
{
    let h = hours_of(table, t, k);
    let middle = middle_of(h, g);
    let columns = columns_of(h, g, middle);
    let b = besselian_rows::rows::elements_of(t.r3, k);
    let tanf1 = b.tanf1;
    let tanf2 = b.tanf2;
    let made = fitted(columns, middle, tanf1, tanf2);
    Fitting {
        columns,
        elements: made,
    }
}

// ---- how far a fit is from its values

// What was found before, or this place where nothing was found and it is not good.
fn unless(found: Option<usize>, good: bool, place: usize) -> Option<usize>
    ensures { result ≡ unless found good place }
{
    if let Some(i) = found {
        return Some(i);
    }
    if good {
        return None;
    }
    Some(place)
}

// How far a cubic's value at hour t is from v.
fn off(c: Cubic, t: i64, v: i64) -> u64
    requires { (CoefficientSizes 1_000_000_000_000 c) × (nat_abs t ≤ 3) × (nat_abs v ≤ 100_000_000_000) }
    ensures value { result ≡ off c t v }
    ensures small { result ≤ 50_000_000_000_000 }
{
    let c0 = c.c0;
    let c1 = c.c1;
    let c2 = c.c2;
    let c3 = c.c3;
    let off = ((c3 * t + c2) * t + c1) * t + c0 - v;
    rounding::abs(off) as u64
}

// Whether that is at most the tolerance.
fn close(c: Cubic, t: i64, v: i64, tolerance: u64) -> bool
    requires { (CoefficientSizes 1_000_000_000_000 c) × (nat_abs t ≤ 3) × (nat_abs v ≤ 100_000_000_000) }
    ensures { result ≡ close c t v tolerance }
{
    let size = off(c, t, v);
    size <= tolerance
}

// What was found before, or `place` and the first hour, 0 to 6, at which the cubic is not close.
fn missed(found: Option<usize>, c: Cubic, v: Hourly, tolerance: u64, place: usize) -> Option<usize>
    requires { (CoefficientSizes 1_000_000_000_000 c) × (HourlySizes 100_000_000_000 v) × (place ≤ 50) }
    ensures { result ≡ missed found c v tolerance place }
{
    let b0 = close(c, -3, v.v0, tolerance);
    let f0 = unless(found, b0, place);
    let b1 = close(c, -2, v.v1, tolerance);
    let f1 = unless(f0, b1, place + 1);
    let b2 = close(c, -1, v.v2, tolerance);
    let f2 = unless(f1, b2, place + 2);
    let b3 = close(c, 0, v.v3, tolerance);
    let f3 = unless(f2, b3, place + 3);
    let b4 = close(c, 1, v.v4, tolerance);
    let f4 = unless(f3, b4, place + 4);
    let b5 = close(c, 2, v.v5, tolerance);
    let f5 = unless(f4, b5, place + 5);
    let b6 = close(c, 3, v.v6, tolerance);
    unless(f5, b6, place + 6)
}

fn larger(a: u64, b: u64) -> u64
    requires { (a ≤ 50_000_000_000_000) × (b ≤ 50_000_000_000_000) }
    ensures value { result ≡ larger a b }
    ensures small { result ≤ 50_000_000_000_000 }
{
    if a < b { b } else { a }
}

// How far a cubic is from seven values at most.
fn misfit(c: Cubic, v: Hourly) -> u64
    requires { (CoefficientSizes 1_000_000_000_000 c) × (HourlySizes 100_000_000_000 v) }
    ensures value { result ≡ misfit c v }
    ensures small { result ≤ 50_000_000_000_000 }
{
    let o0 = off(c, -3, v.v0);
    let o1 = off(c, -2, v.v1);
    let m1 = larger(o0, o1);
    let o2 = off(c, -1, v.v2);
    let m2 = larger(m1, o2);
    let o3 = off(c, 0, v.v3);
    let m3 = larger(m2, o3);
    let o4 = off(c, 1, v.v4);
    let m4 = larger(m3, o4);
    let o5 = off(c, 2, v.v5);
    let m5 = larger(m4, o5);
    let o6 = off(c, 3, v.v6);
    larger(m5, o6)
}

// A quadratic as a cubic.
fn raised(q: Quadratic) -> Cubic
    ensures { result ≡ raised q }
{
    let c0 = q.c0;
    let c1 = q.c1;
    let c2 = q.c2;
    Cubic { c0, c1, c2, c3: 0 }
}

// Whether each fit is close to its values at all hours, or the first that is not: ten times the fit, of x, y, d, l1, l2
// and mu, 0 to 5, and the hour.
fn first_missed(c: Columns, tolerance: u64) -> Option<usize>
    requires { ColumnsSizes c }
    ensures { result ≡ first_missed c tolerance }
{
    let f0 = missed(None, cubic(c.x), c.x, tolerance, 0);
    let f1 = missed(f0, cubic(c.y), c.y, tolerance, 10);
    let f2 = missed(f1, raised(quadratic(c.d)), c.d, tolerance, 20);
    let f3 = missed(f2, raised(quadratic(c.l1)), c.l1, tolerance, 30);
    let f4 = missed(f3, raised(quadratic(c.l2)), c.l2, tolerance, 40);
    missed(f4, raised(quadratic(c.mu)), c.mu, tolerance, 50)
}

// How far each fit is from its values at most, at any of the seven hours.
#[derive(Clone, Copy)]
pub struct Misfits {
    pub x: i64,
    pub y: i64,
    pub d: i64,
    pub l1: i64,
    pub l2: i64,
    pub mu: i64,
}

fn misfits_of(c: Columns) -> Misfits
    requires { ColumnsSizes c }
    ensures { result ≡ misfits_of c }
{
    Misfits {
        x: misfit(cubic(c.x), c.x) as i64,
        y: misfit(cubic(c.y), c.y) as i64,
        d: misfit(raised(quadratic(c.d)), c.d) as i64,
        l1: misfit(raised(quadratic(c.l1)), c.l1) as i64,
        l2: misfit(raised(quadratic(c.l2)), c.l2) as i64,
        mu: misfit(raised(quadratic(c.mu)), c.mu) as i64,
    }
}

// ---- the answer

// Elements with their misfits.
#[derive(Clone, Copy)]
pub struct Fits {
    pub elements: Elements,
    pub misfits: Misfits,
}

// Elements in their ranges whose fits keep within the tolerance; or 2 with the first element out of its range, 0 to 21;
// or 17 with ten times the first fit, of x, y, d, l1, l2 and mu, 0 to 5, that misses one of its values by more than the
// tolerance, and the first such hour, 0 to 6.
fn judged(f: Fitting, tolerance: u64) -> Result<Fits, Refusal>
    requires { ColumnsSizes f.columns }
    ensures { result ≡ judged f tolerance }
{
    elements::check(f.elements)?;
    // No `?`: a place that was found becomes a refusal, and nothing found goes on.
    if let Some(place) = first_missed(f.columns, tolerance) {
        return Err(Refusal { number: 17, place });
    }
    Ok(Fits {
        elements: f.elements,
        misfits: misfits_of(f.columns),
    })
}

// The elements of seven accepted rows, with the sidereal time at Greenwich at their hours and the radii of Sun and
// Moon; or 2 or 17. `table` is table S.
fn fits_of(
    table: &[u32],
    t: Rows,
    g: Hourly,
    k: besselian_rows::besselian::Radii,
    tolerance: u64,
) -> Result<Fits, Refusal>
    requires { (Sines table.now) × (AllAccepted t) × (HourlySizes 360_000_000 g) × (RadiiInRange k) }
    ensures { result ≡ judged (fitting_of k t g) tolerance }
{
    let f = fitting_of(table, t, g, k);
    judged(f, tolerance)
}
