// Elements from the caller's numbers: 42 of the rows, seven sidereal angles, three radii, a tolerance; and the elements
// and misfits in the caller's buffers.
ghost use Rattle.std.specs.Prelude.{◌≡◌, ◌+◌, ◌≤◌, nat_abs, [], ◌∷◌, ◌++◌, length, drop};
ghost use Rattle.std.proofs.lemmas.List.Edits.{sets};
ghost use Rattle.rounding.specs.Limits.{first_out_of_range};
ghost use Rattle.sheet_types.specs.Refusals.{of_limits};
ghost use Rattle.sine_table.specs.Table.{Sines};
ghost use Rattle.elements.specs.Elements.{fields};
ghost use Rattle.requests.specs.Admission.{sines_after};
ghost use Rattle.besselian_rows.specs.Exact.{RadiiInRange};
ghost use Rattle.besselian_rows.specs.Tables.{first_refused};
ghost use Rattle.element_fits.specs.Numbers.{four_of, three_of, rows_of, hourly_of, radii_of, tolerance_ranges, numbers_of, given_ranges, of_rows, given_checked, admitted, in_rooms, six_of, fits_asked, answer_to, elements_after, misfits_after};
ghost use Rattle.element_fits.specs.laws.NumbersLaws.{Taken};

use super::{Misfits, Rows};
use crate::Fits;
use crate::least_squares::Hourly;
use besselian_rows::besselian::Radii;
use elements::Elements;
use sheet_types::refusals::Refusal;

// ---- what is refused before table S is filled

// Refusal 18 with place 0 for a tolerance that is not 0 to 1,000.
fn tolerance_checked(tolerance: i64) -> Result<(), Refusal>
    ensures { result ≡ of_limits 18 (first_out_of_range 0 (tolerance_ranges tolerance)) }
{
    let values = [tolerance];
    let lows = [0i64];
    let highs = [1000i64];
    sheet_types::refusals::of_ranges(18, &values, &lows, &highs)
}

// The three radii and the seven sidereal angles.
fn listed(sidereal: &[i64], radii: &[i64]) -> [i64; 10]
    requires { (length sidereal.now ≡ 7) × (length radii.now ≡ 3) }
    ensures { result ≡ numbers_of sidereal.now radii.now }
{
    let k0 = radii[0];
    let k1 = radii[1];
    let k2 = radii[2];
    let g0 = sidereal[0];
    let g1 = sidereal[1];
    let g2 = sidereal[2];
    let g3 = sidereal[3];
    let g4 = sidereal[4];
    let g5 = sidereal[5];
    let g6 = sidereal[6];
    [k0, k1, k2, g0, g1, g2, g3, g4, g5, g6]
}

// Their ranges.
const LOWS: [i64; 10] = [10_890_000_000, 27_200_000, 27_200_000, 0, 0, 0, 0, 0, 0, 0];

const HIGHS: [i64; 10] = [
    10_930_000_000,
    27_300_000,
    27_300_000,
    359_999_999,
    359_999_999,
    359_999_999,
    359_999_999,
    359_999_999,
    359_999_999,
    359_999_999,
];

// Refusal 21 with the first radius, 0 to 2, or sidereal angle, 3 to 9, that is out of its range.
fn ranges_checked(sidereal: &[i64], radii: &[i64]) -> Result<(), Refusal>
    requires { (length sidereal.now ≡ 7) × (length radii.now ≡ 3) }
    ensures { result ≡ of_limits 21 (first_out_of_range 0 (given_ranges sidereal.now radii.now)) }
{
    let values = listed(sidereal, radii);
    let lows = LOWS;
    let highs = HIGHS;
    sheet_types::refusals::of_ranges(21, &values, &lows, &highs)
}

// Refusal 11 with the first row, 0 to 6, that is not accepted.
fn rows_checked(rows: &[i64]) -> Result<(), Refusal>
    requires { length rows.now ≡ 42 }
    ensures { result ≡ of_rows (first_refused rows.now 0 7) }
{
    besselian_rows::tables::first_refused(rows).map_err(|i| Refusal {
        number: 11,
        place: i,
    })
}

// Refusal 10 for other lengths than 42, 7 and 3, then 18, 21, 11, in this order.
fn given(rows: &[i64], sidereal: &[i64], radii: &[i64], tolerance: i64) -> Result<(), Refusal>
    ensures { result ≡ given_checked rows.now sidereal.now radii.now tolerance }
{
    if rows.len() != 42 {
        return Err(Refusal {
            number: 10,
            place: 0,
        });
    }
    if sidereal.len() != 7 {
        return Err(Refusal {
            number: 10,
            place: 0,
        });
    }
    if radii.len() != 3 {
        return Err(Refusal {
            number: 10,
            place: 0,
        });
    }
    tolerance_checked(tolerance)?;
    ranges_checked(sidereal, radii)?;
    rows_checked(rows)
}

// Those, then 4 with place 901; where nothing is refused, `sines` holds table S.
fn admit(
    rows: &[i64],
    sidereal: &[i64],
    radii: &[i64],
    tolerance: i64,
    sines: &mut [u32],
) -> Result<(), Refusal>
    ensures answer { result ≡ admitted rows.now sidereal.now radii.now tolerance sines.old }
    ensures sines { sines.new ≡ sines_after (admitted rows.now sidereal.now radii.now tolerance sines.old) sines.old }
{
    given(rows, sidereal, radii, tolerance)?;
    requests::admission::fill_sines(sines)
}

// ---- from lists to what they hold

fn rows_at(rows: &[i64]) -> Rows
    requires { length rows.now ≡ 42 }
    ensures { result ≡ rows_of rows.now }
{
    let r0 = besselian_rows::tables::row_at(rows, 0);
    let r1 = besselian_rows::tables::row_at(rows, 1);
    let r2 = besselian_rows::tables::row_at(rows, 2);
    let r3 = besselian_rows::tables::row_at(rows, 3);
    let r4 = besselian_rows::tables::row_at(rows, 4);
    let r5 = besselian_rows::tables::row_at(rows, 5);
    let r6 = besselian_rows::tables::row_at(rows, 6);
    Rows {
        r0,
        r1,
        r2,
        r3,
        r4,
        r5,
        r6,
    }
}

fn hourly_at(sidereal: &[i64]) -> Hourly
    requires { length sidereal.now ≡ 7 }
    ensures { result ≡ hourly_of sidereal.now }
{
    let v0 = sidereal[0];
    let v1 = sidereal[1];
    let v2 = sidereal[2];
    let v3 = sidereal[3];
    let v4 = sidereal[4];
    let v5 = sidereal[5];
    let v6 = sidereal[6];
    Hourly {
        v0,
        v1,
        v2,
        v3,
        v4,
        v5,
        v6,
    }
}

// A number that is not negative.
fn natural(z: i64) -> u64
    requires { nat_abs z ≤ 9223372036854775807 }
    ensures { result ≡ nat_abs z }
{
    rounding::abs(z) as u64
}

fn radii_at(radii: &[i64]) -> Radii
    requires { (length radii.now ≡ 3) × (RadiiInRange (radii_of radii.now)) }
    ensures { result ≡ radii_of radii.now }
{
    let k0 = radii[0];
    let k1 = radii[1];
    let k2 = radii[2];
    let sun = natural(k0);
    let penumbra = natural(k1);
    let central = natural(k2);
    Radii {
        sun,
        penumbra,
        central,
    }
}

// The answer to numbers of which nothing was refused so far: 2, 17. `table` is table S.
fn asked(
    table: &[u32],
    rows: &[i64],
    sidereal: &[i64],
    radii: &[i64],
    tolerance: i64,
) -> Result<Fits, Refusal>
    requires { (Sines table.now) × (Taken rows.now sidereal.now radii.now tolerance) }
    ensures { result ≡ fits_asked rows.now sidereal.now radii.now tolerance }
{
    let t = rows_at(rows);
    let g = hourly_at(sidereal);
    let k = radii_at(radii);
    let limit = natural(tolerance);
    super::fits_of(table, t, g, k, limit)
}

// The same answer, or 4 where the caller's buffers hold fewer than 22 and six numbers.
fn in_rooms(room: usize, second: usize, found: Result<Fits, Refusal>) -> Result<Fits, Refusal>
    ensures { result ≡ in_rooms room second found }
{
    let fits = found?;
    if room < 22 {
        return Err(Refusal {
            number: 4,
            place: 22,
        });
    }
    if second < 6 {
        return Err(Refusal {
            number: 4,
            place: 6,
        });
    }
    Ok(fits)
}

// ---- into the caller's buffers

// A cubic's four coefficients from place `at` on.
fn put_cubic(room: &mut [i64], at: usize, c: elements::Cubic)
    requires { at + 4 ≤ length room.old }
    ensures { room.new ≡ sets room.old at (four_of c) }
{
    room[at..at + 4].copy_from_slice(&[c.c0, c.c1, c.c2, c.c3]);
}

// A quadratic's three.
fn put_quadratic(room: &mut [i64], at: usize, q: elements::Quadratic)
    requires { at + 3 ≤ length room.old }
    ensures { room.new ≡ sets room.old at (three_of q) }
{
    room[at..at + 3].copy_from_slice(&[q.c0, q.c1, q.c2]);
}

// The two tangents, at their places.
fn put_tangents(room: &mut [i64], tanf1: i64, tanf2: i64)
    requires { 22 ≤ length room.old }
    ensures { room.new ≡ sets room.old 20 (tanf1 ∷ tanf2 ∷ []) }
{
    room[20..22].copy_from_slice(&[tanf1, tanf2]);
}

// The 22 elements in document 01's order at the start of the buffer.
fn put_elements(room: &mut [i64], e: Elements)
    requires { 22 ≤ length room.old }
    ensures { room.new ≡ fields e ++ drop 22 room.old }
{
    let axis = e.axis;
    let penumbra = e.penumbra;
    let central = e.central;
    put_cubic(room, 0, axis.x);
    put_cubic(room, 4, axis.y);
    put_quadratic(room, 8, axis.d);
    put_quadratic(room, 11, penumbra.l);
    put_quadratic(room, 14, central.l);
    put_quadratic(room, 17, axis.mu);
    put_tangents(room, penumbra.tanf, central.tanf);
}

// The six misfits.
fn put_misfits(room: &mut [i64], m: Misfits)
    requires { 6 ≤ length room.old }
    ensures { room.new ≡ six_of m ++ drop 6 room.old }
{
    room[0..6].copy_from_slice(&[m.x, m.y, m.d, m.l1, m.l2, m.mu]);
}

// The answer, before anything is stored.
fn answered(
    rows: &[i64],
    sidereal: &[i64],
    radii: &[i64],
    tolerance: i64,
    sines: &mut [u32],
    room: usize,
    second: usize,
) -> Result<Fits, Refusal>
    ensures answer { result ≡ answer_to rows.now sidereal.now radii.now tolerance sines.old room second }
    ensures sines { sines.new ≡ sines_after (admitted rows.now sidereal.now radii.now tolerance sines.old) sines.old }
{
    admit(rows, sidereal, radii, tolerance, sines)?;
    let found = asked(sines, rows, sidereal, radii, tolerance);
    in_rooms(room, second, found)
}

// The 22 elements and the six misfits at the start of `elements` and `misfits`, or the first refusal: 10 for other
// lengths than 42, 7 and 3; 18 for the tolerance; 21 for a radius or a sidereal angle; 11 for a row; 4 with 901 for a
// short buffer for table S; 2 and 17 as `judged` says; 4 with 22 and 4 with 6 for the other two buffers. Any numbers.
// `sines` is the buffer for table S, which is filled from 2 on; after a refusal the other two hold their old numbers.
pub fn elements(
    rows: &[i64],
    sidereal: &[i64],
    radii: &[i64],
    tolerance: i64,
    sines: &mut [u32],
    elements: &mut [i64],
    misfits: &mut [i64],
) -> Result<Fits, Refusal>
    ensures answer { result ≡ answer_to rows.now sidereal.now radii.now tolerance sines.old (length elements.old) (length misfits.old) }
    ensures sines { sines.new ≡ sines_after (admitted rows.now sidereal.now radii.now tolerance sines.old) sines.old }
    ensures elements { elements.new ≡ elements_after (answer_to rows.now sidereal.now radii.now tolerance sines.old (length elements.old) (length misfits.old)) elements.old }
    ensures misfits { misfits.new ≡ misfits_after (answer_to rows.now sidereal.now radii.now tolerance sines.old (length elements.old) (length misfits.old)) misfits.old }
{
    let room = elements.len();
    let second = misfits.len();
    let f = answered(rows, sidereal, radii, tolerance, sines, room, second)?;
    put_elements(elements, f.elements);
    put_misfits(misfits, f.misfits);
    Ok(f)
}
