// Elements from tables of Sun and Moon: seven hourly rows, 42 numbers, to eight values for each row, 56 numbers.
ghost use Rattle.std.specs.Prelude.{◌≡◌, ◌+◌, ◌*◌, ◌≤◌, ◌<◌, length, Ok};
ghost use Rattle.std.proofs.lemmas.List.Edits.{sets};
ghost use Rattle.besselian_rows.specs.Tables.{rowAt, eight, first_refused, values_of, answer_to, values_after, Claimed};

use sheet_types::refusals::Refusal;

// Row i: the Sun's x, y, z and the Moon's.
pub fn row_at(rows: &[i64], i: usize) -> crate::besselian::Row
    requires { (length rows.now ≡ 42) × (i < 7) }
    ensures { result ≡ rowAt rows.now i }
{
    let at = 6 * i;
    let row = &rows[at..at + 6];
    let sunx = row[0];
    let suny = row[1];
    let sunz = row[2];
    let moonx = row[3];
    let moony = row[4];
    let moonz = row[5];
    crate::besselian::Row {
        sunx,
        suny,
        sunz,
        moonx,
        moony,
        moonz,
    }
}

// Whether each of the seven rows is accepted, or the first, 0 to 6, that is not.
pub fn first_refused(rows: &[i64]) -> Result<(), usize>
    requires { length rows.now ≡ 42 }
    ensures { result ≡ first_refused rows.now 0 7 }
{
    for i in 0..7 {
        if !crate::rows::accepted(row_at(rows, i)) {
            return Err(i);
        }
    }
    Ok(())
}

// Whether the rows' values are made where the buffer holds so many numbers, or refusal 10, 11 or 4, in this order.
fn judged(rows: &[i64], room: usize) -> Result<(), Refusal>
    ensures { result ≡ answer_to rows.now room }
{
    if rows.len() != 42 {
        return Err(Refusal {
            number: 10,
            place: 0,
        });
    }
    first_refused(rows).map_err(|i| Refusal {
        number: 11,
        place: i,
    })?;
    if room < 56 {
        return Err(Refusal {
            number: 4,
            place: 56,
        });
    }
    Ok(())
}

// The eight values of a row, from place `at` on.
fn store(values: &mut [i64], at: usize, b: crate::besselian::Besselian)
    requires { at + 8 ≤ length values.old }
    ensures { values.new ≡ sets values.old at (eight b) }
{
    let eight = [b.x, b.y, b.sind, b.cosd, b.tanf1, b.tanf2, b.l1, b.l2];
    values[at..at + 8].copy_from_slice(&eight);
}

// The values of all rows.
fn fill(rows: &[i64], values: &mut [i64])
    requires { (length rows.now ≡ 42) × (first_refused rows.now 0 7 ≡ Ok tt) × (56 ≤ length values.old) }
    ensures { values.new ≡ sets values.old 0 (values_of rows.now 7) }
{
    let k = crate::besselian::Radii {
        sun: 10_904_847_000,
        penumbra: 27_227_400,
        central: 27_227_400,
    };
    for i in 0..7 {
        let b = crate::rows::elements_of(row_at(rows, i), k);
        store(values, 8 * i, b);
    }
}

// The elements of seven rows, each the Sun's x, y, z and the Moon's x, y, z, at the start of `values`, each row's x,
// y, sin d, cos d, tan f1, tan f2, l1, l2. Refusals: 10 for another length than 42; 11 with the first row that is not
// accepted; 4 with 56 where the buffer is shorter.
pub fn elements(rows: &[i64], values: &mut [i64]) -> Result<(), Refusal>
    ensures answer { result ≡ answer_to rows.now (length values.old) }
    ensures values { values.new ≡ values_after (answer_to rows.now (length values.old)) rows.now values.old }
    ensures faithful { Claimed (answer_to rows.now (length values.old)) rows.now values.new }
{
    judged(rows, values.len())?;
    fill(rows, values);
    Ok(())
}
