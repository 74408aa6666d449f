// Sine and cosine as document 01 has them: they call each other, the angle falling by a quarter turn. Both stay two
// functions, beside `sine::sine` and `sine::cosine`, since this is the form that document 01 names (D8 of
// docs/DECISIONS.md).
ghost use Rattle.std.specs.Prelude.{◌≤◌, pos};
ghost use Rattle.sine_table.specs.Table.{Sines};
ghost use Rattle.sine.specs.Sine.{IsSine, IsCosine};

// The sine of an angle from 0 to 360 degrees.
#[cycle(cosine_sine)]
pub fn sine(table: &[u32], a: u64) -> i64
    requires { (Sines table.now) × (a ≤ 360_000_000) }
    ensures { IsSine (pos a) result }
{
    if a <= 90_000_000 {
        super::s(table, a)
    } else {
        cosine(table, a - 90_000_000)
    }
}

// The cosine of an angle from 0 to 360 degrees.
#[cycle(cosine_sine)]
pub fn cosine(table: &[u32], a: u64) -> i64
    requires { (Sines table.now) × (a ≤ 360_000_000) }
    ensures { IsCosine (pos a) result }
{
    if a <= 90_000_000 {
        super::c(table, a)
    } else {
        -sine(table, a - 90_000_000)
    }
}
