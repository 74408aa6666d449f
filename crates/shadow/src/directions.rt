// The direction of the shadow's axis from the station.
ghost use Rattle.std.specs.Prelude.{◌≡◌, ◌≤◌, pos, nat_abs};
ghost use Rattle.sine_table.specs.Table.{S, Sines};
ghost use Rattle.shadow_geometry.specs.Direction.{quarter, direction};

// The direction within a quarter, tenths of a degree, of an axis that lies u across and v along. As k grows the one
// side rises and the other falls, so the largest k is found by halving: low reaches, and nothing from high to 899
// does.
fn quarter(table: &[u32], u: u64, v: u64) -> u16
    requires { (Sines table.now) × (u ≤ 1000000000) × (v ≤ 1000000000) }
    ensures { result ≡ quarter S (pos u) (pos v) }
{
    // Not `partition_point`: the test at k reads the table at 900 - k too.
    let mut low = 0;
    let mut high = 900;
    while low + 1 < high {
        let k = (low + high) / 2;
        let rising = u64::from(sine_table::entry(table, k));
        let falling = u64::from(sine_table::entry(table, 900 - k));
        if v * rising <= u * falling {
            low = k;
        } else {
            high = k;
        }
    }
    low as u16
}

// The direction of the axis that lies u to the east and v to the north: tenths of a degree, north through east; 65,535
// at the axis itself.
pub fn direction(table: &[u32], u: i64, v: i64) -> u16
    requires { (Sines table.now) × (nat_abs u ≤ 1000000000) × (nat_abs v ≤ 1000000000) }
    ensures { result ≡ direction S u v }
{
    let a = rounding::abs(u) as u64;
    let b = rounding::abs(v) as u64;
    if u < 0 {
        if v < 0 {
            return 1800 + quarter(table, a, b);
        }
        return 2700 + quarter(table, b, a);
    }
    if 0 < v {
        return quarter(table, a, b);
    }
    if 0 < u {
        return 900 + quarter(table, b, a);
    }
    if v < 0 {
        return 1800 + quarter(table, a, b);
    }
    65_535
}
