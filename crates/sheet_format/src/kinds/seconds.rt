// Seconds as they are stored.
ghost use Rattle.std.specs.Prelude.{◌≡◌, ◌≤◌, nat_abs};
ghost use Rattle.sheet_format.specs.StoredSeconds.{stored, second_of};

// "a second is stored plus 10,800". It has a `requires`, so it is none of the public promises.
pub fn store_second(second: i64) -> u32
    requires { nat_abs second ≤ 10800 }
    ensures { (result ≡ stored second) × (result ≤ 21600) }
{
    (second + 10_800) as u32
}

// The second that is stored so.
pub fn second_of(stored: u32) -> i64
    ensures { result ≡ second_of stored }
{
    stored as i64 - 10_800
}
