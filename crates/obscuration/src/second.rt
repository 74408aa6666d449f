// How much of the Sun is gone at a second of an eclipse.
ghost use Rattle.std.specs.Prelude.{◌≡◌, ◌≤◌, nat_abs};
ghost use Rattle.sine_table.specs.Table.{Sines};
ghost use Rattle.obscuration.specs.Share.{share, Sizes};
ghost use Rattle.elements.specs.Sizes.{ElementSizes};
ghost use Rattle.station.specs.Sizes.{PlaceSizes};
ghost use Rattle.obscuration.specs.Covered.{share_at};
ghost use Rattle.obscuration.specs.Answer.{share_by};
ghost use Rattle.obscuration.specs.AnswerLaws.{AnsweredSizes};

use sheet_types::refusals::Refusal;

// The share of a shadow.
fn share_of(s: shadow::Shadow) -> u32
    requires { Sizes s.l1 s.l2 s.m }
    ensures { result ≡ share s.l1 s.l2 s.m }
{
    crate::area::share(s.l1, s.l2, s.m)
}

// The share at a second of an eclipse within its limits, from a filled sine table and the place.
pub fn share_at(table: &[u32], e: elements::Elements, place: station::Place, t: i64) -> u32
    requires { (Sines table.now) × (ElementSizes e) × (PlaceSizes place) × (nat_abs t ≤ 10800) }
    ensures { result ≡ share_at e place t }
{
    let s = shadow::shadow_at(table, e, place, t);
    share_of(s)
}

// The share of what is answered of a second, or its refusal.
// It is for crates that have the second, and has a `requires`, so it is none of the public promises.
pub fn of_second(second: Result<shadow::Second, Refusal>) -> Result<u32, Refusal>
    requires { AnsweredSizes second }
    ensures { result ≡ share_by second }
{
    let x = second?;
    Ok(share_of(x.shadow))
}
