// Whole units as doubles, each by one division.
ghost use Rattle.std.specs.Prelude.{◌≡◌, ◌++◌, ◌≤◌, length, drop};
ghost use Rattle.float_requests.specs.Instrument.{scales};
ghost use Rattle.float_requests.specs.Writing.{doubles_in, longitude_checked, answer_to, room_after, Claimed};
ghost use Rattle.float_requests.specs.laws.ReadBackLaws.{InRanges};

use sheet_types::refusals::Refusal;

// Refusal 3 with place 2 for a longitude out of its range: all else of this station is in its own.
fn check_longitude(longitude: i64) -> Result<(), Refusal>
    ensures { result ≡ longitude_checked longitude }
{
    station::check(station::Station {
        number: 1,
        latitude: 0,
        longitude,
        height: 0,
        deltat: 0,
    })
}

// Whether these units are made doubles where the buffer holds so many; or refusal 10 where they are not 23; 2 with the
// first element out of its range, 0 to 21; 3 with place 2 for the longitude; 4 with place 23 for a shorter buffer.
fn judged(units: &[i64], room: usize) -> Result<(), Refusal>
    ensures { result ≡ answer_to units.now room }
{
    if units.len() != 23 {
        return Err(Refusal {
            number: 10,
            place: 0,
        });
    }
    let e = elements::from_numbers(units);
    elements::check(e)?;
    let longitude = units[22];
    check_longitude(longitude)?;
    if room < 23 {
        return Err(Refusal {
            number: 4,
            place: 23,
        });
    }
    Ok(())
}

// Each unit as a double.
fn fill(units: &[i64], room: &mut [f64])
    requires { (InRanges units.now) × (23 ≤ length room.old) }
    ensures { room.new ≡ doubles_in scales units.now ++ drop 23 room.old }
{
    let scales = super::SCALES;
    for i in 0..23 {
        room[i] = binary64::double_of(units[i], scales[i]);
    }
}

// The doubles of 23 units, the 22 elements and a longitude, in degrees, at the start of `room`; or a refusal of
// `judged`, which leaves `room` as it was.
pub fn write(units: &[i64], room: &mut [f64]) -> Result<(), Refusal>
    ensures answer { result ≡ answer_to units.now (length room.old) }
    ensures room { room.new ≡ room_after (answer_to units.now (length room.old)) units.now room.old }
    ensures back { Claimed (answer_to units.now (length room.old)) units.now room.new }
{
    judged(units, room.len())?;
    fill(units, room);
    Ok(())
}
