// The mirror of a request: all y and d coefficients and the latitude with the other sign.
#![tactic(auto)]

ghost use Rattle.std.specs.Prelude.{◌≡◌, ◌<◌, pos, nat_abs, ◌≤ℤ◌};
ghost use Rattle.requests.specs.Mirror.{opposite};
ghost use Rattle.request_format.specs.Fields.{count};
ghost use Rattle.mirrors.specs.Bytes.{mirror_answer, mirror_buffer};
ghost use Rattle.mirrors.specs.laws.ChangedLaws.{turned, changed};

use request_format::fields::{COUNT, LENGTH};
use sheet_types::refusals::Refusal;

// The largest number of 4 bytes. Below its opposite lies one number more, -2^31, which has no opposite in 4 bytes and
// stays as it is.
const MOST_IN_BYTES: i64 = 2_147_483_647;

// The opposite of a number of at most `most` in size; any other as it is.
fn opposite(n: i64, most: i64) -> i64
    requires { pos 0 ≤ℤ most }
    ensures { result ≡ opposite (nat_abs most) n }
{
    if n < -most {
        return n;
    }
    if most < n {
        return n;
    }
    -n
}

// Number k with the other sign.
fn turn(numbers: &mut [i64; COUNT], k: usize)
    requires { k < count }
    ensures { numbers.new ≡ turned k numbers.old }
{
    let n = numbers[k];
    numbers[k] = opposite(n, MOST_IN_BYTES);
}

// y, d and the latitude with the other sign.
fn change(numbers: &mut [i64; COUNT])
    ensures { numbers.new ≡ changed numbers.old }
{
    turn(numbers, 4);
    turn(numbers, 5);
    turn(numbers, 6);
    turn(numbers, 7);
    turn(numbers, 8);
    turn(numbers, 9);
    turn(numbers, 10);
    turn(numbers, 23);
}

// The mirror of a request's bytes, at the start of the buffer, and its length; or 10, or 4, and the buffer as it was.
// It takes any bytes and any buffer.
pub fn mirror_bytes(request: &[u8], room: &mut [u8]) -> Result<usize, Refusal>
    ensures answer { result ≡ mirror_answer request.now room.old }
    ensures room { room.new ≡ mirror_buffer request.now room.old }
{
    let mut numbers = [0i64; COUNT];
    request_format::bytes::get(request, &mut numbers).ok_or(Refusal {
        number: 10,
        place: 0,
    })?;
    if room.len() < LENGTH {
        return Err(Refusal {
            number: 4,
            place: LENGTH,
        });
    }
    change(&mut numbers);
    let mut made = [0u8; LENGTH];
    // every number fits: it came from bytes, or its opposite did
    let _ = request_format::bytes::put(&numbers, &mut made);
    decimal_text::put_text(room, 0, &made);
    Ok(LENGTH)
}
