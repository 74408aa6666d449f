// Table S: the sines of each tenth of a degree from 0 to 90, in units of 10^-8, summed up from their second
// differences in a caller-provided buffer.
#![tactic(auto)]

mod differences;

ghost use Rattle.std.specs.Prelude.{◌≤◌, ◌<◌, ◌≡◌, pos, length};
ghost use Rattle.sine_table.specs.Table.{Entry, Sines};
ghost use Rattle.sine_table.specs.Room.{filled, Gives};

// The second differences of table S, which callers pass to `sum_up`: an array constant is built again wherever it is
// named.
fn second_differences() -> [i16; 899]
    ensures { Gives 0 (pos 0) (pos 174_533) result }
{
    differences::SECOND_DIFFERENCES
}

// Entry after entry, from the first two: the step to the next one grows by a second difference.
fn sum_up(differences: &[i16], room: &mut [u32])
    requires { (Gives 0 (pos 0) (pos 174_533) differences.now) × (901 ≤ length room.old) }
    ensures { room.new ≡ filled room.old }
{
    let mut entry = differences::FIRST;
    let mut step = differences::SECOND - differences::FIRST;
    for (k, &difference) in differences.iter().enumerate() {
        room[k] = entry as u32;
        entry += step;
        step += i64::from(difference);
    }
    room[899] = entry as u32;
    room[900] = (entry + step) as u32;
}

// Table S in the first 901 numbers of the caller's buffer; what lies past them stays. A slice with its length in a
// `requires`, and no `&mut [u32; 901]`: callers lend longer buffers too, and the clause `room` says what is past them.
pub fn fill(room: &mut [u32])
    requires { 901 ≤ length room.old }
    ensures room { room.new ≡ filled room.old }
    ensures sines { Sines room.new }
{
    let differences = second_differences();
    sum_up(&differences, room);
}

// Entry k of a filled table. `Sines` stays a `requires`, and the table a slice: `sine::sine` and the other public
// functions that read it take it so, and a type in its place would ask more of their callers.
pub fn entry(table: &[u32], k: usize) -> u32
    requires { (Sines table.now) × (k < 901) }
    ensures { Entry k result }
{
    table[k]
}
