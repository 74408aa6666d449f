// The whole network in one list: the steps of each station's clock from the antenna, and the station whose first enter
// comes first; this says nothing of the horizon. The list is taken as a value (crate `nodes`).
#![tactic(auto)]

pub mod first_contact;
pub mod sight;

ghost use Rattle.std.specs.Prelude.{◌≡◌, ◌≤◌, List, length, take};
ghost use Rattle.clock_network.specs.Defined.{firstRepeat, steps_of};
ghost use Rattle.clock_network.specs.declared.stations.Node.{Node};
ghost use Rattle.clock_network.specs.Nodes.{numbers_of, clocks_of, Holds};
ghost use Rattle.clock_network.specs.Checks.{eclipse_of};
ghost use Rattle.networks.specs.AnswerLaws.{Answered, Answers};

use clock_network::stations::Held;
use sheet_types::refusals::Refusal;

// The steps of all stations, 64 numbers in list order.
fn tell_steps(h: Held, steps: &mut [u64])
    requires count_bound { (h.count ≤ 64) × (length h.nodes ≡ 64) × (length steps.old ≡ 64) }
    requires nodes_value { firstRepeat (numbers_of (take h.count h.nodes)) ≡ length (numbers_of (take h.count h.nodes)) }
    ensures { steps.new ≡ steps_of (numbers_of (take h.count h.nodes)) (clocks_of (take h.count h.nodes)) }
{
    let n = h.count;
    let a = clock_network::stations::numbers(h);
    let b = clock_network::stations::clocks(h);
    let told = clock_network::strata::all_steps(&a[..n], &b[..n]);
    steps.copy_from_slice(&told.map(|steps| u64::from(steps)));
}

// The answer to numbers and steps of the right lengths.
fn name(eclipse: &[i64], h: Held, sines: &mut [u32], steps: &mut [u64]) -> Result<u64, Refusal>
    requires { (length eclipse.now ≡ 25) × (length h.nodes ≡ 64) × (length steps.old ≡ 64) }
    ensures { (l : List Node) → Holds h l → Answered (eclipse_of eclipse.now) l sines.old steps.old result sines.new steps.new }
{
    let e = clock_network::checks::eclipse_from(eclipse);
    clock_network::checks::check(e, h)?;
    requests::admission::fill_sines(sines)?;
    tell_steps(h, steps);
    Ok(sight::first_seen(sines, e, h))
}

// The answer to a list that is held; `sines` is the buffer for table S, and `steps` has 64 numbers.
pub fn network(
    eclipse: &[i64],
    h: Held,
    sines: &mut [u32],
    steps: &mut [u64],
) -> Result<u64, Refusal>
    requires { length h.nodes ≡ 64 }
    ensures { (l : List Node) → Holds h l → Answers eclipse.now l sines.old steps.old result sines.new steps.new }
{
    let shaped = (eclipse.len() == 25) & (steps.len() == 64);
    if !shaped {
        return Err(Refusal {
            number: 10,
            place: 0,
        });
    }
    name(eclipse, h, sines, steps)
}
