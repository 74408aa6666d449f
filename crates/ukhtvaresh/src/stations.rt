// The whole network in one list, for C and Rust.
ghost use Rattle.std.specs.Prelude.{◌≡◌, List, length};
ghost use Rattle.clock_network.specs.declared.stations.Node.{Node};
ghost use Rattle.clock_network.specs.Nodes.{Holds};
ghost use Rattle.networks.specs.Network.{answer_to, sines_for, steps_for};
ghost use Rattle.ukhtvaresh.specs.NetworkReply.{network_reply, Told};

use clock_network::stations::{Held, Node};

// The answer to a list that is held.
fn told(eclipse: &[i64], h: Held, sines: &mut [u32], steps: &mut [u64], value: &mut u64) -> u64
    requires { length h.nodes ≡ 64 }
    ensures { (l : List Node) → Holds h l → Told eclipse.now l sines.old steps.old result sines.new steps.new value.new }
{
    let answer = networks::network(eclipse, h, sines, steps);
    let reply = crate::replies::network_reply(answer);
    *value = reply.value;
    reply.number
}

// The steps of each station's clock from the antenna, 64 numbers in list order, 0 past the list; value: the number of
// the station whose first enter comes first, 0 for none. `eclipse` is the 22 elements, the window's first and last
// second, and the guard; `sines` is the buffer for table S.
#[unsafe(no_mangle)]
pub extern "C" fn ukhtvaresh_network(
    eclipse: &[i64],
    stations: &[Node],
    sines: &mut [u32],
    steps: &mut [u64],
    value: &mut u64,
) -> u64
    ensures { (result ≡ (network_reply (answer_to eclipse.now stations.now sines.old steps.old)).number)
        × (value.new ≡ (network_reply (answer_to eclipse.now stations.now sines.old steps.old)).value)
        × (steps.new ≡ steps_for eclipse.now stations.now sines.old steps.old)
        × (sines.new ≡ sines_for eclipse.now stations.now sines.old steps.old) }
{
    told(
        eclipse,
        clock_network::stations::gathered(stations),
        sines,
        steps,
        value,
    )
}
