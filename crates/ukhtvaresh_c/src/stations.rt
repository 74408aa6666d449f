// The whole network in one list, for C and Rust.
ghost use Rattle.std.specs.Prelude.{◌≡◌};
ghost use Rattle.networks.specs.Network.{answer_to, sines_for, steps_for};
ghost use Rattle.ukhtvaresh.specs.NetworkReply.{network_reply};

use clock_network::stations::Node;

// The steps of each station's clock from the antenna, 64 numbers in list order, 0 past the list; value: the number of
// the station whose first enter comes first, 0 for none. `eclipse` is the 22 elements, the window's first and last
// second, and the guard; `sines` is the buffer for table S.
#[unsafe(no_mangle)]
pub extern "C" fn ukhtvaresh_network(
    eclipse: &[i64],
    stations: &[Node],
    sines: &mut [u32],
    steps: &mut [u64],
    value: &mut u64,
) -> u64
    ensures { (result ≡ (network_reply (answer_to eclipse.now stations.now sines.old steps.old)).number)
        × (value.new ≡ (network_reply (answer_to eclipse.now stations.now sines.old steps.old)).value)
        × (steps.new ≡ steps_for eclipse.now stations.now sines.old steps.old)
        × (sines.new ≡ sines_for eclipse.now stations.now sines.old steps.old) }
{
    ukhtvaresh::stations::ukhtvaresh_network(eclipse, stations, sines, steps, value)
}
