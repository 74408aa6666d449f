// The station whose first enter comes first; this says nothing of the horizon.
ghost use Rattle.std.specs.Prelude.{◌≡◌, ◌≤◌, length, take};
ghost use Rattle.sine_table.specs.Table.{Sines};
ghost use Rattle.clock_network.specs.CheckLaws.{AllWithin};
ghost use Rattle.networks.specs.Network.{tos_of, named};

use clock_network::checks::Eclipse;
use clock_network::stations::Held;

// The "to" of the first enter of each of n stations, as it is stored, or 21,601 where it has none.
pub fn first_tos(table: &[u32], e: Eclipse, h: Held, n: usize) -> [u32; 64]
    requires { (Sines table.now) × (n ≤ 64) × (length h.nodes ≡ 64) × (AllWithin e (take n h.nodes)) }
    ensures { (length result ≡ 64) × (take n result ≡ tos_of e (take n h.nodes)) }
{
    let mut tos = [0u32; 64];
    for (i, x) in h.nodes[..n].iter().enumerate() {
        let q = clock_network::checks::request(e, x.station);
        tos[i] = crate::first_contact::first_to(table, q);
    }
    tos
}

// The station whose first enter has the smallest "to", the first in the list among equals; 0 where none enters.
pub fn first_seen(table: &[u32], e: Eclipse, h: Held) -> u64
    requires { (Sines table.now) × (h.count ≤ 64) × (length h.nodes ≡ 64) × (AllWithin e (take h.count h.nodes)) }
    ensures { result ≡ named e (take h.count h.nodes) }
{
    let n = h.count;
    let tos = first_tos(table, e, h, n);
    let best = clock_network::strata::earliest(&tos[..n], 21_601);
    if best < n {
        let x = h.nodes[best];
        let s = x.station;
        return s.number as u64;
    }
    0
}
