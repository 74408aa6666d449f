// The stations of a network in one list, each with the station whose clock it follows. `size`, `taken` and `gathered`
// take the borrowed list, a slice of structs, and turn it into a value; everything else works on that value.
ghost use Rattle.std.specs.Prelude.{◌≡◌, ◌<◌, length, get_or};
ghost use Rattle.clock_network.specs.Held.{blank_node, empty_of, put_of, least64, held_of};
ghost use Rattle.clock_network.specs.Nodes.{numbers_of, clocks_of};

use station::Station;

#[repr(C)]
#[derive(Clone, Copy)]
pub struct Node {
    pub station: Station,
    // Number of the station whose clock it follows; 0 is the antenna.
    pub clock: i64,
}

// What stands where there is no node.
fn blank() -> Node
    ensures { result ≡ blank_node }
{
    Node {
        station: Station {
            number: 0,
            latitude: 0,
            longitude: 0,
            height: 0,
            deltat: 0,
        },
        clock: 0,
    }
}

// A list's nodes, as many as fit, with the list's own length: an array with its count, since there is no heap.
#[derive(Clone, Copy)]
pub struct Held {
    pub nodes: [Node; 64],
    pub count: usize,
}

// Room for 64 nodes of a list of n, with none put in.
pub fn empty(n: usize) -> Held
    ensures { result ≡ empty_of n }
{
    let b = blank();
    let nodes = [b; 64];
    Held { nodes, count: n }
}

// With a node stored at place i.
pub fn put(h: Held, i: usize, n: Node) -> Held
    requires { i < 64 }
    ensures { result ≡ put_of h i n }
{
    let mut g = h;
    g.nodes[i] = n;
    g
}

// ---- the borrowed list

// Its length.
fn size(l: &[Node]) -> usize
    ensures { result ≡ length l.now }
{
    l.len()
}

// A node, taken out of the list by value.
fn taken(l: &[Node], i: usize) -> Node
    requires { i < length l.now }
    ensures { result ≡ get_or l.now i blank_node }
{
    l[i]
}

// Its nodes, as many as fit: the only loop over the borrowed list.
pub fn gathered(l: &[Node]) -> Held
    ensures { result ≡ held_of l.now (least64 (length l.now)) }
{
    let n = size(l);
    let mut h = empty(n);
    for i in 0..n.min(64) {
        h.nodes[i] = taken(l, i);
    }
    h
}

// ---- the list as a value

// The numbers of the nodes.
pub fn numbers(h: Held) -> [i64; 64]
    requires { length h.nodes ≡ 64 }
    ensures { result ≡ numbers_of h.nodes }
{
    h.nodes.map(|n| n.station.number)
}

// The clocks of the nodes.
pub fn clocks(h: Held) -> [i64; 64]
    requires { length h.nodes ≡ 64 }
    ensures { result ≡ clocks_of h.nodes }
{
    h.nodes.map(|n| n.clock)
}
