// The root with its rounds: two bits of n a round, from its highest one.
ghost use Rattle.std.specs.Prelude.{◌+◌};
ghost use Rattle.rounding.specs.Rounds.{Holds, Reported};

// The state of the loop.
#[derive(Clone, Copy)]
struct Held {
    // root of the bits taken in so far, below 2^32
    root: u64,
    // what these bits are above its square, at most twice the root
    rest: u64,
}

#[derive(Clone, Copy)]
pub struct Root {
    pub root: u64,
    // 0 to 32
    pub rounds: u32,
}

// One round, with i more to come: two bits are taken in, the root doubles and gains one if its square then fits.
fn round(n: u64, i: u32, held: Held) -> Held
    requires { Holds n (i + 1) held.root held.rest }
    ensures { Holds n i result.root result.rest }
{
    let rest = 4 * held.rest + (n >> (2 * i)) % 4;
    let t = 4 * held.root + 1;
    let root = 2 * held.root;
    if t <= rest {
        Held {
            root: root + 1,
            rest: rest - t,
        }
    } else {
        Held { root, rest }
    }
}

// The largest whole number whose square is at most n, and in how many rounds it was found: leading zeros give the bit
// pair to start from.
pub fn root_and_rounds(n: u64) -> Root
    ensures { Reported n result.root result.rounds }
{
    let rounds = (65 - u64::leading_zeros(n)) / 2;
    let mut held = Held { root: 0, rest: 0 };
    for i in (0..rounds).rev() {
        held = round(n, i, held);
    }
    Root {
        root: held.root,
        rounds,
    }
}
