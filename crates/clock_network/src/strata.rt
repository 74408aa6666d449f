// The clocks of a network over its list's numbers and clocks, as plain slices: refusals 14, 15 and 16, the steps from
// the antenna, and the first of the smallest seconds. These functions are internal; they know no station and no
// shadow. Numbers and clocks are two lists, as in the definitions `firstStray` and `steps_of`.
ghost use Rattle.std.specs.Prelude.{◌≡◌, ◌+◌, ◌<◌, ◌≤◌, length};
ghost use Rattle.clock_network.specs.laws.First.{First};
ghost use Rattle.clock_network.specs.Steps.{At, Distinct, StepsAre, Zero};
ghost use Rattle.clock_network.specs.laws.Search.{Small, NextIs, ReadyIs};
ghost use Rattle.clock_network.specs.Defined.{firstRepeat, firstStray, first_lost, steps_of, earliestOf};

// The place of the first `x` in `l`, or `l`'s length.
fn place(l: &[i64], x: i64) -> usize
    ensures { First (At l.now x) (length l.now) result }
{
    l.iter().position(|y| *y == x).unwrap_or(l.len())
}

// The first place whose number stands earlier too, or the length. A number and no Option, as the definition
// (`firstRepeat`) is one; so are the searches below.
pub fn first_repeat(numbers: &[i64]) -> usize
    ensures { result ≡ firstRepeat numbers.now }
{
    for (i, x) in numbers.iter().enumerate() {
        if numbers[..i].contains(x) {
            return i;
        }
    }
    numbers.len()
}

// The first place whose clock is neither 0 nor a number of the list, or the length.
pub fn first_stray(numbers: &[i64], clocks: &[i64]) -> usize
    requires { length clocks.now ≡ length numbers.now }
    ensures { result ≡ firstStray numbers.now clocks.now }
{
    for (i, x) in clocks.iter().enumerate() {
        if *x != 0 && !numbers.contains(x) {
            return i;
        }
    }
    clocks.len()
}

// The steps of place i, from those of the places that are known so far, or 0 where those do not determine them.
fn next_steps(numbers: &[i64], clocks: &[i64], steps: &[u8], i: usize) -> u8
    requires { (length clocks.now ≡ length numbers.now) × (length numbers.now ≤ length steps.now) × (i < length numbers.now) × Distinct numbers.now × Small steps.now }
    ensures { NextIs numbers.now clocks.now steps.now i result }
{
    let x = clocks[i];
    if x == 0 {
        return 1;
    }
    let j = place(numbers, x);
    if j == numbers.len() {
        return 0;
    }
    if steps[j] == 0 {
        return 0;
    }
    steps[j] + 1
}

// The first place whose steps are not known and can be determined.
fn ready_place(numbers: &[i64], clocks: &[i64], steps: &[u8]) -> Option<(usize, u8)>
    requires { (length clocks.now ≡ length numbers.now) × (length numbers.now ≤ length steps.now) × Distinct numbers.now × Small steps.now }
    ensures { ReadyIs numbers.now clocks.now steps.now result }
{
    for i in 0..numbers.len() {
        if steps[i] == 0 {
            let s = next_steps(numbers, clocks, steps, i);
            if s != 0 {
                return Some((i, s));
            }
        }
    }
    None
}

// The steps of every place by one place a turn, 0 where the chain never reaches the antenna, and 0 past the list. That
// the turns end is shown by the places without steps: no list counts the turns.
fn search(numbers: &[i64], clocks: &[i64]) -> [u8; 64]
    requires { (length clocks.now ≡ length numbers.now) × (length numbers.now ≤ 64) × Distinct numbers.now }
    ensures { StepsAre numbers.now clocks.now result }
{
    let mut steps = [0u8; 64];
    while let Some((i, s)) = ready_place(numbers, clocks, &steps) {
        steps[i] = s;
    }
    steps
}

// The same steps, for numbers that are used once.
pub fn all_steps(numbers: &[i64], clocks: &[i64]) -> [u8; 64]
    requires { (length clocks.now ≡ length numbers.now) × (length numbers.now ≤ 64) × (firstRepeat numbers.now ≡ length numbers.now) }
    ensures { result ≡ steps_of numbers.now clocks.now }
{
    search(numbers, clocks)
}

// The first of the first n places that has no steps, or n.
fn first_zero(steps: &[u8], n: usize) -> usize
    requires { n ≤ length steps.now }
    ensures { First (Zero steps.now) n result }
{
    steps[..n].iter().position(|s| *s == 0).unwrap_or(n)
}

// The first place whose chain never reaches the antenna, or the length.
pub fn first_lost(numbers: &[i64], clocks: &[i64]) -> usize
    requires { (length clocks.now ≡ length numbers.now) × (length numbers.now ≤ 64) × (firstRepeat numbers.now ≡ length numbers.now) }
    ensures { result ≡ first_lost numbers.now clocks.now }
{
    let steps = search(numbers, clocks);
    first_zero(&steps, numbers.len())
}

// The first place with the smallest number below `never`, or the length where no number is below it.
pub fn earliest(tos: &[u32], never: u32) -> usize
    ensures { result ≡ earliestOf tos.now never }
{
    let mut low = never;
    let mut best = tos.len();
    for (i, to) in tos.iter().enumerate() {
        if *to < low {
            low = *to;
            best = i;
        }
    }
    best
}
