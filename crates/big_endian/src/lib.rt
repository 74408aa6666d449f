// Numbers of two, four and eight bytes, the highest first, as sheets, requests and notes have them. These functions
// are internal and have a `requires`. Each is one call of std's for its size, so a const parameter for the size would
// be no plainer.
#![tactic(auto)]

ghost use Rattle.std.specs.Prelude.{◌≡◌, ◌+◌, ◌≤◌, ◌<◌, length};
ghost use Rattle.std.proofs.lemmas.List.Edits.{sets};
ghost use Rattle.big_endian.specs.Numbers.{two, four, two_at, four_at, eight_at};

// A byte as a number.
pub fn wide(x: u8) -> u32
    ensures { (result ≡ x) × (result < 256) }
{
    u32::from(x)
}

// The number of two bytes at `at`.
pub fn two_at(s: &[u8], at: usize) -> u32
    requires { at + 2 ≤ length s.now }
    ensures { (result ≡ two_at s.now at) × (result < 65536) }
{
    u32::from(u16::from_be_bytes([s[at], s[at + 1]]))
}

// The number of four bytes at `at`.
pub fn four_at(s: &[u8], at: usize) -> u32
    requires { at + 4 ≤ length s.now }
    ensures { result ≡ four_at s.now at }
{
    u32::from_be_bytes([s[at], s[at + 1], s[at + 2], s[at + 3]])
}

// The number of eight bytes at `at`.
pub fn eight_at(s: &[u8], at: usize) -> u64
    requires { at + 8 ≤ length s.now }
    ensures { result ≡ eight_at s.now at }
{
    u64::from_be_bytes([
        s[at],
        s[at + 1],
        s[at + 2],
        s[at + 3],
        s[at + 4],
        s[at + 5],
        s[at + 6],
        s[at + 7],
    ])
}

// A number's lower two bytes at `at`.
pub fn put_two(buf: &mut [u8], at: usize, v: u32)
    requires { at + 2 ≤ length buf.old }
    ensures { buf.new ≡ sets buf.old at (two v) }
{
    buf[at..at + 2].copy_from_slice(&((v % 65536) as u16).to_be_bytes());
}

// A number's four bytes at `at`.
pub fn put_four(buf: &mut [u8], at: usize, v: u32)
    requires { at + 4 ≤ length buf.old }
    ensures { buf.new ≡ sets buf.old at (four v) }
{
    buf[at..at + 4].copy_from_slice(&v.to_be_bytes());
}
