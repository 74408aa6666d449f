// The form of a word, and the numbers at its places.
ghost use Rattle.std.specs.Prelude.{◌≡◌, ◌≤◌, ◌<◌};
ghost use Rattle.request_text.specs.Forms.{fits, has_form, digit_at, two_at};

use tokens::Class;

// Whether a character is what the form has there: `0` stands for any digit.
fn fits(p: u8, x: u8) -> bool
    ensures { result ≡ fits p x }
{
    if p == b'0' {
        return tokens::is_in(Class::Digit, x);
    }
    x == p
}

pub fn has_form(word: &[u8], form: &[u8]) -> bool
    ensures { result ≡ has_form form.now word.now }
{
    word.len() == form.len() && form.iter().zip(word).all(|(p, x)| fits(*p, *x))
}

fn digit_at(word: &[u8], k: usize) -> u64
    ensures { (result ≡ digit_at word.now k) × (result ≤ 255) }
{
    let x = tokens::byte_or_zero(word, k);
    tokens::digit_of(x) as u64
}

// Two digits as a number, at a place of this crate's forms.
pub fn two_at(word: &[u8], k: usize) -> u64
    requires { k < 11 }
    ensures { (result ≡ two_at word.now k) × (result ≤ 2805) }
{
    10 * digit_at(word, k) + digit_at(word, k + 1)
}
