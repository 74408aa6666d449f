// The lines of a text, one after the other.
ghost use Rattle.std.specs.Prelude.{◌≡◌};
ghost use Rattle.tokens.specs.Text.{lines_of};
ghost use Rattle.request_text.specs.TextLines.{lines_left};

use tokens::Class;

// What is left of a text that is read line by line. A line ends at its newline, the last one also at the text's end.
#[derive(Clone, Copy)]
pub struct Lines<'a> {
    rest: &'a [u8],
}

// The lines of a text, none of them read yet.
pub fn of<'a>(text: &'a [u8]) -> Lines<'a>
    ensures { lines_left result ≡ lines_of text.now }
{
    Lines { rest: text }
}

impl<'a> Iterator for Lines<'a> {
    ghost use Rattle.std.specs.Iterator.{item_count, YieldsFirstRef};

    type Item = &'a [u8];

    ghost next_gives = { YieldsFirstRef lines_left };

    ghost remaining = { item_count lines_left };

    fn next(&mut self) -> Option<&'a [u8]> {
        if self.rest.is_empty() {
            return None;
        }
        let length = tokens::run(self.rest, Class::Line);
        let (line, others) = self.rest.split_at(length);
        // what follows the newline, where there is one
        self.rest = match others.split_first() {
            Some((_, next)) => next,
            None => others,
        };
        Some(line)
    }
}
