// What a typed text asks about.
ghost use Rattle.std.specs.Prelude.{◌≡◌};
ghost use Rattle.request_format.specs.Rows.{letters};
ghost use Rattle.request_text.specs.Names.{named};
ghost use Rattle.request_text.specs.Lines.{said};
ghost use Rattle.request_text.specs.Shapes.{shape_of};

use crate::lines;
use request_format::fields::Shape;

// Whether a line names the radius.
fn names_radius(line: &[u8]) -> bool
    ensures { result ≡ named (letters "radius") (said line.now) }
{
    super::is_named(super::said(line), b"radius")
}

// What a text asks about: a star, if a line names the radius; else an eclipse.
pub fn shape_of(text: &[u8]) -> Shape
    ensures { result ≡ shape_of text.now }
{
    if lines::of(text).any(names_radius) {
        Shape::Star
    } else {
        Shape::Eclipse
    }
}
