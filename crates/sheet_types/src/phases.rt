// The phases of a shadow: those that an eclipse has, and a star's.
ghost use Rattle.std.specs.Prelude.{◌≡◌, ◌<◌, length, get_or};
ghost use Rattle.sheet_types.specs.declared.phases.Phase.TheVariants.{Penumbra};
ghost use Rattle.sheet_types.specs.Phases.{eclipse};

// Penumbra and central are document 01's words.
#[derive(Clone, Copy, PartialEq, Eq)]
pub enum Phase {
    // in the Moon's penumbra: the Sun is covered in part
    Penumbra,
    // in the central cone: the eclipse is total or annular
    Central,
    // in the cylinder behind the Moon: a star is hidden
    Star,
}

// The k-th phase of an eclipse, from 0, in the order of a sheet.
pub fn eclipse_phase(k: usize) -> Phase
    requires { k < length eclipse }
    ensures { result ≡ get_or eclipse k Penumbra }
{
    if k == 0 {
        Phase::Penumbra
    } else {
        Phase::Central
    }
}
