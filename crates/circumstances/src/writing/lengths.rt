// How many bytes the entries of a sheet take. These functions are internal and have a `requires`.
ghost use Rattle.std.specs.Prelude.{◌≡◌, ◌≤◌, ◌<◌, length, get_or};
ghost use Rattle.sheet_types.specs.declared.phases.Phase.TheVariants.{Penumbra};
ghost use Rattle.shadow_geometry.specs.Shadow.{phases_of};
ghost use Rattle.requests.specs.RequestLaws.{InLimits};
ghost use Rattle.seconds.specs.Seconds.{states_of};
ghost use Rattle.run_length.specs.Runs.{decoded, Whole};
ghost use Rattle.seconds.specs.AllStates.{AllStates};
ghost use Rattle.contacts.specs.Entries.{entries};
ghost use Rattle.sheet_format.specs.RecordEntries.{bytes_of};
ghost use Rattle.local_circumstances.specs.Courses.{entriesOf, closingEntries};
ghost use Rattle.local_circumstances.specs.laws.Lengths.{kind_in, bytes_needed};
ghost use Rattle.local_circumstances.specs.Course.{course_of};
ghost use Rattle.circumstances.specs.WrittenSheet.{sheet_bytes};

use requests::Occultation;
use sheet_format::kinds::Kind;
use sheet_types::phases::Phase;

// The kind of an entry of a phase.
fn kind_in(phase: Phase, entry: contacts::entries::Entry) -> Kind
    ensures { result ≡ kind_in phase entry }
{
    match entry {
        contacts::entries::Entry::Enter { from: _, to: _ } => Kind::Enter(phase),
        contacts::entries::Entry::Leave { from: _, to: _ } => Kind::Leave(phase),
        contacts::entries::Entry::Graze { from: _, to: _ } => Kind::Graze(phase),
        contacts::entries::Entry::Open { from: _, to: _ } => Kind::Open(phase),
    }
}

// How many bytes the entries of a phase take, from the states of the k-th, in a window of so many seconds.
fn phase_length(phase: Phase, runs: &[u8], k: usize, seconds: usize) -> usize
    requires { (Whole runs.now) × (length (decoded k runs.now) ≡ seconds) × (seconds ≤ 21601) }
    ensures { (result ≡ bytes_needed phase (entries (decoded k runs.now))) × (result ≤ 367217) }
{
    let mut n: usize = 0;
    let mut c = contacts::Cursor {
        at: 0,
        run: 0,
        was: 0,
    };
    // Not a `for`: `contacts::step` gives an entry with the cursor after it.
    loop {
        let Some((entry, after)) = contacts::step(runs, k, seconds, c) else {
            return n;
        };
        let kind = kind_in(phase, entry);
        n += sheet_format::kinds::size_of(kind);
        c = after;
    }
}

// How many bytes the entries of the k-th phase take.
fn nth_phase_length(o: Occultation, runs: &[u8], k: usize) -> usize
    requires { (InLimits o) × (AllStates o runs.now) × (k < length (phases_of o.body)) }
    ensures { (result ≡ bytes_needed (get_or (phases_of o.body) k Penumbra) (entries (states_of o (get_or (phases_of o.body) k Penumbra)))) × (result ≤ 367217) }
{
    let body = o.body;
    let w = o.window;
    let phase = shadow::bodies::nth_phase(body, k);
    let seconds = requests::windows::second_count(w);
    phase_length(phase, runs, k, seconds)
}

// How many bytes the entries of all phases take.
fn phases_length(o: Occultation, runs: &[u8]) -> usize
    requires { (InLimits o) × (AllStates o runs.now) }
    ensures { (result ≡ length (bytes_of (entriesOf (course_of o) (phases_of o.body)))) × (result ≤ 734434) }
{
    let body = o.body;
    let count = shadow::bodies::phase_count(body);
    let mut length: usize = 0;
    for k in 0..count {
        length += nth_phase_length(o, runs, k);
    }
    length
}

// How many bytes the closest second, the share where it is asked for, and the end take.
fn closing_length(o: Occultation) -> usize
    ensures { (result ≡ length (bytes_of (closingEntries (course_of o)))) × (result ≤ 17) }
{
    let closest = sheet_format::kinds::size_of(Kind::Closest);
    let end = sheet_format::kinds::size_of(Kind::End);
    let shared = requests::shares(o);
    if shared {
        let share = sheet_format::kinds::size_of(Kind::Share);
        return closest + share + end;
    }
    closest + end
}

// How many bytes the whole sheet takes.
pub fn sheet_length(o: Occultation, runs: &[u8]) -> usize
    requires { (InLimits o) × (AllStates o runs.now) }
    ensures { result ≡ length (sheet_bytes o) }
{
    let head = sheet_format::kinds::size_of(Kind::Head);
    let phases = phases_length(o, runs);
    let closing = closing_length(o);
    head + phases + closing
}
