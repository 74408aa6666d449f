// The sheet of an occultation, written into a buffer that can hold it, from the states of its seconds. These
// functions are internal and have a `requires`.
pub mod lengths;

ghost use Rattle.std.specs.Prelude.{◌≡◌, map, ◌+◌, ◌≤◌, ◌<◌, length, get_or};
ghost use Rattle.std.proofs.lemmas.List.Edits.{sets};
ghost use Rattle.sheet_types.specs.declared.phases.Phase.TheVariants.{Penumbra};
ghost use Rattle.shadow_geometry.specs.Shadow.{phases_of};
ghost use Rattle.sine_table.specs.Table.{Sines};
ghost use Rattle.station.specs.Place.{place_of};
ghost use Rattle.requests.specs.Windows.{second_count};
ghost use Rattle.requests.specs.RequestLaws.{InLimits};
ghost use Rattle.run_length.specs.Runs.{decoded, Whole};
ghost use Rattle.seconds.specs.Seconds.{closestOf};
ghost use Rattle.seconds.specs.AllStates.{AllStates};
ghost use Rattle.contacts.specs.Entries.{entries};
ghost use Rattle.sheet_format.specs.RecordEntries.{bytes_of};
ghost use Rattle.local_circumstances.specs.Courses.{entry_of, phaseEntries, entriesOf, closingEntries};
ghost use Rattle.local_circumstances.specs.laws.Lengths.{bytes_needed};
ghost use Rattle.local_circumstances.specs.Course.{course_of};
ghost use Rattle.circumstances.specs.WrittenSheet.{sheet_bytes};

use requests::Occultation;
use sheet_format::kinds::{Entry, Kind};
use sheet_types::phases::Phase;
use station::Place;

// The entries of a phase from `start` on, from the states of the k-th; the place after them.
fn write_phase(
    table: &[u32],
    o: Occultation,
    place: Place,
    phase: Phase,
    runs: &[u8],
    k: usize,
    buf: &mut [u8],
    start: usize,
) -> usize
    requires sines { (Sines table.now) × (InLimits o) × (place ≡ place_of o.station) }
    requires whole { (Whole runs.now) × (length (decoded k runs.now) ≡ second_count o.window) × (start + bytes_needed phase (entries (decoded k runs.now)) ≤ length buf.old) }
    ensures value { result ≡ start + bytes_needed phase (entries (decoded k runs.now)) }
    ensures buf_after { buf.new ≡ sets buf.old start (bytes_of (map (entry_of (course_of o) phase) (entries (decoded k runs.now)))) }
{
    let w = o.window;
    let seconds = requests::windows::second_count(w);
    let mut at = start;
    let mut c = contacts::Cursor {
        at: 0,
        run: 0,
        was: 0,
    };
    // Not a `for`: `contacts::step` gives an entry with the cursor after it.
    loop {
        let Some((entry, next)) = contacts::step(runs, k, seconds, c) else {
            return at;
        };
        let e = local_circumstances::entries::entry_for(table, o, place, phase, entry);
        at = sheet_format::records::bytes::put(buf, at, e);
        c = next;
    }
}

// The entries of the k-th phase from `start` on; the place after them.
fn write_nth_phase(
    table: &[u32],
    o: Occultation,
    place: Place,
    runs: &[u8],
    k: usize,
    buf: &mut [u8],
    start: usize,
) -> usize
    requires sines { (Sines table.now) × (InLimits o) × (place ≡ place_of o.station) }
    requires all_states { (AllStates o runs.now) × (k < length (phases_of o.body)) }
    requires k_in_bounds { start + length (bytes_of (phaseEntries (course_of o) (get_or (phases_of o.body) k Penumbra))) ≤ length buf.old }
    ensures value { result ≡ start + length (bytes_of (phaseEntries (course_of o) (get_or (phases_of o.body) k Penumbra))) }
    ensures buf_after { buf.new ≡ sets buf.old start (bytes_of (phaseEntries (course_of o) (get_or (phases_of o.body) k Penumbra))) }
{
    let body = o.body;
    let phase = shadow::bodies::nth_phase(body, k);
    write_phase(table, o, place, phase, runs, k, buf, start)
}

// The entries of all phases from `start` on; the place after them.
fn write_phases(
    table: &[u32],
    o: Occultation,
    place: Place,
    runs: &[u8],
    buf: &mut [u8],
    start: usize,
) -> usize
    requires sines { (Sines table.now) × (InLimits o) × (place ≡ place_of o.station) }
    requires all_states { AllStates o runs.now }
    requires body_in_bounds { start + length (bytes_of (entriesOf (course_of o) (phases_of o.body))) ≤ length buf.old }
    ensures value { result ≡ start + length (bytes_of (entriesOf (course_of o) (phases_of o.body))) }
    ensures buf_after { buf.new ≡ sets buf.old start (bytes_of (entriesOf (course_of o) (phases_of o.body))) }
{
    let body = o.body;
    let count = shadow::bodies::phase_count(body);
    let mut at = start;
    for k in 0..count {
        at = write_nth_phase(table, o, place, runs, k, buf, at);
    }
    at
}

// The closest second, the share where it is asked for, and the end from `start` on; the place after them.
fn write_closing(
    table: &[u32],
    o: Occultation,
    place: Place,
    closest: usize,
    buf: &mut [u8],
    start: usize,
) -> usize
    requires sines { (Sines table.now) × (InLimits o) × (place ≡ place_of o.station) × (closest ≡ closestOf o) }
    requires o_in_bounds { start + length (bytes_of (closingEntries (course_of o))) ≤ length buf.old }
    ensures value { result ≡ start + length (bytes_of (closingEntries (course_of o))) }
    ensures buf_after { buf.new ≡ sets buf.old start (bytes_of (closingEntries (course_of o))) }
{
    let last = local_circumstances::entries::closest_for(table, o, place, closest);
    let kind = Kind::End;
    let end = Entry {
        kind,
        a: 0,
        b: 0,
        c: 0,
        d: 0,
    };
    let after_closest = sheet_format::records::bytes::put(buf, start, last);
    let shared = requests::shares(o);
    if shared {
        let share = local_circumstances::entries::share_for(table, o, place, closest);
        let after_share = sheet_format::records::bytes::put(buf, after_closest, share);
        return sheet_format::records::bytes::put(buf, after_share, end);
    }
    sheet_format::records::bytes::put(buf, after_closest, end)
}

// The whole sheet at the start of the buffer, which can hold it; its length.
pub fn write_sheet(
    table: &[u32],
    o: Occultation,
    place: Place,
    closest: usize,
    runs: &[u8],
    buf: &mut [u8],
) -> usize
    requires sines { (Sines table.now) × (InLimits o) × (place ≡ place_of o.station) × (closest ≡ closestOf o) }
    requires all_states { AllStates o runs.now }
    requires o_in_bounds { length (sheet_bytes o) ≤ length buf.old }
    ensures value { result ≡ length (sheet_bytes o) }
    ensures buf_after { buf.new ≡ sets buf.old 0 (sheet_bytes o) }
{
    let head = local_circumstances::entries::head_for(o);
    let after_head = sheet_format::records::bytes::put(buf, 0, head);
    let after_phases = write_phases(table, o, place, runs, buf, after_head);
    write_closing(table, o, place, closest, buf, after_phases)
}
