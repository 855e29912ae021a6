// Inner. The triplets of a description, a step at a time: a step tells where a column is described, gives an environment entry to keep, or does
// neither; and its columns, one at a time. It holds neither the columns nor the environment: its caller keeps both, in arrays of its own.
// Triplets are named by places and not by slices: a cursor keeps a place from one step to the next, and a slice would need its place beside it.
#![tactic(auto)]

ghost use Rattle.std.specs.Prelude.{◌≡◌, List, ℕ, ◌+◌, ◌≤◌, ◌<◌, cond, ◌&&◌, length, ltb, get_or, IfSome};
ghost use Rattle.std.proofs.Math.Seq.{slice};
ghost use Rattle.refusal.specs.declared.Refusal.TheVariants.{QrydscBrokenOff, TooManyColumns};
ghost use Rattle.column.specs.Column.{sda_column};
ghost use Rattle.column.specs.Said.{said_column};
ghost use Rattle.triplets.specs.declared.Cursor.{Cursor};
ghost use Rattle.triplets.specs.declared.Source.{Source};
ghost use Rattle.triplets.specs.Descriptors.{last_of};
ghost use Rattle.triplets.specs.Steps.{next_of, group_at, end_from, outer_at, CursorWithin, start_in, SourceWithin, column_at, Leads, Reaches};

use column::{EnvEntry, LID_COUNT, Said};
use refusal::Refusal;
use types::ColumnDescriptor;

// The types of the triplets by which a description is read. Others describe nothing; so the types stay numbers, as the definitions have them, and an enum would
// need a case for each other number.
pub const TRIPLET_TYPE_SDA: u8 = 0x70;

pub const TRIPLET_TYPE_GDA: u8 = 0x76;

pub const TRIPLET_TYPE_MDD: u8 = 0x78;

// The first byte of a group that lists its columns by LIDs.
pub const COMPACT_GDA: u8 = 0xD0;

// Where the reading stands: before an outer triplet, with the type that an MDD left for the SDA after it; among the threes of a D0 group (Q5); or before an inner triplet of any other group (Q7). The group
// ends at `end`.
#[derive(Clone, Copy)]
pub enum Cursor {
    // The small field first: so no variant's pending shares bytes with another's end.
    Outer { pending: Option<u8>, at: usize },
    Lids { at: usize, end: usize },
    Inner { at: usize, end: usize },
}

// Where a column is described: the data of an SDA, or the LID of a D0 group with its two attribute bytes.
#[derive(Clone, Copy)]
pub enum Source {
    Sda { start: usize, end: usize },
    Lid { start: usize },
}

// What stands at a cursor, and the cursor after it. The cursor comes first: so it has the same bytes in each variant that has one, and is not moved
// through memory.
#[derive(Clone, Copy)]
pub enum Step {
    // No outer triplet begins at this place: what is left from there on, if anything is, is not read.
    End(usize),
    Skip(Cursor),
    Declare {
        next: Cursor,
        entry: EnvEntry,
        lid: u8,
    },
    Column {
        next: Cursor,
        source: Source,
    },
}

// A triplet of a description: its type, and where it ends.
#[derive(Clone, Copy)]
pub struct Triplet {
    pub kind: u8,
    pub end: usize,
}

// The triplet at a place of a part that ends at `end`, where at least `least` bytes remain; or that none begins there.
pub fn next_triplet(data: &[u8], at: usize, end: usize, least: usize) -> Option<Triplet>
    requires at_le_end { (at ≤ end) × (end ≤ length «data».now) }
    requires le_least { 2 ≤ least }
    ensures value { result ≡ next_of least (slice at end «data».now) at }
    ensures within { IfSome result (λ t. (at + 2 ≤ t.end) × (t.end ≤ end)) }
{
    // A test for each way that none begins: the size is read only behind the first.
    let remain = end - at;
    if remain < least {
        return None;
    }
    let size = usize::from(data[at]);
    if size < 2 {
        return None;
    }
    if remain < size {
        return None;
    }
    Some(Triplet {
        kind: data[at + 1],
        end: at + size,
    })
}

// What an MDD with these data leaves.
#[tactic(auto, unfolding(crate::specs::Descriptors::last_of))]
pub fn pending_of(body: &[u8]) -> Option<u8>
    ensures { result ≡ last_of body.now }
{
    body.last().copied()
}

// Where a group begins whose data is this part.
#[tactic(auto, unfolding(crate::specs::Steps::group_at))]
fn group_at(data: &[u8], start: usize, end: usize) -> Cursor
    requires { (start ≤ end) × (end ≤ length «data».now) }
    ensures { result ≡ group_at «data».now start end }
{
    if start < end && data[start] == COMPACT_GDA {
        Cursor::Lids { at: start + 1, end }
    } else {
        Cursor::Inner { at: start, end }
    }
}

fn outer_step(data: &[u8], at: usize, pending: Option<u8>) -> Step
    requires { at ≤ length «data».now }
    ensures { Leads «data».now (Cursor.Outer pending at) result }
{
    let Some(Triplet { kind, end }) = next_triplet(data, at, data.len(), 2) else {
        return Step::End(at);
    };
    let start = at + 2;
    let body = &data[start..end];
    let behind = Cursor::Outer {
        pending: None,
        at: end,
    };
    match kind {
        TRIPLET_TYPE_SDA => {
            if start == end {
                return Step::Skip(behind);
            }
            let Some(mdd) = pending else {
                return Step::Column {
                    next: behind,
                    source: Source::Sda { start, end },
                };
            };
            let entry = column::parse_environmental_sda(body, mdd);
            let lid = data[start];
            Step::Declare {
                next: behind,
                entry,
                lid,
            }
        }
        TRIPLET_TYPE_GDA => Step::Skip(group_at(data, start, end)),
        TRIPLET_TYPE_MDD => Step::Skip(Cursor::Outer {
            pending: pending_of(body),
            at: end,
        }),
        // RLOs and triplets of unknown types.
        _ => Step::Skip(behind),
    }
}

// What it says holds of every description that is long enough.
fn lid_step(at: usize, end: usize) -> Step
    requires { at ≤ end }
    ensures { (s : List ℕ) → end ≤ length s → Leads s (Cursor.Lids at end) result }
{
    if end - at < 3 {
        return Step::Skip(Cursor::Outer {
            pending: None,
            at: end,
        });
    }
    let after = at + 3;
    Step::Column {
        next: Cursor::Lids { at: after, end },
        source: Source::Lid { start: at },
    }
}

fn inner_step(data: &[u8], at: usize, end: usize) -> Step
    requires { (at ≤ end) × (end ≤ length «data».now) }
    ensures { Leads «data».now (Cursor.Inner at end) result }
{
    let Some(Triplet { kind, end: after }) = next_triplet(data, at, end, 3) else {
        return Step::Skip(Cursor::Outer {
            pending: None,
            at: end,
        });
    };
    let start = at + 2;
    let next = Cursor::Inner { at: after, end };
    match kind {
        TRIPLET_TYPE_SDA if start < after => Step::Column {
            next,
            source: Source::Sda { start, end: after },
        },
        _ => Step::Skip(next),
    }
}

// The step at a cursor.
pub fn next_step(data: &[u8], cursor: Cursor) -> Step
    requires { CursorWithin «data».now cursor }
    ensures { Leads «data».now cursor result }
{
    match cursor {
        Cursor::Outer { at, pending } => outer_step(data, at, pending),
        Cursor::Lids { at, end } => lid_step(at, end),
        Cursor::Inner { at, end } => inner_step(data, at, end),
    }
}

// Where the outer triplets go on behind what stands at a cursor.
pub fn outer_at(cursor: Cursor) -> usize
    ensures { result ≡ outer_at cursor }
{
    match cursor {
        Cursor::Outer { at, .. } => at,
        Cursor::Lids { end, .. } | Cursor::Inner { end, .. } => end,
    }
}

// No `for`: each step begins where the triplet that was read ends.
// Where the outer triplets from a place on end: the place of the first byte that they leave unread, or the description's end.
pub fn outer_end(data: &[u8], start: usize) -> usize
    requires { start ≤ length «data».now }
    ensures { result ≡ end_from «data».now start }
{
    let mut at = start;
    while let Some(triplet) = next_triplet(data, at, data.len(), 2) {
        at = triplet.end;
    }
    at
}

// The refusal of more columns than a list holds, where the outer triplets before `start` are read. Where only whole descriptions are taken, the others are
// read to their end first.
pub fn too_many(data: &[u8], start: usize, whole: bool) -> Refusal
    requires { start ≤ length «data».now }
    ensures { result ≡ cond (whole && ltb (end_from «data».now start) (length «data».now)) QrydscBrokenOff TooManyColumns }
{
    if whole && outer_end(data, start) < data.len() {
        Refusal::QrydscBrokenOff
    } else {
        Refusal::TooManyColumns
    }
}

// The LID of a column, or the type code of an SDA: the place of the environment whose entry the column may need.
pub fn lid_at(data: &[u8], source: Source) -> u8
    requires { SourceWithin «data».now source }
    ensures { result ≡ get_or «data».now (start_in source) 0 }
{
    match source {
        Source::Sda { start, .. } | Source::Lid { start } => data[start],
    }
}

fn said_at(data: &[u8], source: Source, entry: Option<EnvEntry>) -> Said
    requires { SourceWithin «data».now source }
    ensures { said_column result ≡ column_at «data».now entry source }
{
    match source {
        Source::Sda { start, end } => column::parse_sda_triplet(&data[start..end]),
        Source::Lid { start } => {
            column::parse_compact_gda_lid(entry, data[start], data[start + 1], data[start + 2])
        }
    }
}

// The column that is described there. The entry is the environment's for its LID.
pub fn column_at(data: &[u8], source: Source, entry: Option<EnvEntry>) -> ColumnDescriptor
    requires { SourceWithin «data».now source }
    ensures { result ≡ column_at «data».now entry source }
{
    ColumnDescriptor::from(said_at(data, source, entry))
}

// No Option: the end's place is handed out, and the caller compares it with the length (docs/DECISIONS.md, 67). A cursor is written out where it is made, since each
// place says that nothing is pending.
// What a reading comes to: where the next column is described, with the environment's entry for its LID and the cursor behind it; or no column, and
// the place of the first byte that the outer triplets leave unread.
#[derive(Clone, Copy)]
pub enum Reached {
    End(usize),
    Column {
        next: Cursor,
        source: Source,
        entry: Option<EnvEntry>,
    },
}

// No struct of the three: the caller lends the environment, an array of its own, and keeps the cursor.
// Reads on from a cursor to the next column. The environment takes the entries that are declared before it. It is compiled into each caller's loop.
#[inline(always)]
pub fn next_column(
    data: &[u8],
    cursor: Cursor,
    environment: &mut [Option<EnvEntry>; LID_COUNT],
) -> Reached
    requires { CursorWithin «data».now cursor }
    ensures { Reaches «data».now cursor environment.old environment.new result }
{
    let mut at = cursor;
    // Each step leads to the next cursor.
    loop {
        match next_step(data, at) {
            Step::End(end) => {
                return Reached::End(end);
            }
            Step::Skip(after) => {
                at = after;
            }
            Step::Declare { next, entry, lid } => {
                let place = usize::from(lid);
                environment[place] = EnvEntry::first(environment[place], Some(entry));
                at = next;
            }
            Step::Column { next, source } => {
                let lid = lid_at(data, source);
                let entry = environment[usize::from(lid)];
                return Reached::Column {
                    next,
                    source,
                    entry,
                };
            }
        }
    }
}
