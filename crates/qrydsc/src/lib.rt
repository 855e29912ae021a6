// Face. The columns that a host's description (QRYDSC) lists. parse_whole_qrydsc is for descriptions that come from a host: it refuses one that breaks off.
// parse_qrydsc, the ported entry, reads those too, and says so. Neither reads rows.
#![tactic(auto)]

ghost use Rattle.std.specs.Prelude.{◌≡◌};
ghost use Rattle.qrydsc.specs.Qrydsc.{told_description, description, whole_description};
ghost use Rattle.qrydsc.specs.Entries.{entry_answer};

use column::{EnvEntry, LID_COUNT};
use refusal::Refusal;
use triplets::{Cursor, Reached};
use types::{ColumnDescriptor, Columns, MAX_COLUMNS};

// How many bytes a description may have. specs/Qrydsc.antt calls it max_qrydsc.
pub const MAX_QRYDSC: usize = 65536;

// What both calls answer where they accept.
#[derive(Clone, Copy)]
pub struct Description {
    pub columns: Columns,
    // Bytes are left behind the last whole triplet.
    pub broken_off: bool,
}

// Both calls in one: what they differ in is what they do at the end, by a flag, as the definition entry_answer takes it. The columns are an array and a count, as
// Columns has them: the library has no heap.
fn parse(data: &[u8], whole: bool) -> Result<Description, Refusal>
    ensures { told_description result ≡ entry_answer whole «data».now }
{
    if MAX_QRYDSC < data.len() {
        return Err(Refusal::QrydscTooLong);
    }
    let mut columns = [ColumnDescriptor::default(); MAX_COLUMNS];
    let mut count: usize = 0;
    let mut environment: [Option<EnvEntry>; LID_COUNT] = [None; LID_COUNT];
    let mut cursor = Cursor::Outer {
        pending: None,
        at: 0,
    };
    // Each step depends on what the last one found; both its cases are work.
    loop {
        match triplets::next_column(data, cursor, &mut environment) {
            Reached::End(end) => {
                let broken_off = end < data.len();
                if broken_off && whole {
                    return Err(Refusal::QrydscBrokenOff);
                }
                return Ok(Description {
                    columns: Columns { columns, count },
                    broken_off,
                });
            }
            Reached::Column {
                next,
                source,
                entry,
            } => {
                if MAX_COLUMNS <= count {
                    return Err(triplets::too_many(data, triplets::outer_at(next), whole));
                }
                // One update of a field, which a method would not make plainer. By `as`: the count is below 128, and From has no u8 of a usize.
                columns[count] = ColumnDescriptor {
                    column_index: count as u8,
                    ..triplets::column_at(data, source, entry)
                };
                count += 1;
                cursor = next;
            }
        }
    }
}

// The columns that a description describes, in order: those before its end or, where it breaks off, before that place.
pub fn parse_qrydsc(data: &[u8]) -> Result<Description, Refusal>
    ensures { told_description result ≡ description «data».now }
{
    parse(data, false)
}

// The same, save that a description that breaks off is refused: 15, behind 1 and before 2.
pub fn parse_whole_qrydsc(data: &[u8]) -> Result<Description, Refusal>
    ensures { told_description result ≡ whole_description «data».now }
{
    parse(data, true)
}
