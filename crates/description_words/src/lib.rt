// Inner. The columns of a description as plain words, for the calls of C and Rust: first counted, then written into lent words. What it costs
// grows with the description and with the columns in it, and not with the places of a column list. It tests no limit of the description's length.
#![tactic(auto)]

ghost use Rattle.std.specs.Prelude.{◌≡◌, ◌+◌, ◌*◌, ◌≤◌, ◌<◌, ◌==◌, [], cond, length, set};
ghost use Rattle.buffer.specs.Buffer.{overwritten};
ghost use Rattle.types.specs.Places.{max_columns};
ghost use Rattle.triplets.specs.Triplets.{triplet, reading};
ghost use Rattle.triplets.specs.Descriptors.{pending_after, sda_columns, inner_columns, group_columns, triplet_columns, columns_of};
ghost use Rattle.qrydsc.specs.Qrydsc.{with_index, numbered};
ghost use Rattle.words.specs.Words.{first_word, second_word, pack_columns};
ghost use Rattle.description_words.specs.Counted.{Counts, Counted};

use column::{EnvEntry, LID_COUNT};
use triplets::{
    COMPACT_GDA, Cursor, Reached, TRIPLET_TYPE_GDA, TRIPLET_TYPE_MDD, TRIPLET_TYPE_SDA, Triplet,
};
use types::{ColumnDescriptor, MAX_COLUMNS};

// An SDA with data is a column: 1 or 0, since the callers add it up. The type and the data are two parameters here and below, as the definition `triplet` has
// them: a struct would be made for one call and taken apart in it.
fn count_sda(kind: u8, body: &[u8]) -> usize
    ensures { Counts (length body.now) (λ env. cond (kind == 0x70) (sda_columns body.now) []) result }
{
    match kind {
        TRIPLET_TYPE_SDA if !body.is_empty() => 1,
        _ => 0,
    }
}

// How many columns the inner triplets of a group describe. No `for`: each step begins where the triplet that was read ends.
fn count_inner(body: &[u8]) -> usize
    ensures { Counts (length body.now) (λ env. inner_columns (reading 3 body.now).triplets) result }
{
    let mut count: usize = 0;
    let mut at: usize = 0;
    while let Some(Triplet { kind, end }) = triplets::next_triplet(body, at, body.len(), 3) {
        count += count_sda(kind, &body[at + 2..end]);
        at = end;
    }
    count
}

// How many columns a group describes: in a D0 group each three bytes do. No pattern of the first byte and the rest: the promise is on the whole body.
fn count_group(body: &[u8]) -> usize
    ensures { Counts (length body.now) (λ env. group_columns env body.now) result }
{
    if body.is_empty() {
        return 0;
    }
    if body[0] == COMPACT_GDA {
        return (body.len() - 1) / 3;
    }
    count_inner(body)
}

// How many columns an outer triplet describes. It needs no environment: a LID is a column, declared or not.
fn count_triplet(kind: u8, body: &[u8], pending: Option<u8>) -> usize
    ensures { Counts (length body.now) (λ env. triplet_columns pending env (triplet kind body.now)) result }
{
    if kind == TRIPLET_TYPE_GDA {
        return count_group(body);
    }
    match pending {
        None => count_sda(kind, body),
        Some(_) => 0,
    }
}

// What a triplet leaves for the next one.
#[tactic(auto, unfolding(triplets::specs::Descriptors::pending_after))]
fn pending_after(kind: u8, body: &[u8]) -> Option<u8>
    ensures { result ≡ pending_after (triplet kind body.now) }
{
    if kind == TRIPLET_TYPE_MDD {
        triplets::pending_of(body)
    } else {
        None
    }
}

// How many columns were counted, and the place behind the triplets that were read for it.
#[derive(Clone, Copy)]
pub struct ColumnCount {
    pub columns: usize,
    pub end: usize,
}

// How many columns a description has: where they are more than a list holds, it stops with some number above that.
pub fn count_columns(data: &[u8]) -> ColumnCount
    ensures { Counted «data».now result.columns result.end }
{
    let mut count: usize = 0;
    let mut at: usize = 0;
    let mut pending: Option<u8> = None;
    // The step is the length of the triplet that is read, and the end is a count.
    while count <= MAX_COLUMNS {
        let Some(Triplet { kind, end }) = triplets::next_triplet(data, at, data.len(), 2) else {
            return ColumnCount {
                columns: count,
                end: at,
            };
        };
        match kind {
            TRIPLET_TYPE_SDA | TRIPLET_TYPE_GDA | TRIPLET_TYPE_MDD => {
                let body = &data[at + 2..end];
                count += count_triplet(kind, body, pending);
                pending = pending_after(kind, body);
                at = end;
            }
            // Triplets that describe nothing: a description mostly has many or none, so the processor predicts this branch well.
            _ => {
                pending = None;
                at = end;
            }
        }
    }
    ColumnCount {
        columns: count,
        end: at,
    }
}

// Writes a column with its number into its two words. By place: a chunk of two would be cut out by a method that answers an Option.
fn put_column(words: &mut [u64], count: usize, column: ColumnDescriptor)
    requires { (count < max_columns) × (2 * count + 1 < length words.old) }
    ensures { words.new ≡ set (set words.old (2 * count) (first_word (with_index count column))) (2 * count + 1) (second_word (with_index count column)) }
{
    let w = words::column_words(ColumnDescriptor {
        column_index: count as u8,
        ..column
    });
    let at = 2 * count;
    words[at] = w.first;
    words[at + 1] = w.second;
}

// No `for`: each step depends on what the last one found, and the count is also the column's number.
fn write_all(data: &[u8], words: &mut [u64])
    requires data_len_bound { length (columns_of «data».now) ≤ max_columns }
    requires data_in_bounds { 2 * length (columns_of «data».now) ≤ length words.old }
    ensures { words.new ≡ overwritten (pack_columns (numbered 0 (columns_of «data».now))) words.old }
{
    let mut count: usize = 0;
    let mut environment: [Option<EnvEntry>; LID_COUNT] = [None; LID_COUNT];
    let mut cursor = Cursor::Outer {
        pending: None,
        at: 0,
    };
    while let Reached::Column {
        next,
        source,
        entry,
    } = triplets::next_column(data, cursor, &mut environment)
    {
        put_column(words, count, triplets::column_at(data, source, entry));
        count += 1;
        cursor = next;
    }
}

// Writes the words of a description's columns, in order. A description without columns is not read again.
pub fn write_columns(data: &[u8], total: usize, words: &mut [u64])
    requires total_value { total ≡ length (columns_of «data».now) }
    requires total_le_max_columns { total ≤ max_columns }
    requires total_in_bounds { 2 * total ≤ length words.old }
    ensures { words.new ≡ overwritten (pack_columns (numbered 0 (columns_of «data».now))) words.old }
{
    if total == 0 {
        return;
    }
    write_all(data, words);
}
