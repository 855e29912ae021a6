// The triplets of a description behind which columns may be missing: those that give no column and no environment entry, and are no row lay-out (71) and no
// MDD before another triplet (78) either; the continuation 7F among them; and groups whose columns leave bytes over.
ghost use Rattle.std.specs.Prelude.{◌-◌, ◌≤◌, length};
ghost use Rattle.std.specs.Iterator.{at_most};

use triplets::{
    COMPACT_GDA, TRIPLET_TYPE_GDA as GDA, TRIPLET_TYPE_MDD as MDD, TRIPLET_TYPE_SDA as SDA,
    next_triplet,
};

// Types of triplets that the library passes over as it does any other; a number, as in its own calls.
pub const RLO: u8 = 0x71;

const CONTINUATION: u8 = 0x7F;

// What a triplet lacks. An enum: a predicate that is handed on would have to promise that it takes any triplet, and the text would stand beside it.
#[derive(Clone, Copy)]
pub enum Lack {
    // It continues the one before it, and is not read.
    Continued,
    // It gives nothing.
    Unused,
    // Threes of a D0 group do not fill it.
    LeftOver,
}

// A triplet, where it begins, its data, and what stands behind it.
#[derive(Clone, Copy)]
pub struct Listed<'a> {
    pub kind: u8,
    pub start: usize,
    data: &'a [u8],
    behind: &'a [u8],
}

// Triplets one after the other, as long as there are so many bytes for one. Its number of bytes is a field: a const parameter would need the same ghost field.
#[derive(Drop)]
struct Triplets<'a> {
    part: &'a [u8],
    least: usize,
    // A place, and no shorter slice: where a triplet begins is said of it.
    at: usize,
    ghost has_head: { 2 ≤ least },
    ghost within: { at ≤ length part.now },
}

// The least bytes for a triplet of a description, and for one within a group.
const OUTER: usize = 2;

const INNER: usize = 3;

fn triplets_of(part: &[u8], least: usize) -> Triplets<'_>
    requires { 2 ≤ least }
{
    Triplets { part, least, at: 0 }
}

impl<'a> Iterator for Triplets<'a> {
    type Item = Listed<'a>;

    ghost remaining = { λ t. at_most (length t.part.now - t.at) };

    fn next(&mut self) -> Option<Listed<'a>> {
        let part = self.part;
        let start = self.at;
        let triplet = next_triplet(part, start, part.len(), self.least)?;
        let end = triplet.end;
        self.at = end;
        Some(Listed {
            kind: triplet.kind,
            start,
            data: &part[start + 2..end],
            behind: &part[end..],
        })
    }
}

// A D0 group has a column for each three bytes behind D0, another for each SDA with data.
fn group_has_column(data: &[u8]) -> bool {
    match data {
        [] => false,
        [COMPACT_GDA, threes @ ..] => 3 <= threes.len(),
        _ => triplets_of(data, INNER).any(|t| t.kind == SDA && !t.data.is_empty()),
    }
}

// Whether a triplet begins here for which an MDD may stand: an SDA, a group or a row lay-out.
fn is_described(part: &[u8]) -> bool {
    triplets_of(part, OUTER)
        .next()
        .is_some_and(|t| matches!(t.kind, SDA | RLO | GDA))
}

impl Listed<'_> {
    // Whether it gives something, or is a row lay-out.
    fn is_used(&self) -> bool {
        match self.kind {
            SDA => !self.data.is_empty(),
            RLO | CONTINUATION => true,
            GDA => group_has_column(self.data),
            MDD => is_described(self.behind),
            _ => false,
        }
    }

    // Whether behind D0 and the threes of a group one or two bytes are left.
    fn has_left_over(&self) -> bool {
        match self.data {
            [COMPACT_GDA, threes @ ..] => self.kind == GDA && threes.len() % 3 != 0,
            _ => false,
        }
    }

    fn lacks(&self, lack: Lack) -> bool {
        match lack {
            Lack::Continued => self.kind == CONTINUATION,
            Lack::Unused => !self.is_used(),
            Lack::LeftOver => self.has_left_over(),
        }
    }
}

// How many triplets lack this, and the first of them.
pub fn lacking(lack: Lack, description: &[u8]) -> Option<(usize, Listed<'_>)> {
    let mut lacking = triplets_of(description, OUTER).filter(|t| t.lacks(lack));
    let first = lacking.next()?;
    Some((1 + lacking.count(), first))
}
