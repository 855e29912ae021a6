// Marks of columns: a bit for each, 64 in a word, which is 1 until the column is marked. Measuring marks the columns whose texts are copied; writing
// looks at the marks.
ghost use Rattle.std.specs.Prelude.{◌≡◌, ◌<◌};
ghost use Rattle.piece.specs.Marks.{mark_at, Marks};

// So many words have a bit for each of 768 columns. A list has at most 128, and fewer words would ask more of callers. An array and two functions: a struct around it
// would put a field into each clause on marks.
pub const WORDS: usize = 12;

// No column of a word is marked.
pub const NONE: u64 = 0xFFFF_FFFF_FFFF_FFFF;

#[tactic(auto, unfolding(crate::specs::Marks::mark_at))]
pub fn is_marked(marks: &[u64; WORDS], k: usize) -> bool
    requires { k < 768 }
    ensures { result ≡ mark_at marks.now k }
{
    (marks[k / 64] >> (k % 64)) % 2 == 0
}

// `plain` stands here and not around the calls: there it would join two ways in each loop that measures.
#[tactic(auto, using(crate::proofs::MarkLaws::mark_set))]
pub fn mark(marks: &mut [u64; WORDS], k: usize, plain: bool)
    requires { k < 768 }
    ensures { Marks marks.old k plain marks.new }
{
    if plain {
        let word = k / 64;
        marks[word] ^= 1 << (k % 64);
    }
}
