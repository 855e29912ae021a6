// How far the functions that go over a text part by part have come.

// So many bytes are read, and their text is so long.
#[derive(Clone, Copy)]
pub struct Part {
    pub read: usize,
    pub len: usize,
}

// The same of a part that is written, and how many U+FFFD were put in for what was malformed in it.
#[derive(Clone, Copy)]
pub struct PartWritten {
    pub part: Part,
    pub replaced: usize,
}
