// Inner. Texts in a lent buffer: the answer of a call that writes one, and a plain copy. It converts nothing.
#![tactic(auto)]

ghost use Rattle.std.specs.Prelude.{◌≡◌, ◌≤◌, length};
ghost use Rattle.buffer.specs.Buffer.{overwritten};

// What a call that writes one text answers, where it refuses nothing: how many bytes were written, and how many U+FFFD among them were put in for what was
// malformed. After a refusal no byte was written.
#[derive(Clone, Copy)]
pub struct Written {
    pub len: usize,
    pub replaced: usize,
}

impl Written {
    // A text for which no U+FFFD was put in.
    pub fn unreplaced(len: usize) -> Written
        ensures { result ≡ record { len = len; replaced = 0 } }
    {
        Written { len, replaced: 0 }
    }
}

// Writes src into out, from its first byte, and returns the number of bytes written.
pub fn copy(src: &[u8], out: &mut [u8]) -> usize
    requires { length src.now ≤ length out.old }
    ensures count { result ≡ length src.now }
    ensures bytes { out.new ≡ overwritten src.now out.old }
{
    let n = src.len();
    out[..n].copy_from_slice(src);
    n
}
