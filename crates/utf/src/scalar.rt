// A scalar value in UTF-8.
ghost use Rattle.std.specs.Prelude.{◌≡◌, ◌<◌, ◌≤◌, length};
ghost use Rattle.buffer.specs.Buffer.{overwritten};
ghost use Rattle.unicode_standard.specs.Unicode.{utf8};

// Its length, for a caller that measures before it writes.
pub fn scalar_len(v: u32) -> usize
    ensures { (result ≡ length (utf8 v)) × (result ≤ 4) }
{
    match v {
        0..=0x7F => 1,
        0x80..=0x7FF => 2,
        0x800..=0xFFFF => 3,
        _ => 4,
    }
}

// Writes it into out, from its first byte, and returns its length. By hand: encode_utf8 takes a char, and v is any number below 110000, so that
// from_u32 would ask again. No plainer by a match on ranges: the same four groups of stores. By `as`, of what fits: u8 has no From of a u32.
pub fn write_scalar(v: u32, out: &mut [u8]) -> usize
    requires { (v < 0x110000) × (length (utf8 v) ≤ length out.old) }
    ensures count { result ≡ length (utf8 v) }
    ensures bytes { out.new ≡ overwritten (utf8 v) out.old }
{
    if v < 0x80 {
        out[0] = v as u8;
        return 1;
    }
    if v < 0x800 {
        out[0] = (0xC0 + v / 64) as u8;
        out[1] = (0x80 + v % 64) as u8;
        return 2;
    }
    if v < 0x10000 {
        out[0] = (0xE0 + v / 4096) as u8;
        out[1] = (0x80 + v / 64 % 64) as u8;
        out[2] = (0x80 + v % 64) as u8;
        return 3;
    }
    out[0] = (0xF0 + v / 262144) as u8;
    out[1] = (0x80 + v / 4096 % 64) as u8;
    out[2] = (0x80 + v / 64 % 64) as u8;
    out[3] = (0x80 + v % 64) as u8;
    4
}
