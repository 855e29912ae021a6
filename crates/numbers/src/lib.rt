// Inner. The numbers of a row from their bytes, in either byte order: SmallInt, Integer, BigInt, Real and Double; and from their bits, which is how a
// number stands in words. A function that reads bytes reads the first of what it is given and asks that they are there: which bytes a value has is the
// row's matter.
// There is a function for each width, since from_be_bytes, cast_signed and from_bits are methods of each type: a trait would have the same bodies in its impls,
// and a function that orders the bytes would leave a call of from_be_bytes to each width.
#![tactic(auto)]

ghost use Rattle.std.specs.Prelude.{◌≡◌, ◌≤◌, length, take};
ghost use Rattle.numbers.specs.Number.{unsigned, number_value, real_of, double_of, small_int_in, integer_in, big_int_in, real_in, double_in};

use types::{ByteOrder, Db2Value};

// Slices and no arrays: TRACE names functions below that take any slice which is long enough.

// The number in the first two bytes.
pub fn u16_of(s: &[u8], order: ByteOrder) -> u16
    requires { 2 ≤ length s.now }
    ensures { result ≡ unsigned order (take 2 s.now) }
{
    let bytes = *s.first_chunk().unwrap();
    match order {
        ByteOrder::BigEndian => u16::from_be_bytes(bytes),
        ByteOrder::LittleEndian => u16::from_le_bytes(bytes),
    }
}

// The number in the first four bytes.
pub fn u32_of(s: &[u8], order: ByteOrder) -> u32
    requires { 4 ≤ length s.now }
    ensures { result ≡ unsigned order (take 4 s.now) }
{
    let bytes = *s.first_chunk().unwrap();
    match order {
        ByteOrder::BigEndian => u32::from_be_bytes(bytes),
        ByteOrder::LittleEndian => u32::from_le_bytes(bytes),
    }
}

// The number in the first eight bytes.
pub fn u64_of(s: &[u8], order: ByteOrder) -> u64
    requires { 8 ≤ length s.now }
    ensures { result ≡ unsigned order (take 8 s.now) }
{
    let bytes = *s.first_chunk().unwrap();
    match order {
        ByteOrder::BigEndian => u64::from_be_bytes(bytes),
        ByteOrder::LittleEndian => u64::from_le_bytes(bytes),
    }
}

// A float by its bits. A NaN is kept as its bits, since from_bits is undefined there: without the sign's bit they are a number above infinity's.
pub fn real_of(n: u32) -> Db2Value
    ensures { result ≡ number_value (real_of n) }
{
    if 0x7F80_0000 < n % 0x8000_0000 {
        Db2Value::RealNan(n)
    } else {
        Db2Value::Real(f32::from_bits(n))
    }
}

pub fn double_of(n: u64) -> Db2Value
    ensures { result ≡ number_value (double_of n) }
{
    if 0x7FF0_0000_0000_0000 < n % 0x8000_0000_0000_0000 {
        Db2Value::DoubleNan(n)
    } else {
        Db2Value::Double(f64::from_bits(n))
    }
}

pub fn small_int(s: &[u8], order: ByteOrder) -> Db2Value
    requires { 2 ≤ length s.now }
    ensures { result ≡ number_value (small_int_in order (take 2 s.now)) }
{
    Db2Value::SmallInt(u16_of(s, order).cast_signed())
}

pub fn integer(s: &[u8], order: ByteOrder) -> Db2Value
    requires { 4 ≤ length s.now }
    ensures { result ≡ number_value (integer_in order (take 4 s.now)) }
{
    Db2Value::Integer(u32_of(s, order).cast_signed())
}

pub fn big_int(s: &[u8], order: ByteOrder) -> Db2Value
    requires { 8 ≤ length s.now }
    ensures { result ≡ number_value (big_int_in order (take 8 s.now)) }
{
    Db2Value::BigInt(u64_of(s, order).cast_signed())
}

pub fn real(s: &[u8], order: ByteOrder) -> Db2Value
    requires { 4 ≤ length s.now }
    ensures { result ≡ number_value (real_in order (take 4 s.now)) }
{
    real_of(u32_of(s, order))
}

pub fn double(s: &[u8], order: ByteOrder) -> Db2Value
    requires { 8 ≤ length s.now }
    ensures { result ≡ number_value (double_in order (take 8 s.now)) }
{
    double_of(u64_of(s, order))
}
