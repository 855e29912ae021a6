// Face. Why a call refuses its input, as one enum: every call of the library that may refuse answers Result<T, Refusal>. The library makes a Refusal and
// asks for its number and its values; of the programs tables and answers match on it, and replay and cases compare it. It has no text for people: the
// numbers are those of docs/RULES.md, "Refusals".
#![tactic(auto)]

ghost use Rattle.std.specs.Prelude.{◌≡◌, get_or};
ghost use Rattle.refusal.specs.Refusal.{refusal_number, refusal_values, told, told_number, told_value};

// The most bytes of a row, and for a text conversion called alone.
pub const INPUT_LIMIT: usize = 1048576;

// The numbers of the refusals. Constants, since vejupa answers some of them by name; and no From: README names Refusal::number, which would say the same.
pub const QRYDSC_TOO_LONG: u32 = 1;

pub const TOO_MANY_COLUMNS: u32 = 2;

pub const COUNT_TOO_LARGE: u32 = 3;

pub const INPUT_TOO_LONG: u32 = 4;

pub const DEC_FLOAT_COLUMN: u32 = 5;

pub const DECIMAL_EMPTY: u32 = 6;

pub const DECIMAL_TOO_LONG: u32 = 7;

pub const BUFFER_TOO_SHORT: u32 = 8;

pub const TEXT_BUFFER_TOO_SHORT: u32 = 9;

pub const DECIMAL_DIGIT: u32 = 12;

pub const DECIMAL_SIGN: u32 = 13;

pub const DECIMAL_OUT_OF_RANGE: u32 = 14;

pub const QRYDSC_BROKEN_OFF: u32 = 15;

pub const UNKNOWN_RELEASE: u32 = 22;

// The refusals, by their numbers: a call tests them in this order, save that 15 comes behind 1 and 22 comes first.
#[derive(Clone, Copy, Debug, PartialEq, Eq)]
pub enum Refusal {
    // 1: a description of more than 65,536 bytes.
    QrydscTooLong,
    // 2: a description of more columns than a list holds.
    TooManyColumns,
    // 3: a column count above what a list holds.
    CountTooLarge,
    // 4: a row, or the bytes of a text conversion called alone, more than 1,048,576 of them.
    InputTooLong,
    // 5: a DecFloat column handed to the row call.
    DecFloatColumn,
    // 6: a packed decimal, called alone, of no bytes.
    DecimalEmpty,
    // 7: a packed decimal, called alone, of more than 128 bytes.
    DecimalTooLong,
    // 8: too short; the numbers are those of the Rust's BufferTooShort.
    BufferTooShort { expected: usize, actual: usize },
    // 9: the texts need a longer text buffer, of `needed` bytes.
    TextBufferTooShort { needed: usize },
    // 12: a packed decimal, read as a number, with a digit above 9.
    DecimalDigit,
    // 13: the same with a sign below A.
    DecimalSign,
    // 14: the same of a number that 64 bits with a sign do not hold.
    DecimalOutOfRange,
    // 15: a description that breaks off, where only a whole one is taken.
    QrydscBrokenOff,
    // 22: a host release that is neither 2 nor 3.
    UnknownRelease,
}

impl Refusal {
    // The number of the rules.
    pub fn number(self) -> u32
        ensures { result ≡ refusal_number self }
    {
        match self {
            Refusal::QrydscTooLong => QRYDSC_TOO_LONG,
            Refusal::TooManyColumns => TOO_MANY_COLUMNS,
            Refusal::CountTooLarge => COUNT_TOO_LARGE,
            Refusal::InputTooLong => INPUT_TOO_LONG,
            Refusal::DecFloatColumn => DEC_FLOAT_COLUMN,
            Refusal::DecimalEmpty => DECIMAL_EMPTY,
            Refusal::DecimalTooLong => DECIMAL_TOO_LONG,
            Refusal::BufferTooShort { .. } => BUFFER_TOO_SHORT,
            Refusal::TextBufferTooShort { .. } => TEXT_BUFFER_TOO_SHORT,
            Refusal::DecimalDigit => DECIMAL_DIGIT,
            Refusal::DecimalSign => DECIMAL_SIGN,
            Refusal::DecimalOutOfRange => DECIMAL_OUT_OF_RANGE,
            Refusal::QrydscBrokenOff => QRYDSC_BROKEN_OFF,
            Refusal::UnknownRelease => UNKNOWN_RELEASE,
        }
    }

    // The first of the numbers that come with it, and 0 where there is none: no Option, since README promises that 0, and C is told it.
    pub fn first_value(self) -> usize
        ensures { result ≡ get_or (refusal_values self) 0 0 }
    {
        match self {
            Refusal::BufferTooShort { expected, .. } => expected,
            Refusal::TextBufferTooShort { needed } => needed,
            _ => 0,
        }
    }

    // The second.
    pub fn second_value(self) -> usize
        ensures { result ≡ get_or (refusal_values self) 1 0 }
    {
        match self {
            Refusal::BufferTooShort { actual, .. } => actual,
            _ => 0,
        }
    }
}

// The number of the refusal that an answer is, and 0 where it is none. README names the three that follow; one body for them would take a closure in place of a
// match of two arms, and be no plainer.
pub fn number<T>(answer: &Result<T, Refusal>) -> u32
    ensures { result ≡ told_number (told answer.now) }
{
    match answer {
        Ok(_) => 0,
        Err(r) => r.number(),
    }
}

// Its first value, and 0 where it has none.
pub fn first_value<T>(answer: &Result<T, Refusal>) -> usize
    ensures { result ≡ told_value (told answer.now) 0 }
{
    match answer {
        Ok(_) => 0,
        Err(r) => r.first_value(),
    }
}

// Its second value, and 0 where it has none.
pub fn second_value<T>(answer: &Result<T, Refusal>) -> usize
    ensures { result ≡ told_value (told answer.now) 1 }
{
    match answer {
        Ok(_) => 0,
        Err(r) => r.second_value(),
    }
}
