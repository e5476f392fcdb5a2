//! Numbers as the source writes them.
ghost use Rattle.std.specs.Prelude.{◌≡◌, ◌≤◌, ◌<◌, ◌^◌, length, IsTrue, min};
ghost use Rattle.std.specs.List.{list_all};
ghost use Rattle.std.specs.Char.{digit_value, is_digit};
ghost use Rattle.uasm_core.specs.Line.{digits_of, magnitude_of, number_in, number_of, has_sign, without_sign};
ghost use Rattle.uasm_core.specs.Statement.{is_within as within, low_bits as low_bits_of};

/// A number with its sign. From 2^64 on its size is not told exactly.
#[derive(Clone, Copy)]
pub(crate) struct Number {
    pub negative: bool,
    pub magnitude: u128,
}

/// What 1 in the upper 20 bits of a word of 32 stands for: what lui and auipc give is a multiple of it.
pub(crate) const UPPER_UNIT: u64 = 4096;

/// Half of that. The low 12 bits are added with their sign: from here on they take one from the upper bits.
pub(crate) const HALF_UPPER_UNIT: u64 = UPPER_UNIT / 2;

/// How many numbers 20 bits tell apart.
pub(crate) const UPPER_NUMBERS: u64 = 0x10_0000;

/// Where the size of a number is not told apart any more: past each range.
const CAP: u128 = 0x1_0000_0000_0000_0000;

/// The value of a digit or a letter, 36 for any other byte.
fn digit(byte: u8) -> u8
    ensures value { result ≡ digit_value byte }
    ensures range { result ≤ 36 }
{
    match byte {
        b'0'..=b'9' => byte - b'0',
        b'A'..=b'Z' => byte - b'A' + 10,
        b'a'..=b'z' => byte - b'a' + 10,
        _ => 36,
    }
}

fn has_digits_only(bytes: &[u8], base: u8) -> bool
    ensures { result ≡ list_all (λ b. is_digit b base) bytes.now }
{
    bytes.iter().all(|byte| digit(*byte) < base)
}

/// The number that digits write, or 2^64 where it is more.
fn value(bytes: &[u8], base: u8) -> u128
    requires { (1 ≤ base) × (base ≤ 16) }
    ensures { result ≡ min (number_in base bytes.now) (2 ^ 64) }
{
    let mut number: u128 = 0;
    for byte in bytes {
        if number < CAP {
            number = number * u128::from(base) + u128::from(digit(*byte));
        }
    }
    number.min(CAP)
}

/// The number that digits write, one or more of them.
fn digits(bytes: &[u8], base: u8) -> Option<u128>
    requires { (1 ≤ base) × (base ≤ 16) }
    ensures { result ≡ digits_of base bytes.now }
{
    if bytes.is_empty() || !has_digits_only(bytes, base) {
        return None;
    }
    Some(value(bytes, base))
}

/// The number without a sign that the bytes write.
fn magnitude(bytes: &[u8]) -> Option<u128>
    ensures { result ≡ magnitude_of bytes.now }
{
    if bytes.starts_with(b"0x") {
        digits(&bytes[2..], 16)
    } else {
        digits(bytes, 10)
    }
}

fn has_minus(bytes: &[u8]) -> bool
    ensures value { result ≡ has_sign bytes.now }
    ensures long { IsTrue result → 1 ≤ length bytes.now }
{
    bytes.starts_with(b"-")
}

fn without_minus(bytes: &[u8]) -> &[u8]
    ensures { result.now ≡ without_sign bytes.now }
{
    if has_minus(bytes) { &bytes[1..] } else { bytes }
}

/// The number that the bytes write.
pub(crate) fn read_number(bytes: &[u8]) -> Option<Number>
    ensures { result ≡ number_of bytes.now }
{
    Some(Number {
        negative: has_minus(bytes),
        magnitude: magnitude(without_minus(bytes))?,
    })
}

impl Number {
    /// Whether it is at least -low and at most high.
    pub(crate) fn is_within(&self, low: u64, high: u64) -> bool
        ensures { result ≡ within low high self.now }
    {
        self.magnitude <= u128::from(if self.negative { low } else { high })
    }

    /// The low `count` bits.
    pub(crate) fn low_bits(&self, count: u32) -> u64
        requires { count ≤ 64 }
        ensures value { result ≡ low_bits_of count self.now }
        ensures range { result < 2 ^ count }
    {
        let part = 1u128 << count;
        let low = self.magnitude % part;
        (if self.negative {
            (part - low) % part
        } else {
            low
        }) as u64
    }
}
