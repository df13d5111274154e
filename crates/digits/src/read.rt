// The numbers and the bytes that digits are.
ghost use Rattle.std.specs.Prelude.{◌≡◌, false, ◌+◌, ◌*◌, ◌<◌, ◌≤◌, length, get_or};
ghost use Rattle.format.specs.Number.{number_at};
ghost use Rattle.format.specs.Tests.{any};
ghost use Rattle.exchange.specs.Digits.{digit_value, no_digit, hex_bytes};
ghost use Rattle.exchange.specs.Import.{boot_fault};
ghost use Rattle.digits.specs.Times.{time_read};

// What a byte that is no digit counts as.
const NO_DIGIT: u64 = 16;
// The most digits of a time.
const MOST_DIGITS: usize = 20;
// The digits of a boot id.
const BOOT_DIGITS: usize = 32;
// The largest number of 64 bits.
const LARGEST: u64 = 0xffff_ffff_ffff_ffff;

// What a byte counts as a digit.
fn digit_value(b: u8) -> u64
    ensures { (result ≡ digit_value b) × (result ≤ 16) }
{
    match b {
        b'0'..=b'9' => (b - b'0') as u64,
        b'a'..=b'f' => (b - 87) as u64,
        _ => NO_DIGIT,
    }
}

// Is some byte no digit of a base?
fn odd_digit(digits: &[u8], base: u64) -> bool
    ensures { result ≡ any (λ b. no_digit base b) digits.now }
{
    digits.iter().any(|b| base <= digit_value(*b))
}

// The number that decimal digits are, if it has no more than 64 bits.
fn read_number(digits: &[u8]) -> Option<u64>
    requires { (0 < length digits.now) × (length digits.now ≤ 20) × (any (λ b. no_digit 10 b) digits.now ≡ false) }
    ensures { result ≡ time_read digits.now }
{
    let mut value: u64 = 0;
    for b in digits {
        let d = digit_value(*b);
        if (LARGEST - d) / 10 < value {
            return None;
        }
        value = value * 10 + d;
    }
    Some(value)
}

// A time: 1 to 20 digits within 64 bits.
pub fn read_time(digits: &[u8]) -> Option<u64>
    ensures { result ≡ time_read digits.now }
{
    if digits.is_empty() || MOST_DIGITS < digits.len() || odd_digit(digits, 10) {
        return None;
    }
    read_number(digits)
}

// Are these not 32 hexadecimal digits?
pub fn boot_fault(digits: &[u8]) -> bool
    ensures { result ≡ boot_fault digits.now }
{
    digits.len() != BOOT_DIGITS || odd_digit(digits, 16)
}

// The byte that two hexadecimal digits are, by its place.
fn hex_byte(digits: &[u8], i: usize) -> u64
    requires { (2 * i + 2 ≤ length digits.now) × (any (λ b. no_digit 16 b) digits.now ≡ false) }
    ensures { (result ≡ get_or (hex_bytes digits.now) i 0) × (result < 256) }
{
    digit_value(digits[2 * i]) * 16 + digit_value(digits[2 * i + 1])
}

// The word that the eight bytes from a place on are.
pub fn hex_word(digits: &[u8], at: usize) -> u64
    requires { (2 * at + 16 ≤ length digits.now) × (any (λ b. no_digit 16 b) digits.now ≡ false) }
    ensures { result ≡ number_at 8 (hex_bytes digits.now) at }
{
    let mut word: u64 = 0;
    for i in (0..8).rev() {
        word = word * 256 + hex_byte(digits, at + i);
    }
    word
}
