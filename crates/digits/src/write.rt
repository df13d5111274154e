// Numbers as digits.
ghost use Rattle.std.specs.Prelude.{◌≡◌, ◌+◌, ◌<◌, ◌≤◌, length};
ghost use Rattle.format.specs.Store.{bytes_of};
ghost use Rattle.exchange.specs.Digits.{digits_of, digit_count, hex_of};
ghost use Rattle.exchange.specs.Digits.{digit as Digits·digit};
ghost use Rattle.exchange.specs.Export.{laid};

// The digit of a value below 16.
fn digit(value: u64) -> u8
    requires { value < 16 }
    ensures { result ≡ Digits·digit value }
{
    if value < 10 {
        return (48 + value) as u8;
    }
    (87 + value) as u8
}

// How many decimal digits a number has.
pub fn digit_count(n: u64) -> usize
    ensures { (result ≡ digit_count 20 n) × (result ≤ 20) }
{
    let mut left = n;
    let mut k = 1;
    while 10 <= left {
        left = left / 10;
        k += 1;
    }
    k
}

// Writes a number in `k` digits of a base at an offset, the highest first.
pub fn put_digits(text: &mut [u8], at: usize, base: u64, k: usize, n: u64)
    requires { (at + k ≤ length text.old) × (1 < base) × (base ≤ 16) }
    ensures { text.new ≡ laid at (digits_of base k n) text.old }
{
    let mut left = n;
    for i in (0..k).rev() {
        text[at + i] = digit(left % base);
        left = left / base;
    }
}

// Writes the eight bytes of a word in hexadecimal at an offset, the lowest byte first.
pub fn put_hex(text: &mut [u8], at: usize, word: u64)
    requires { at + 16 ≤ length text.old }
    ensures { text.new ≡ laid at (hex_of (bytes_of 8 word)) text.old }
{
    let mut left = word;
    for i in 0..8 {
        put_digits(text, at + 2 * i, 16, 2, left % 256);
        left = left / 256;
    }
}
