// Little-endian numbers in a slice of bytes, sums and differences that wrap, rotations.
ghost use Rattle.std.specs.Prelude.{◌≡◌, ◌+◌, ◌*◌, ◌%◌, ◌^◌, ◌<◌, ◌≤◌, length, slice_index};
ghost use Rattle.format.specs.Number.{number_at, plus, minus, rotl};

// x, as a wider number.
fn wide(x: u8) -> u32
    ensures { (result ≡ x) × (result < 256) }
{
    x as u32
}

// x, as a wider number.
fn wider(x: u32) -> u64
    ensures { (result ≡ x) × (result < 2 ^ 32) }
{
    x as u64
}

// The number that the four bytes at `at` are.
pub fn u32_at(bytes: &[u8], at: usize) -> u32
    requires { at + 4 ≤ length bytes.now }
    ensures { result ≡ number_at 4 bytes.now at }
{
    wide(bytes[at])
        + wide(bytes[at + 1]) * 0x100
        + wide(bytes[at + 2]) * 0x1_0000
        + wide(bytes[at + 3]) * 0x100_0000
}

// The number that the eight bytes at `at` are.
pub fn u64_at(bytes: &[u8], at: usize) -> u64
    requires { at + 8 ≤ length bytes.now }
    ensures { result ≡ number_at 8 bytes.now at }
{
    wider(u32_at(bytes, at)) + wider(u32_at(bytes, at + 4)) * 0x1_0000_0000
}

// The byte at `at`, or 0 past the end.
fn byte_or_0(bytes: &[u8], at: usize) -> u32
    ensures { (result ≡ slice_index bytes.now at) × (result < 256) }
{
    if at < bytes.len() { wide(bytes[at]) } else { 0 }
}

// The number that the three bytes at `at` are, those past the end counting as 0.
fn u24_or_0(bytes: &[u8], at: usize) -> u32
    requires { at ≤ length bytes.now }
    ensures { (result ≡ number_at 3 bytes.now at) × (result < 0x100_0000) }
{
    byte_or_0(bytes, at) + byte_or_0(bytes, at + 1) * 0x100 + byte_or_0(bytes, at + 2) * 0x1_0000
}

// The number that the four bytes at `at` are, those past the end counting as 0.
pub fn u32_or_0(bytes: &[u8], at: usize) -> u32
    requires { at + 4 < 2 ^ 64 }
    ensures { result ≡ number_at 4 bytes.now at }
{
    if at + 4 <= bytes.len() {
        return u32_at(bytes, at);
    }
    if at < bytes.len() {
        return u24_or_0(bytes, at);
    }
    0
}

// The number that the seven bytes at `at` are, of which the last ones may be missing and count as 0.
pub fn u56_or_0(bytes: &[u8], at: usize) -> u64
    requires { (at ≤ length bytes.now) × (length bytes.now < at + 8) }
    ensures { (result ≡ number_at 7 bytes.now at) × (result < 2 ^ 56) }
{
    if at + 4 <= bytes.len() {
        return wider(u32_at(bytes, at)) + wider(u24_or_0(bytes, at + 4)) * 0x1_0000_0000;
    }
    wider(u24_or_0(bytes, at))
}

// x - y, wrapping at 32 bits.
pub fn sub32(x: u32, y: u32) -> u32
    ensures { result ≡ minus 32 x y }
{
    std::num::wrapping_sub_u32(x, y)
}

// x + y, wrapping at 32 bits.
pub fn add32(x: u32, y: u32) -> u32
    ensures { result ≡ plus 32 x y }
{
    std::num::wrapping_add_u32(x, y)
}

// x + y, wrapping at 64 bits.
pub fn add64(x: u64, y: u64) -> u64
    ensures { result ≡ plus 64 x y }
{
    std::num::wrapping_add_u64(x, y)
}

// x rotated left by k of its 32 bits.
pub fn rot32(x: u32, k: u32) -> u32
    requires { (0 < k) × (k < 32) }
    ensures { result ≡ rotl 32 x k }
{
    (x << k) | (x >> (32 - k))
}

// x rotated left by k of its 64 bits.
pub fn rot64(x: u64, k: u64) -> u64
    requires { (0 < k) × (k < 64) }
    ensures { result ≡ rotl 64 x k }
{
    (x << k) | (x >> (64 - k))
}

// Two words as one number.
pub fn joined(high: u32, low: u32) -> u64
    ensures { result ≡ high * 2 ^ 32 + low }
{
    wider(high) * 0x1_0000_0000 + wider(low)
}

// n, modulo 2^32.
pub fn low32(n: usize) -> u32
    ensures { result ≡ n % 2 ^ 32 }
{
    (n % 0x1_0000_0000) as u32
}

// n, modulo 2^8.
pub fn low8(n: usize) -> u64
    ensures { result ≡ n % 256 }
{
    (n % 0x100) as u64
}
