// Bob Jenkins' lookup3.c: hashlittle2 with both starting values 0.
ghost use Rattle.std.specs.Prelude.{◌≡◌, ◌+◌, ◌*◌, ◌<◌, ◌≤◌, length, drop};
ghost use Rattle.format.specs.Number.{number_at};
ghost use Rattle.format.specs.Lookup3.{mix_lines, final_lines, final_line, final, start, absorb, mixed, last_block, padded, hashlittle2};
ghost use Rattle.format.specs.Lookup3.{mix as Lookup3·mix};

use format::hash_state::Abc;
use number::number::{add32, joined, low32, rot32, sub32, u32_at, u32_or_0};

// Three lines of lookup3.c's mix(a, b, c), with the amounts that they rotate by.
fn mix_lines(s: Abc, i: u32, j: u32, k: u32) -> Abc
    requires { ((0 < i) × (i < 32)) × ((0 < j) × (j < 32)) × ((0 < k) × (k < 32)) }
    ensures { result ≡ mix_lines i j k s }
{
    let turned_c = rot32(s.c, i);
    let mut a = sub32(s.a, s.c) ^ turned_c;
    let mut c = add32(s.c, s.b);
    let turned_a = rot32(a, j);
    let mut b = sub32(s.b, a) ^ turned_a;
    a = add32(a, c);
    let turned_b = rot32(b, k);
    c = sub32(c, b) ^ turned_b;
    b = add32(b, a);
    Abc { a, b, c }
}

// lookup3.c's mix(a, b, c).
fn mix(s: Abc) -> Abc
    ensures { result ≡ Lookup3·mix s }
{
    mix_lines(mix_lines(s, 4, 6, 8), 16, 19, 4)
}

// Three lines of lookup3.c's final(a, b, c), with the amounts that they rotate by.
fn final_lines(s: Abc, i: u32, j: u32, k: u32) -> Abc
    requires { ((0 < i) × (i < 32)) × ((0 < j) × (j < 32)) × ((0 < k) × (k < 32)) }
    ensures { result ≡ final_lines i j k s }
{
    let c = sub32(s.c ^ s.b, rot32(s.b, i));
    let a = sub32(s.a ^ c, rot32(c, j));
    let b = sub32(s.b ^ a, rot32(a, k));
    Abc { a, b, c }
}

// Its last line.
fn final_line(s: Abc, i: u32) -> Abc
    requires { (0 < i) × (i < 32) }
    ensures { result ≡ final_line i s }
{
    Abc {
        a: s.a,
        b: s.b,
        c: sub32(s.c ^ s.b, rot32(s.b, i)),
    }
}

// lookup3.c's final(a, b, c).
fn final_mix(s: Abc) -> Abc
    ensures { result ≡ final s }
{
    final_line(final_lines(final_lines(s, 14, 11, 25), 16, 4, 14), 24)
}

// The words at the start, for n bytes.
fn started(n: usize) -> Abc
    ensures { result ≡ start n }
{
    let x = add32(0xdead_beef, low32(n));
    Abc { a: x, b: x, c: x }
}

// The words with the block of twelve bytes at `at` added.
fn block(s: Abc, bytes: &[u8], at: usize) -> Abc
    requires { at + 12 ≤ length bytes.now }
    ensures { result ≡ absorb bytes.now at s }
{
    Abc {
        a: add32(s.a, u32_at(bytes, at)),
        b: add32(s.b, u32_at(bytes, at + 4)),
        c: add32(s.c, u32_at(bytes, at + 8)),
    }
}

// The three words of a block of twelve bytes, lookup3.c's k[0], k[1] and k[2].
#[derive(Clone, Copy)]
struct Words {
    k0: u32,
    k1: u32,
    k2: u32,
}

// The last one to twelve bytes, those from `at` on, as one block padded with zero bytes: a byte past the end is 0.
fn padded_block(bytes: &[u8], at: usize) -> Words
    requires { at ≤ length bytes.now }
    ensures k0_value { result.k0 ≡ number_at 4 (padded (drop at bytes.now)) 0 }
    ensures k1_value { result.k1 ≡ number_at 4 (padded (drop at bytes.now)) 4 }
    ensures k2_value { result.k2 ≡ number_at 4 (padded (drop at bytes.now)) 8 }
{
    Words {
        k0: u32_or_0(bytes, at),
        k1: u32_or_0(bytes, at + 4),
        k2: u32_or_0(bytes, at + 8),
    }
}

// The words with that block added.
fn last_block(s: Abc, bytes: &[u8], at: usize) -> Abc
    requires { at ≤ length bytes.now }
    ensures { result ≡ absorb (padded (drop at bytes.now)) 0 s }
{
    let k = padded_block(bytes, at);
    Abc {
        a: add32(s.a, k.k0),
        b: add32(s.b, k.k1),
        c: add32(s.c, k.k2),
    }
}

// The loop over whole blocks: the words after it, and where the last block starts.
#[derive(Clone, Copy)]
pub struct Mixed {
    pub s: Abc,
    pub at: usize,
}

// Mixes every block but the last, of one to twelve bytes.
fn blocks(bytes: &[u8]) -> Mixed
    requires { 0 < length bytes.now }
    ensures { (result.s ≡ mixed bytes.now (last_block bytes.now)) × (result.at ≡ last_block bytes.now * 12) }
{
    let n = (bytes.len() - 1) / 12;
    let mut s = started(bytes.len());
    for k in 0..n {
        s = mix(block(s, bytes, k * 12));
    }
    Mixed { s, at: n * 12 }
}

// hashlittle2 of the bytes, both starting values 0, its first word high.
pub fn hash(bytes: &[u8]) -> u64
    ensures { result ≡ hashlittle2 bytes.now }
{
    if bytes.len() == 0 {
        return 0xdead_beef_dead_beef;
    }
    let m = blocks(bytes);
    let s = final_mix(last_block(m.s, bytes, m.at));
    joined(s.c, s.b)
}
