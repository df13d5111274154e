// SipHash-2-4: two rounds for each word of the message, four at the end.
ghost use Rattle.std.specs.Prelude.{◌≡◌, ◌*◌, ◌≤◌, length};
ghost use Rattle.format.specs.SipHash.{sip_round, compressed, last_word, sip_hash24};
ghost use Rattle.format.specs.SipHash.{initialization as SipHash·initialization};
ghost use Rattle.format.specs.SipHash.{compression as SipHash·compression};
ghost use Rattle.format.specs.SipHash.{finalization as SipHash·finalization};

use format::hash_state::State;
use number::number::{add64, low8, rot64, u56_or_0, u64_at};

// SipRound.
fn round(s: State) -> State
    ensures { result ≡ sip_round s }
{
    let mut v0 = add64(s.v0, s.v1);
    let mut v2 = add64(s.v2, s.v3);
    let mut v1 = rot64(s.v1, 13) ^ v0;
    let mut v3 = rot64(s.v3, 16) ^ v2;
    v0 = rot64(v0, 32);
    v2 = add64(v2, v1);
    v0 = add64(v0, v3);
    v1 = rot64(v1, 17) ^ v2;
    v3 = rot64(v3, 21) ^ v0;
    v2 = rot64(v2, 32);
    State { v0, v1, v2, v3 }
}

// The state at the start, from the key's two words.
fn initialization(key: &[u8; 16]) -> State
    ensures { result ≡ SipHash·initialization key.now }
{
    let k0 = u64_at(key, 0);
    let k1 = u64_at(key, 8);
    State {
        v0: k0 ^ 0x736f_6d65_7073_6575,
        v1: k1 ^ 0x646f_7261_6e64_6f6d,
        v2: k0 ^ 0x6c79_6765_6e65_7261,
        v3: k1 ^ 0x7465_6462_7974_6573,
    }
}

// A word of the message is taken in.
fn compression(s: State, m: u64) -> State
    ensures { result ≡ SipHash·compression m s }
{
    let v = round(round(State {
        v0: s.v0,
        v1: s.v1,
        v2: s.v2,
        v3: s.v3 ^ m,
    }));
    State {
        v0: v.v0 ^ m,
        v1: v.v1,
        v2: v.v2,
        v3: v.v3,
    }
}

// The state after the first n words of the message.
fn words(key: &[u8; 16], message: &[u8], n: usize) -> State
    requires { n * 8 ≤ length message.now }
    ensures { result ≡ compressed key.now message.now n }
{
    let mut s = initialization(key);
    for k in 0..n {
        s = compression(s, u64_at(message, k * 8));
    }
    s
}

// The last word: the bytes that are left, and the length's low byte on top.
fn last_word(message: &[u8]) -> u64
    ensures { result ≡ last_word message.now }
{
    u56_or_0(message, message.len() / 8 * 8) + low8(message.len()) * 0x100_0000_0000_0000
}

// The hash, from the state after the last word.
fn finalization(s: State) -> u64
    ensures { result ≡ SipHash·finalization s }
{
    let v = round(round(round(round(State {
        v0: s.v0,
        v1: s.v1,
        v2: s.v2 ^ 0xff,
        v3: s.v3,
    }))));
    v.v0 ^ v.v1 ^ v.v2 ^ v.v3
}

// SipHash-2-4 of the message under the key.
pub fn hash(key: &[u8; 16], message: &[u8]) -> u64
    ensures { result ≡ sip_hash24 key.now message.now }
{
    let n = message.len() / 8;
    finalization(compression(words(key, message, n), last_word(message)))
}
