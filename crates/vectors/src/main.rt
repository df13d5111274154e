#![tactic(auto)]
// Prints both hashes of published inputs and of payloads as journals hold them; `stdout` has what is published.
use std::io;
use std::io::Write;

// The key of the SipHash paper's vectors: 00 to 0f.
const KEY: [u8; 16] = [0, 1, 2, 3, 4, 5, 6, 7, 8, 9, 10, 11, 12, 13, 14, 15];

// The bytes of the SipHash reference vectors: 00 to 3e.
const BYTES: [u8; 63] = [
    0, 1, 2, 3, 4, 5, 6, 7, 8, 9, 10, 11, 12, 13, 14, 15, 16, 17, 18, 19, 20, 21, 22, 23, 24, 25,
    26, 27, 28, 29, 30, 31, 32, 33, 34, 35, 36, 37, 38, 39, 40, 41, 42, 43, 44, 45, 46, 47, 48, 49,
    50, 51, 52, 53, 54, 55, 56, 57, 58, 59, 60, 61, 62,
];

// Ends a line with the hash.
fn value<W: Write>(out: &mut W, hash: u64) -> io::Result<()> {
    writeln!(out, " = {hash:016x}")
}

// Starts a line: the hash's name, and the text that is hashed in quotes.
fn quoted<W: Write>(out: &mut W, name: &[u8], text: &[u8]) -> io::Result<()> {
    out.write_all(name)?;
    out.write_all(b" \"")?;
    out.write_all(text)?;
    out.write_all(b"\"")
}

fn lookup3<W: Write>(out: &mut W, text: &[u8]) -> io::Result<()> {
    quoted(out, b"lookup3", text)?;
    value(out, hash::lookup3::hash(text))
}

fn siphash24<W: Write>(out: &mut W, text: &[u8]) -> io::Result<()> {
    quoted(out, b"siphash24", text)?;
    value(out, hash::siphash::hash(&KEY, text))
}

// The reference vector of one length: the first bytes of 00, 01, 02, ..
fn reference<W: Write>(out: &mut W, bytes: &[u8], n: usize) -> io::Result<()> {
    if n <= bytes.len() {
        write!(out, "siphash24 {n}")?;
        value(out, hash::siphash::hash(&KEY, &bytes[..n]))?;
    }
    Ok(())
}

// The 64 reference vectors, by length.
fn references<W: Write>(out: &mut W) -> io::Result<()> {
    for n in 0..64 {
        reference(out, &BYTES, n)?;
    }
    Ok(())
}

fn main(rt: HostRuntime) -> io::Result<()> {
    let mut out = io::writer(&rt);
    lookup3(&mut out, b"")?;
    lookup3(&mut out, b"Four score and seven years ago")?;
    lookup3(&mut out, b"MESSAGE=lot 12 due")?;
    lookup3(&mut out, b"PRIORITY=2")?;
    lookup3(&mut out, b"_HOSTNAME=store-controller-7")?;
    lookup3(&mut out, b"GERMINATION=0")?;
    lookup3(&mut out, b"LOT=1123581321345589")?;
    references(&mut out)?;
    siphash24(&mut out, b"MESSAGE=lot 12 due")?;
    siphash24(&mut out, b"PRIORITY=2")?;
    siphash24(&mut out, b"_HOSTNAME=store-controller-7")?;
    siphash24(&mut out, b"GERMINATION=0")?;
    siphash24(&mut out, b"LOT=1123581321345589")
}
