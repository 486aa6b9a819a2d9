// Writes SHA-256 digests as lines of lower-case hex: of the five published examples (the empty message, "abc", the
// 448-bit message, the 896-bit message, one million "a"), then of the pattern's first 0, 1, .. 130 bytes, then of its
// first 6,253. Byte i of the pattern is i % 251. The file `stdout` beside this crate's src/ holds what must be written;
// its digests were made by sha256sum (GNU coreutils), and Python's hashlib gives the same.
// An error is that of the printing, and ends main.
#![tactic(auto)]

ghost use Rattle.std.specs.Prelude.{◌≤◌, length};

use std::io;

// The digit of a byte's lower half.
fn digit(b: u8) -> u8 {
    let n = b % 16;
    if n < 10 { 48 + n } else { 87 + n }
}

// The digest as 64 digits and a line's end.
fn line(digest: [u8; 32]) -> [u8; 65] {
    let mut out = [10u8; 65];
    for (i, b) in digest.iter().enumerate() {
        out[2 * i] = digit(*b / 16);
        out[2 * i + 1] = digit(*b);
    }
    out
}

// Writes the digest of the message.
fn show(rt: &impl Print, message: &[u8]) -> io::Result<()> {
    let text = line(sha256::digest(message));
    rt.write_all(&text)
}

// Writes the pattern.
fn fill(pattern: &mut [u8]) {
    for (i, x) in pattern.iter_mut().enumerate() {
        *x = (i % 251) as u8;
    }
}

// Writes the digests of the pattern's first 0 to 130 bytes.
fn show_lengths(rt: &impl Print, pattern: &[u8]) -> io::Result<()>
    requires { 130 ≤ length pattern.now }
{
    for n in 0..=130 {
        show(rt, &pattern[0..n])?;
    }
    Ok(())
}

// Writes the digest of one million bytes, which are lent as an array.
fn show_million(rt: &impl Print, message: &[u8; 1000000]) -> io::Result<()> {
    show(rt, message)
}

fn main(rt: HostRuntime) -> io::Result<()> {
    show(&rt, b"")?;
    show(&rt, b"abc")?;
    show(
        &rt,
        b"abcdbcdecdefdefgefghfghighijhijkijkljklmklmnlmnomnopnopq",
    )?;
    show(
        &rt,
        b"abcdefghbcdefghicdefghijdefghijkefghijklfghijklmghijklmnhijklmnoijklmnopjklmnopqklmnopqrlmnopqrsmnopqrstnopqrstu",
    )?;
    let million = [b'a'; 1000000];
    show_million(&rt, &million)?;
    let mut pattern = [0u8; 6253];
    fill(&mut pattern);
    show_lengths(&rt, &pattern)?;
    show(&rt, &pattern)
}
