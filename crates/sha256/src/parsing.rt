// The blocks of FIPS 180-4, section 5.2.1, as sixteen words each. A whole block is read straight from the message; the
// last one or two, which hold the padding, byte by byte.
ghost use Rattle.std.specs.Prelude.{◌≡◌, ◌+◌, ◌/◌, ◌^◌, ◌<◌, ◌≤◌, length};
ghost use Rattle.sha256.specs.Sha256.{padded, word_at, words_at, M⁽ⁱ⁾};

use super::padding::byte_at;
use super::words::word_of;
use std::array;

// The word of the message from place `at` on.
fn word_at(s: &[u8], at: usize) -> u32
    requires { at + 4 ≤ length s.now }
    ensures { result ≡ word_at s.now at }
{
    word_of(s[at], s[at + 1], s[at + 2], s[at + 3])
}

// The whole block of the message from place `at` on.
fn block_at(s: &[u8], at: usize) -> [u32; 16]
    requires { at + 64 ≤ length s.now }
    ensures { result ≡ words_at s.now at 16 }
{
    array::from_fn(|t| word_at(s, at + 4 * t))
}

// The word of the padded message from place `at` on.
fn padded_word(s: &[u8], at: usize) -> u32
    requires { at + 4 < 2 ^ 64 }
    ensures { result ≡ word_at (padded s.now) at }
{
    let a = byte_at(s, at);
    let b = byte_at(s, at + 1);
    let c = byte_at(s, at + 2);
    let d = byte_at(s, at + 3);
    word_of(a, b, c, d)
}

// The block of the padded message from place `at` on. Not one with `block_at`: that one asks nothing of the padding, and a word of it is
// read with no test for each byte.
fn padded_block(s: &[u8], at: usize) -> [u32; 16]
    requires { at + 64 < 2 ^ 64 }
    ensures { result ≡ words_at (padded s.now) at 16 }
{
    array::from_fn(|t| padded_word(s, at + 4 * t))
}

// Block i of the padded message.
pub fn block_of(s: &[u8], i: usize) -> [u32; 16]
    requires { i < (length s.now + 8) / 64 + 1 }
    ensures { result ≡ M⁽ⁱ⁾ (padded s.now) i }
{
    if i < s.len() / 64 {
        return block_at(s, 64 * i);
    }
    padded_block(s, 64 * i)
}
