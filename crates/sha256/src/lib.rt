// SHA-256 of FIPS 180-4: the digest of any slice of bytes.
#![tactic(auto)]

mod block;
mod constants;
mod padding;
mod parsing;
mod schedule;
mod words;

ghost use Rattle.std.specs.Prelude.{◌≡◌, ◌+◌, ◌-◌, ◌*◌, ◌/◌, ◌%◌, ◌^◌, ◌<◌, length, slice_index};
ghost use Rattle.sha256.specs.Sha256.{padded, H⁽ⁱ⁾, joined, sha256_of};

use block::next_hash;
use parsing::block_of;
use std::array;

// The initial hash value, section 5.3.3.
const FIRST: [u32; 8] = [
    0x6a09e667, 0xbb67ae85, 0x3c6ef372, 0xa54ff53a, 0x510e527f, 0x9b05688c, 0x1f83d9ab, 0x5be0cd19,
];

// The hash value after all blocks of the padded message.
fn hash_of(s: &[u8]) -> [u32; 8]
    ensures { result ≡ H⁽ⁱ⁾ (padded s.now) ((length s.now + 8) / 64 + 1) }
{
    let mut h = FIRST;
    for i in 0..(s.len() + 8) / 64 + 1 {
        // By a `let`: a call's result is not laid straight in a local that holds an array, which the borrow check does not cover.
        let next = next_hash(h, block_of(s, i));
        h = next;
    }
    h
}

// Byte i of the hash value, each word's highest byte first.
fn byte_of(h: [u32; 8], i: usize) -> u8
    requires { i < 32 }
    ensures { result ≡ slice_index h (i / 4) / 2 ^ (8 * (3 - i % 4)) % 256 }
{
    ((h[i / 4] >> (8 * (3 - i % 4))) % 256) as u8
}

// The hash value as bytes.
fn bytes_of(h: [u32; 8]) -> [u8; 32]
    ensures { result ≡ joined h }
{
    array::from_fn(|i| byte_of(h, i))
}

// The SHA-256 digest of the message.
pub fn digest(message: &[u8]) -> [u8; 32]
    ensures { result ≡ sha256_of message.now }
{
    let last = hash_of(message);
    bytes_of(last)
}
