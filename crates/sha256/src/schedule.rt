// The message schedule of FIPS 180-4, section 6.2.2, step 1. Sixteen words of it are kept; the next one is worked out of
// them as it is needed, and takes the oldest one's room.
ghost use Rattle.std.specs.Prelude.{◌≡◌, drop};
ghost use Rattle.sha256.specs.Sha256.{◌⊞◌, σ₀, σ₁, W};

use super::words::{small_sigma0, small_sigma1};

// The word after sixteen, of the words at their places 0, 1, 9 and 14.
fn next_word(w0: u32, w1: u32, w9: u32, w14: u32) -> u32
    ensures { result ≡ σ₁ w14 ⊞ w9 ⊞ σ₀ w1 ⊞ w0 }
{
    let one = small_sigma1(w14).wrapping_add(w9);
    let two = one.wrapping_add(small_sigma0(w1));
    two.wrapping_add(w0)
}

// The sixteen words one further on: the oldest goes, the next one comes. The places are written out, so that the words are
// laid once, in the array that is handed back.
fn slid(w: [u32; 16]) -> [u32; 16]
    ensures { result ≡ drop 1 (W w 1) }
{
    let next = next_word(w[0], w[1], w[9], w[14]);
    [
        w[1], w[2], w[3], w[4], w[5], w[6], w[7], w[8], w[9], w[10], w[11], w[12], w[13], w[14],
        w[15], next,
    ]
}

// The sixteen words after the sixteen.
pub fn next_words(words: [u32; 16]) -> [u32; 16]
    ensures { result ≡ drop 16 (W words 16) }
{
    let mut w = words;
    for _ in 0..16usize {
        // By a `let`, as in `hash_of`.
        let next = slid(w);
        w = next;
    }
    w
}
