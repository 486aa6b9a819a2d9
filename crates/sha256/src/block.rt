// One block: the sixty-four turns and the sums of FIPS 180-4, section 6.2.2. The eight working words go in and come back as
// one array.
ghost use Rattle.std.specs.Prelude.{◌≡◌, ℕ, ◌+◌, List, take, drop};
ghost use Rattle.sha256.specs.Sha256.{K, T₁, T₂, W, round_of, rounds, sums, next_hash};

use super::constants::quarter;
use super::schedule::next_words;
use super::words::{big_sigma0, big_sigma1, ch, maj};
use std::array;

// The sum that each turn adds in at two places.
fn first_sum(v: [u32; 8], k: u32, w: u32) -> u32
    ensures { result ≡ T₁ v k w }
{
    let he = v[7].wrapping_add(big_sigma1(v[4]));
    let hef = he.wrapping_add(ch(v[4], v[5], v[6]));
    hef.wrapping_add(k).wrapping_add(w)
}

// The sum that each turn adds in at one place.
fn second_sum(v: [u32; 8]) -> u32
    ensures { result ≡ T₂ v }
{
    big_sigma0(v[0]).wrapping_add(maj(v[0], v[1], v[2]))
}

// One turn.
fn turn(v: [u32; 8], k: u32, w: u32) -> [u32; 8]
    ensures { result ≡ round_of v k w }
{
    let one = first_sum(v, k, w);
    let a = one.wrapping_add(second_sum(v));
    let e = v[3].wrapping_add(one);
    [a, v[0], v[1], v[2], e, v[4], v[5], v[6]]
}

// Sixteen turns, by the constants `k` and the words `w` of them. They are written out: the same turns in a loop take a fifth
// longer.
fn sixteen_turns(v: [u32; 8], k: [u32; 16], w: [u32; 16]) -> [u32; 8]
    ensures { (s h : List ℕ) (t : ℕ) → k ≡ take 16 (drop t K) → w ≡ take 16 (drop t s) → v ≡ rounds s h t → result ≡ rounds s h (t + 16) }
{
    let v1 = turn(v, k[0], w[0]);
    let v2 = turn(v1, k[1], w[1]);
    let v3 = turn(v2, k[2], w[2]);
    let v4 = turn(v3, k[3], w[3]);
    let v5 = turn(v4, k[4], w[4]);
    let v6 = turn(v5, k[5], w[5]);
    let v7 = turn(v6, k[6], w[6]);
    let v8 = turn(v7, k[7], w[7]);
    let v9 = turn(v8, k[8], w[8]);
    let v10 = turn(v9, k[9], w[9]);
    let v11 = turn(v10, k[10], w[10]);
    let v12 = turn(v11, k[11], w[11]);
    let v13 = turn(v12, k[12], w[12]);
    let v14 = turn(v13, k[13], w[13]);
    let v15 = turn(v14, k[14], w[14]);
    turn(v15, k[15], w[15])
}

// All turns, by the schedule of the block, from the hash value `h` on.
fn turns(block: [u32; 16], h: [u32; 8]) -> [u32; 8]
    ensures { result ≡ rounds (W block 48) h 64 }
{
    let mut v = h;
    let mut w = block;
    // One call in the loop, and none behind it: a second place takes stack of its own for what is handed over.
    for q in 0..4 {
        // By a `let` each, as in `hash_of`.
        let next = sixteen_turns(v, quarter(q), w);
        v = next;
        if q < 3 {
            let after = next_words(w);
            w = after;
        }
    }
    v
}

// The working words added to the hash value before.
fn added(h: [u32; 8], v: [u32; 8]) -> [u32; 8]
    ensures { result ≡ sums h v }
{
    array::from_fn(|i| v[i].wrapping_add(h[i]))
}

// The hash value after one more block.
pub fn next_hash(h: [u32; 8], block: [u32; 16]) -> [u32; 8]
    ensures { result ≡ next_hash h block }
{
    let v = turns(block, h);
    added(h, v)
}
