// Pieces of 32 bytes of a byte slice: keys and ids.
#![tactic(auto)]

ghost use Rattle.std.specs.Prelude.{◌*◌, ◌≤◌, ◌≡◌, length};
ghost use Rattle.basics.specs.Decides.{Decides};
ghost use Rattle.chunks.specs.Bytes.{same_bytes, comes_before, all_zero};
ghost use Rattle.chunks.specs.Piece.{piece_at, put_at};
ghost use Rattle.chunks.specs.Lookup.{place_of, found_of, Distinct};

use buckets::{BUCKETS, PLACES, Searched, by_pairs, file_pieces, search_twice};

mod buckets;

// How many bytes a piece has.
pub const PIECE: usize = 32;

// The r-th piece of s, from 1: a part of s; empty for piece 0, and for one that s does not hold whole.
pub fn piece_at(s: &[u8], r: usize) -> &[u8]
    ensures { result.now ≡ piece_at s.now r }
{
    if r == 0 {
        return &s[0..0];
    }
    if s.len() / PIECE < r {
        return &s[0..0];
    }
    let at = (r - 1) * PIECE;
    let end = at + PIECE;
    &s[at..end]
}

// Whether a and b are the same bytes. It stands for its promise: `same_bytes`, which the laws on pieces are about.
pub fn same(a: &[u8], b: &[u8]) -> bool
    ensures { result ≡ same_bytes a.now b.now }
{
    a == b
}

// Whether a comes before b, as unsigned bytes, first byte first; it stops at the first difference. It stands for its promise:
// `comes_before`, the order of ids in document 01, which the laws on ids are about.
pub fn before(a: &[u8], b: &[u8]) -> bool
    ensures { result ≡ comes_before a.now b.now }
{
    // Not `a < b`: byte by byte through the library's order of numbers it takes a third longer, and every pair of ids is compared so.
    for i in 0..a.len() {
        if b.len() <= i {
            return false;
        }
        let x = a[i];
        let y = b[i];
        if x != y {
            return x < y;
        }
    }
    a.len() < b.len()
}

// Whether every byte of a is zero. It stands for its promise: `all_zero`, by which rows and entries are judged.
pub fn is_zero(a: &[u8]) -> bool
    ensures { result ≡ all_zero a.now }
{
    a.iter().all(|x| *x == 0)
}

// The first of the first n pieces of s that is x.
pub fn find(s: &[u8], n: usize, x: &[u8]) -> Option<usize>
    ensures { result ≡ found_of (place_of s.now n x.now) }
{
    for r in 1..=n {
        if same(piece_at(s, r), x) {
            return Some(r);
        }
    }
    None
}

// Whether the first n pieces of s are distinct. All are filed by bucket, and each bucket is searched for a piece that it
// holds twice; where a bucket holds too many, every pair of pieces is compared.
pub fn distinct(s: &[u8], n: usize) -> bool
    ensures { Decides (Distinct s.now n) result }
{
    if PLACES <= n {
        return by_pairs(s, n);
    }
    let mut heads = [0u16; BUCKETS];
    let mut next = [0u16; PLACES];
    file_pieces(s, n, &mut heads, &mut next);
    for head in &heads {
        match search_twice(s, &next, *head) {
            Searched::Present => return false,
            Searched::TooLong => return by_pairs(s, n),
            Searched::Absent => {}
        }
    }
    true
}

// Put the 32 bytes of x as the r-th piece of s.
pub fn put(s: &mut [u8], r: usize, x: &[u8])
    requires { (1 ≤ r) × ((r * 32 ≤ length s.old) × (32 ≤ length x.now)) }
    ensures { s.new ≡ put_at s.old r x.now }
{
    basics::copy_at(s, (r - 1) * PIECE, &x[..PIECE]);
}
