// Pieces filed by bucket: a chain of pieces for each, the newest first.
ghost use Rattle.std.specs.Prelude.{◌≤◌, ◌<◌, ◌≡◌};
ghost use Rattle.basics.specs.Decides.{Decides};
ghost use Rattle.chunks.specs.Lookup.{Distinct};
ghost use Rattle.chunks.specs.Buckets.{bucket_of, Falls, Filed, Searches, SearchesTwice};

use crate::{PIECE, find, piece_at, same};
use basics::wide;

// The number of buckets.
pub const BUCKETS: usize = 256;

// A place for none and for each piece that is filed.
pub const PLACES: usize = 1025;

// How many pieces of a chain are compared at most.
const LONGEST: usize = 256;

// What a search of a chain finds: nothing, something, or that the chain has too many pieces.
#[derive(Clone, Copy)]
pub enum Searched {
    Absent,
    Present,
    TooLong,
}

// The bucket of a piece: its two first and its two last bytes, mixed.
fn bucket_of(p: &[u8]) -> usize
    ensures { (result ≡ bucket_of p.now) × (result < 256) }
{
    if p.len() < PIECE {
        return 0;
    }
    usize::from(p[0] ^ p[1] ^ p[30] ^ p[31])
}

// File the first n pieces of s in tables that file none.
pub fn file_pieces(s: &[u8], n: usize, heads: &mut [u16; BUCKETS], next: &mut [u16; PLACES])
    requires { (Filed s.now heads.old next.old 0) × (n ≤ 1024) }
    ensures { Filed s.now heads.new next.new n }
{
    for i in 0..n {
        let bucket = bucket_of(piece_at(s, i + 1));
        next[i + 1] = heads[bucket];
        heads[bucket] = (i + 1) as u16;
    }
}

// Search the chain from head for x.
fn search_chain(s: &[u8], next: &[u16; PLACES], head: u16, x: &[u8]) -> Searched
    requires { (Falls next.now) × (head ≤ 1024) }
    ensures { Searches s.now next.now head x.now result }
{
    let mut h = wide(head);
    let mut passed: usize = 0;
    while h != 0 {
        if passed == LONGEST {
            return Searched::TooLong;
        }
        if same(piece_at(s, h), x) {
            return Searched::Present;
        }
        h = wide(next[h]);
        passed += 1;
    }
    Searched::Absent
}

// Search the chain from head for a piece that is on it twice.
pub fn search_twice(s: &[u8], next: &[u16; PLACES], head: u16) -> Searched
    requires { (Falls next.now) × (head ≤ 1024) }
    ensures { SearchesTwice s.now next.now head result }
{
    let mut h = wide(head);
    while h != 0 {
        let rest = next[h];
        match search_chain(s, next, rest, piece_at(s, h)) {
            Searched::Present => return Searched::Present,
            Searched::TooLong => return Searched::TooLong,
            Searched::Absent => {}
        }
        h = wide(rest);
    }
    Searched::Absent
}

// Whether the first n pieces of s are distinct: every pair is compared.
pub fn by_pairs(s: &[u8], n: usize) -> bool
    ensures { Decides (Distinct s.now n) result }
{
    for i in 0..n {
        if find(s, i, piece_at(s, i + 1)).is_some() {
            return false;
        }
    }
    true
}
