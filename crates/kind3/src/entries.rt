// The entries of an item of kind 3: their parts, and what is asked of their bytes.
ghost use Rattle.std.specs.Prelude.{◌≡◌, ◌+◌, ◌≤◌, ◌<◌, length};
ghost use Rattle.basics.specs.Decides.{Decides};
ghost use Rattle.kind3.specs.Offsets.{entry_size};
ghost use Rattle.kind3.specs.Entries.{HasEntry, HasEntries, byte_in, chunk_in, FlagsAt, FlagsKept, EvidenceZero, ZerosAt, ZerosKept, RisesAt, RisesIn};

use crate::{AT_ENTRIES, ENTRY_SIZE, TO_HIGH, TO_LAST, TO_LOW, TO_PHASE, TO_PRESENCE};
use chunks::{before, is_zero};

// The byte of entry i at a place in it.
pub fn byte_in(item: &[u8], i: usize, to: usize) -> u8
    requires { HasEntry item.now i × (to < entry_size) }
    ensures { result ≡ byte_in item.now i to }
{
    item[AT_ENTRIES + ENTRY_SIZE * i + to]
}

// The 32 bytes of entry i from a place in it on, as a part of the item: the key or an id.
pub fn chunk_in(item: &[u8], i: usize, to: usize) -> &[u8]
    requires { HasEntry item.now i × (to + 32 ≤ entry_size) }
    ensures { result.now ≡ chunk_in item.now i to }
{
    let at = AT_ENTRIES + ENTRY_SIZE * i + to;
    let end = at + 32;
    &item[at..end]
}

// Whether the phase and the presence byte of entry i are 0 or 1.
fn entry_flags(item: &[u8], i: usize) -> bool
    requires { HasEntry item.now i }
    ensures { Decides (FlagsAt item.now i) result }
{
    byte_in(item, i, TO_PHASE) <= 1 && byte_in(item, i, TO_PRESENCE) <= 1
}

// Whether they are so in each of the first n entries.
pub fn flags_kept(item: &[u8], n: usize) -> bool
    requires { HasEntries item.now n }
    ensures { Decides (FlagsKept item.now n) result }
{
    (0..n).all(|i| entry_flags(item, i))
}

// Whether the evidence ids of entry i are zero where its phase is growing.
fn evidence_zero(item: &[u8], i: usize) -> bool
    requires { HasEntry item.now i }
    ensures { Decides (EvidenceZero item.now i) result }
{
    byte_in(item, i, TO_PHASE) != 0
        || (is_zero(chunk_in(item, i, TO_LOW)) && is_zero(chunk_in(item, i, TO_HIGH)))
}

// Whether the ids of entry i that do not apply are zero.
fn entry_zeros(item: &[u8], i: usize) -> bool
    requires { HasEntry item.now i }
    ensures { Decides (ZerosAt item.now i) result }
{
    evidence_zero(item, i)
        && (byte_in(item, i, TO_PRESENCE) != 0 || is_zero(chunk_in(item, i, TO_LAST)))
}

// Whether the ids that do not apply are zero in each of the first n entries.
pub fn zeros_kept(item: &[u8], n: usize) -> bool
    requires { HasEntries item.now n }
    ensures { Decides (ZerosKept item.now n) result }
{
    (0..n).all(|i| entry_zeros(item, i))
}

// Whether the key of entry i is above that of the entry before it, if there is one.
fn key_rises(item: &[u8], i: usize) -> bool
    requires { HasEntry item.now i }
    ensures { Decides (RisesAt item.now i) result }
{
    i == 0 || before(chunk_in(item, i - 1, 0), chunk_in(item, i, 0))
}

// Whether the keys of the first n entries rise.
pub fn keys_rise(item: &[u8], n: usize) -> bool
    requires { HasEntries item.now n }
    ensures { Decides (RisesIn item.now n) result }
{
    (0..n).all(|i| key_rises(item, i))
}
