// Evidence rows, compared by their ids.
ghost use Rattle.std.specs.Prelude.{ℕ, ◌≡◌, ltb};
ghost use Rattle.chains.specs.Chain.{sorted_at, with_child};
ghost use Rattle.logs.specs.Held.{key_of, ids_alone, IdHeld};
ghost use Rattle.logs.specs.States.{standing};

use super::Phase;
use basics::wide;

// Whether the id of row c is below that of row d.
pub fn lower(ids: &[u8], c: u16, d: u16) -> bool
    requires { IdHeld ids.now c × IdHeld ids.now d }
    ensures { result ≡ ltb (key_of ids.now c) (key_of ids.now d) }
{
    chunks::before(store::id_at(ids, wide(c)), store::id_at(ids, wide(d)))
}

// Forked with rows c and d as evidence, the lower id first.
pub fn sorted(ids: &[u8], c: u16, d: u16) -> Phase
    requires { IdHeld ids.now c × IdHeld ids.now d }
    ensures { (l : ℕ) → standing l result ≡ sorted_at (ids_alone ids.now) l c d }
{
    if lower(ids, c, d) {
        Phase::Forked(c, d)
    } else {
        Phase::Forked(d, c)
    }
}

// Forked with the two lowest ids of the evidence rows low and high and one more child c.
pub fn with_child(ids: &[u8], low: u16, high: u16, c: u16) -> Phase
    requires { IdHeld ids.now low × (IdHeld ids.now high × IdHeld ids.now c) }
    ensures { (l : ℕ) → standing l result ≡ with_child (ids_alone ids.now) l low high c }
{
    if lower(ids, c, low) {
        return Phase::Forked(c, low);
    }
    if lower(ids, low, c) {
        if lower(ids, c, high) {
            return Phase::Forked(low, c);
        }
    }
    Phase::Forked(low, high)
}
