// Entries written into a lent frontier.
ghost use Rattle.std.specs.Prelude.{◌+◌, ◌≤◌, ◌≡◌, [], ◌∷◌, length};
ghost use Rattle.std.proofs.Math.Seq.{paste};
ghost use Rattle.logs.specs.States.{state_of};
ghost use Rattle.frontiers.specs.Numbers.{entry_width};
ghost use Rattle.frontiers.specs.Entries.{numbers};
ghost use Rattle.frontiers.specs.Found.{PutBehind, slot_numbers};

use crate::ENTRY_NUMBERS;
use logs::{LogState, Phase};

// Five numbers from place at on.
fn put_five(out: &mut [u16], at: usize, author: u16, phase: u16, last: u16, low: u16, high: u16)
    requires { at + entry_width ≤ length out.old }
    ensures { out.new ≡ paste out.old at (author ∷ phase ∷ last ∷ low ∷ high ∷ []) entry_width }
{
    out[at] = author;
    out[at + 1] = phase;
    out[at + 2] = last;
    out[at + 3] = low;
    out[at + 4] = high;
}

// The entry of a log state, from place at on.
pub fn write_entry(out: &mut [u16], at: usize, k: LogState)
    requires { at + entry_width ≤ length out.old }
    ensures { out.new ≡ paste out.old at (numbers k.author (state_of k)) entry_width }
{
    let phase = k.phase;
    match phase {
        Phase::Growing => put_five(out, at, k.author, 0, k.last, 0, 0),
        Phase::Forked(low, high) => put_five(out, at, k.author, 1, k.last, low, high),
    }
}

// The entry that a slot holds, if any, behind the first used numbers; answers how many are used now.
pub fn write_slot(out: &mut [u16], used: usize, slot: Option<LogState>) -> usize
    requires { used + length (slot_numbers slot) ≤ length out.old }
    ensures { PutBehind out.old used (slot_numbers slot) out.new result }
{
    match slot {
        Some(k) => {
            write_entry(out, used, k);
            used + ENTRY_NUMBERS
        }
        None => used,
    }
}
