// Judging: the verdict on one item against a store, by the rules 6 to 16 of document 01, "Answer numbers". Nothing is written here.
#![tactic(auto)]

pub mod deps;
pub mod judge;
pub mod room;

ghost use Rattle.std.specs.Prelude.{◌≡◌, ◌≤◌};

use answers::Refusal;
use store::Row;

// The verdict on an item: the row that it takes, the row that holds it already, or the rule that it breaks.
#[derive(Clone, Copy)]
pub enum Verdict {
    Fits(Row),
    Holds(usize),
    Breaks(Refusal),
}
