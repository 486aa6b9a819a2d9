// The refusals of document 01, "Answer numbers", and of document 02: one variant for each, and its number.
#![tactic(auto)]

ghost use Rattle.std.specs.Prelude.{◌≡◌};
ghost use Rattle.answers.specs.Number.{number_of};

// Why a call gives nothing. HELD, which comes with a row, belongs to admission's own answer. 13 is unused: a previous row never
// follows the message that names it.
#[derive(Clone, Copy)]
pub enum Refusal {
    // 1: the store is not well formed.
    Store,
    // 2: bytes missing, or length under 2.
    Short,
    // 3: length, payload or dependencies above limit.
    Size,
    // 4: bytes left over.
    Long,
    // 5: kind is not 1.
    Kind,
    // 6: mark is neither 0 nor 1.
    Flag,
    // 7: mark is 0 (M5).
    Sign,
    // 9: index 0, or index 1 with a previous field not zero.
    Index,
    // 10: index above 1, previous id not in the store.
    Prev,
    // 11: previous row has another author.
    Owner,
    // 12: index is not the previous one plus 1.
    Step,
    // 14: a dependency id not in the store.
    Dep,
    // 15: dependency of the message's own author, or two of one author.
    DepOwner,
    // 16: no free row, no place for a new author, or too few dependency places.
    Full,
    // 17: log state not valid.
    State,
    // 18: two states of different authors.
    Pair,
    // 19: message row 0, above the row count, or another author's.
    Row,
    // 20: frontier not valid.
    Frontier,
    // 21: output shorter than the result.
    Room,
    // 22: a key or an id that the store lacks.
    Unknown,
    // 23: the store, or the message, breaks the rule of steady authors (M7).
    Backstep,
    // 24: the log is whole: the state is growing, and has no branches to list.
    Whole,
    // 25: a release's payload of another length, or with an expanded byte that is neither 0 nor 1.
    Payload,
    // 26: a component's owner is above the author count.
    Ownerless,
    // 27: a component number outside 1 to 512.
    Component,
}

// The number of a refusal, as document 01's table and document 02 give it.
pub fn number(r: Refusal) -> u16
    ensures { result ≡ number_of r }
{
    match r {
        Refusal::Store => 1,
        Refusal::Short => 2,
        Refusal::Size => 3,
        Refusal::Long => 4,
        Refusal::Kind => 5,
        Refusal::Flag => 6,
        Refusal::Sign => 7,
        Refusal::Index => 9,
        Refusal::Prev => 10,
        Refusal::Owner => 11,
        Refusal::Step => 12,
        Refusal::Dep => 14,
        Refusal::DepOwner => 15,
        Refusal::Full => 16,
        Refusal::State => 17,
        Refusal::Pair => 18,
        Refusal::Row => 19,
        Refusal::Frontier => 20,
        Refusal::Room => 21,
        Refusal::Unknown => 22,
        Refusal::Backstep => 23,
        Refusal::Whole => 24,
        Refusal::Payload => 25,
        Refusal::Ownerless => 26,
        Refusal::Component => 27,
    }
}
