// The answers of the calls as structs of numbers, for programs that are not in Rattle; a log state among them is five numbers.
// A refused call is its number, with zeros.
#![tactic(auto)]

ghost use Rattle.std.specs.Prelude.{◌≡◌};
ghost use Rattle.plain.specs.Plain.{prefix_answer, state_answer, choice_answer, written_answer, admit_answer, origin_answer};
ghost use Rattle.plain.specs.Plain.{item_answer, stretch_answer, no_state};

use admission::{Admitted, answer_number, answer_row};
use answers::{Refusal, number};
use item::Fields;
use logs::{LogState, Nearest};
use states::State;
use store::Counts;

pub mod backsteps;
pub mod states;
pub mod taking;

// A row or none, and its child toward each of two sides, or none; zeros where the call is refused.
#[repr(C)]
#[derive(Clone, Copy)]
pub struct PrefixAnswer {
    pub number: u16,
    pub row: u16,
    pub first: u16,
    pub second: u16,
}

// A log state; five zeros where the call is refused.
#[repr(C)]
#[derive(Clone, Copy)]
pub struct StateAnswer {
    pub number: u16,
    pub state: State,
}

// Yes, 1, or no, 0; 0 where the call is refused.
#[repr(C)]
#[derive(Clone, Copy)]
pub struct YesAnswer {
    pub number: u16,
    pub yes: u16,
}

// How many numbers were written; 0 where the call is refused.
#[repr(C)]
#[derive(Clone, Copy)]
pub struct CountAnswer {
    pub number: u16,
    pub count: usize,
}

// The answer of an admission: its number, the row, and the counts of the store after it.
#[repr(C)]
#[derive(Clone, Copy)]
pub struct AdmitAnswer {
    pub number: u16,
    pub row: u16,
    pub counts: Counts,
}

// The origin of a row; 0 where the call is refused.
#[repr(C)]
#[derive(Clone, Copy)]
pub struct OriginAnswer {
    pub number: u16,
    pub origin: u8,
}

// The fields of an item, as numbers and places in it; zeros where it is refused.
#[repr(C)]
#[derive(Clone, Copy)]
pub struct ItemAnswer {
    pub number: u16,
    pub mark: u8,
    pub index: usize,
    pub payload: usize,
    pub size: usize,
    pub dependencies: usize,
    pub count: usize,
}

// A stretch of the caller's own record; an empty one where it is refused.
#[repr(C)]
#[derive(Clone, Copy)]
pub struct StretchAnswer {
    pub number: u16,
    pub start: usize,
    pub length: usize,
}

// Five zeros.
fn no_state() -> State
    ensures { result ≡ no_state }
{
    State {
        author: 0,
        phase: 0,
        last: 0,
        low: 0,
        high: 0,
    }
}

// The numbers of a prefix.
impl From<Result<Nearest, Refusal>> for PrefixAnswer {
    ghost from_gives = { λ p r. r ≡ prefix_answer p };

    fn from(p: Result<Nearest, Refusal>) -> PrefixAnswer {
        match p {
            Ok(w) => PrefixAnswer {
                number: 0,
                row: w.row,
                first: w.first,
                second: w.second,
            },
            Err(why) => PrefixAnswer {
                number: number(why),
                row: 0,
                first: 0,
                second: 0,
            },
        }
    }
}

// The numbers of a merge or an append.
impl From<Result<LogState, Refusal>> for StateAnswer {
    ghost from_gives = { λ m r. r ≡ state_answer m };

    fn from(m: Result<LogState, Refusal>) -> StateAnswer {
        match m {
            Ok(k) => StateAnswer {
                number: 0,
                state: State::from(k),
            },
            Err(why) => StateAnswer {
                number: number(why),
                state: no_state(),
            },
        }
    }
}

// The numbers of a yes or no.
impl From<Result<bool, Refusal>> for YesAnswer {
    ghost from_gives = { λ c r. r ≡ choice_answer c };

    fn from(c: Result<bool, Refusal>) -> YesAnswer {
        match c {
            Ok(holds) => YesAnswer {
                number: 0,
                yes: u16::from(holds),
            },
            Err(why) => YesAnswer {
                number: number(why),
                yes: 0,
            },
        }
    }
}

// The numbers of a call that writes numbers.
impl From<Result<usize, Refusal>> for CountAnswer {
    ghost from_gives = { λ w r. r ≡ written_answer w };

    fn from(w: Result<usize, Refusal>) -> CountAnswer {
        match w {
            Ok(count) => CountAnswer { number: 0, count },
            Err(why) => CountAnswer {
                number: number(why),
                count: 0,
            },
        }
    }
}

// The numbers of an admission that leaves the store with these counts.
impl From<(Admitted, Counts)> for AdmitAnswer {
    ghost from_gives = { λ a r. r ≡ admit_answer a.0 a.1 };

    fn from((answer, counts): (Admitted, Counts)) -> AdmitAnswer {
        AdmitAnswer {
            number: answer_number(answer),
            row: answer_row(answer),
            counts,
        }
    }
}

// The numbers of a report of a row's origin.
impl From<Result<u8, Refusal>> for OriginAnswer {
    ghost from_gives = { λ o r. r ≡ origin_answer o };

    fn from(o: Result<u8, Refusal>) -> OriginAnswer {
        match o {
            Ok(origin) => OriginAnswer { number: 0, origin },
            Err(why) => OriginAnswer {
                number: number(why),
                origin: 0,
            },
        }
    }
}

// The numbers of an item that was read.
impl From<Result<Fields, Refusal>> for ItemAnswer {
    ghost from_gives = { λ l r. r ≡ item_answer l };

    fn from(l: Result<Fields, Refusal>) -> ItemAnswer {
        match l {
            Ok(f) => ItemAnswer {
                number: 0,
                mark: f.mark,
                index: f.index,
                payload: f.payload,
                size: f.size,
                dependencies: f.dependencies,
                count: f.count,
            },
            Err(why) => ItemAnswer {
                number: number(why),
                mark: 0,
                index: 0,
                payload: 0,
                size: 0,
                dependencies: 0,
                count: 0,
            },
        }
    }
}

// Where the payload lies in an item that was read.
impl From<Result<Fields, Refusal>> for StretchAnswer {
    ghost from_gives = { λ l r. r ≡ stretch_answer l };

    fn from(l: Result<Fields, Refusal>) -> StretchAnswer {
        match l {
            Ok(f) => StretchAnswer {
                number: 0,
                start: f.payload,
                length: f.size,
            },
            Err(why) => StretchAnswer {
                number: number(why),
                start: 0,
                length: 0,
            },
        }
    }
}
