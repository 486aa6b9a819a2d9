// Log states as five numbers.
ghost use Rattle.std.specs.Prelude.{◌≡◌};
ghost use Rattle.plain.specs.Plain.{log_of, five_of};

use logs::{LogState, Phase};

// A log state: author, phase (0 growing, 1 forked), last row or none, and the two evidence rows, 0 when growing. An entry of a
// frontier has the same five numbers in the same order.
#[repr(C)]
#[derive(Clone, Copy)]
pub struct State {
    pub author: u16,
    pub phase: u16,
    pub last: u16,
    pub low: u16,
    pub high: u16,
}

// The log state of five numbers. Numbers that are no state are read as a state of author 0, whom no store has.
impl From<State> for LogState {
    ghost from_gives = { λ s r. r ≡ log_of s };

    fn from(s: State) -> LogState {
        match (s.phase, s.low, s.high) {
            (1, low, high) => LogState {
                author: s.author,
                last: s.last,
                phase: Phase::Forked(low, high),
            },
            (0, 0, 0) => LogState {
                author: s.author,
                last: s.last,
                phase: Phase::Growing,
            },
            _ => LogState {
                author: 0,
                last: 0,
                phase: Phase::Growing,
            },
        }
    }
}

// The five numbers of a log state.
impl From<LogState> for State {
    ghost from_gives = { λ k r. r ≡ five_of k };

    fn from(k: LogState) -> State {
        match k.phase {
            Phase::Growing => State {
                author: k.author,
                phase: 0,
                last: k.last,
                low: 0,
                high: 0,
            },
            Phase::Forked(low, high) => State {
                author: k.author,
                phase: 1,
                last: k.last,
                low,
                high,
            },
        }
    }
}
