// The program of document 01: reads items from standard input into an empty store and prints a line for each, then a line for each
// author.
#![tactic(auto)]

ghost use Rattle.std.specs.Prelude.{◌≡◌, true, ◌*◌, ◌≤◌, ◌<◌, length, drop, IfOk, OnErr};
ghost use Rattle.basics.specs.Bytes.{Bytes};
ghost use Rattle.store.specs.Limits.{author_limit};
ghost use Rattle.store.specs.Clauses.{SameParts};
ghost use Rattle.frontiers.specs.Numbers.{entry_width};
ghost use Rattle.morning.specs.Intake.{kept_by};
ghost use Rattle.cutting.specs.Cutting.{size_of, starts_whole};
ghost use Rattle.intake.specs.Judging.{InOrder, Untold, no_origins, none_counted};
ghost use Rattle.intake.specs.Taking.{TakesFirst, TurnedIn, TurnFailed, TakenAll, TakenSoFar};
ghost use Rattle.intake.specs.Window.{Within, stretch};
ghost use Rattle.intake.specs.Report.{HasEntry};

use frontiers::ENTRY_NUMBERS;
use report::LINE_ROOM;
use std::io;
use std::io::Read;
use store::{Counts, StoreMut};
use window::Span;

mod items;
mod report;
mod window;

// How the intake stands: what of the window is left, how many numbers the frontier has, and whether it goes on. A flag and no Option: what
// is left and how many numbers there are is asked for in both cases.
#[derive(Clone, Copy)]
struct Stand {
    span: Span,
    used: usize,
    going: bool,
}

// One item, cut at its length, is judged where it begins in the middle of the window. One that is not whole is judged as it stands and
// ends the intake. Its one error is that of the printing.
fn take_item(
    rt: &impl Print,
    window: &[u8],
    span: Span,
    number: u64,
    store: &mut StoreMut,
    origins: &mut [u8],
    frontier: &mut [u16],
    used: usize,
) -> io::Result<Stand>
    requires within { Within window.now span.at span.held × (span.at < span.held) }
    requires in_order { InOrder (kept_by store.old origins.old) frontier.old used }
    ensures same { SameParts store.old store.new }
    ensures ok { IfOk result (λ s. Within window.now s.span.at s.span.held × TakesFirst (stretch window.now span.at span.held)
        (kept_by store.old origins.old)
        frontier.old used (stretch window.now s.span.at s.span.held)
        (kept_by store.new origins.new)
        frontier.new s.used s.going) }
    ensures err { OnErr result (Untold (λ n. TakesFirst (stretch window.now span.at span.held)
        (kept_by store.old origins.old)
        frontier.old used (drop (size_of (stretch window.now span.at span.held)) (stretch window.now span.at span.held))
        (kept_by store.new origins.new)
        frontier.new n (starts_whole (stretch window.now span.at span.held)))) }
{
    let at = span.at;
    let held = span.held;
    let cut = cutting::cut_item(&window[at..held]);
    let end = at + cut.size;
    let after = items::judge(rt, &window[at..end], number, store, origins, frontier, used)?;
    Ok(Stand {
        span: Span { at: end, held },
        used: after,
        going: cut.whole,
    })
}

// One turn: the window is refilled, and the item at its place is taken; where nothing is left, the intake ends. Its errors are those of
// reading and printing.
fn turn(
    rt: &impl Print,
    input: &mut impl Read,
    window: &mut [u8],
    number: u64,
    store: &mut StoreMut,
    origins: &mut [u8],
    frontier: &mut [u16],
    stand: Stand,
) -> io::Result<Stand>
    requires within { Within window.old stand.span.at stand.span.held }
    requires in_order { InOrder (kept_by store.old origins.old) frontier.old stand.used }
    ensures same { SameParts store.old store.new }
    ensures ok { IfOk result (λ s. TurnedIn window.old stand.span.at stand.span.held
        (kept_by store.old origins.old)
        frontier.old stand.used window.new s.span.at s.span.held
        (kept_by store.new origins.new)
        frontier.new s.used s.going) }
    ensures err { OnErr result (TurnFailed (stretch window.old stand.span.at stand.span.held)
        (kept_by store.old origins.old)
        frontier.old stand.used
        (kept_by store.new origins.new)
        frontier.new) }
    ensures size { OnErr result (length window.new ≡ length window.old) }
{
    let span = window::refill(input, window, stand.span)?;
    let used = stand.used;
    if span.at == span.held {
        return Ok(Stand {
            span,
            used,
            going: false,
        });
    }
    take_item(rt, window, span, number, store, origins, frontier, used)
}

// The start: nothing is read, and the frontier is empty.
fn start() -> Stand
    ensures { result ≡ (record { span = record { at = 0; held = 0 }; used = 0; going = true }) }
{
    Stand {
        span: Span { at: 0, held: 0 },
        used: 0,
        going: true,
    }
}

// All items, numbered from 1, into an empty store; how many numbers the frontier has then. The loop counts its turns, so that it ends. Its
// errors are those of reading and printing.
fn all_items(
    rt: &impl Print,
    input: &mut impl Read,
    window: &mut [u8],
    store: &mut StoreMut,
    origins: &mut [u8],
    frontier: &mut [u16],
) -> io::Result<usize>
    requires nothing_counted { store.old.counts ≡ none_counted }
    requires ids_are_bytes { Bytes store.old.ids.now }
    requires origins_value { origins.old ≡ no_origins }
    requires entry_width_in_bounds { author_limit * entry_width ≤ length frontier.old }
    ensures same { SameParts store.old store.new }
    ensures ok { IfOk result (λ n. TakenAll
        (kept_by store.old origins.old) frontier.old
        (kept_by store.new origins.new) frontier.new n) }
    ensures err { OnErr result (TakenSoFar
        (kept_by store.old origins.old) frontier.old
        (kept_by store.new origins.new) frontier.new) }
{
    let mut stand = start();
    let mut number = 0u64;
    // Not a `for` over 1..=u64::MAX with a `break`: where its two ways out meet, the clause `ok` was not proved.
    while number < u64::MAX && stand.going {
        number += 1;
        stand = turn(rt, input, window, number, store, origins, frontier, stand)?;
    }
    Ok(stand.used)
}

// Prints the line of one author. Its one error is that of the printing.
fn print_author(rt: &impl Print, frontier: &[u16], entry: usize) -> io::Result<()>
    requires { HasEntry frontier.now entry }
{
    let mut line = [0u8; LINE_ROOM];
    let end = report::author_line(&mut line, frontier, entry);
    lines::print(rt, &mut line, end)
}

// Prints a line for each entry in the first used numbers of the frontier. Its one error is that of the printing.
fn print_authors(rt: &impl Print, frontier: &[u16], used: usize) -> io::Result<()>
    requires { used ≤ length frontier.now }
{
    for entry in 0..used / ENTRY_NUMBERS {
        print_author(rt, frontier, entry)?;
    }
    Ok(())
}

// The whole intake, over memory of the sizes that document 01 names. Its errors are those of reading and printing.
fn intake(
    rt: &impl Print,
    input: &mut impl Read,
    window: &mut [u8; 65536],
    store: &mut StoreMut,
    origins: &mut [u8; 1024],
    frontier: &mut [u16; 320],
) -> io::Result<()>
    requires { ((store.old.counts ≡ none_counted) × Bytes store.old.ids.now) × (origins.old ≡ no_origins) }
{
    rt.write_all(b"item answer row\n")?;
    let used = all_items(rt, input, window, store, origins, frontier)?;
    rt.write_all(b"author phase last low high\n")?;
    print_authors(rt, frontier, used)
}

fn main(rt: HostRuntime) -> io::Result<()> {
    let mut input = rt.stdin();
    let mut window = [0u8; 65536];
    let mut keys = [0u8; 2048];
    let mut ids = [0u8; 32768];
    let mut rows = [0u16; 4096];
    let mut deps = [0u16; 4096];
    let mut branches = [0u16; 1088];
    let mut origins = [0u8; 1024];
    let mut frontier = [0u16; 320];
    let mut store = StoreMut {
        keys: &mut keys,
        ids: &mut ids,
        rows: &mut rows,
        deps: &mut deps,
        branches: &mut branches,
        counts: Counts {
            rows: 0,
            authors: 0,
            deps: 0,
        },
    };
    intake(
        &rt,
        &mut input,
        &mut window,
        &mut store,
        &mut origins,
        &mut frontier,
    )
}
