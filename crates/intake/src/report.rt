// The lines that intake prints, without their ends.
ghost use Rattle.std.specs.Prelude.{◌≤◌, length};
ghost use Rattle.lines.specs.Line.{Put, Spells};
ghost use Rattle.intake.specs.Report.{line_room, spaced, phase_word, HasEntry, ItemLine, AuthorLine};

use frontiers::ENTRY_NUMBERS;

// How many bytes a line is lent: more than any line has.
pub const LINE_ROOM: usize = 64;

// The line of one item: its number, the answer, the row. How many bytes it has.
pub fn item_line(line: &mut [u8], number: u64, answer: u16, row: u16) -> usize
    requires { line_room ≤ length line.old }
    ensures { Spells (ItemLine number answer row) line.old line.new result }
{
    let a = lines::put_decimal(line, 0, number);
    let b = lines::put_number(line, a, answer);
    lines::put_number(line, b, row)
}

// The word for a phase, behind a space.
fn put_phase(line: &mut [u8], used: usize, phase: u16) -> usize
    ensures { Put line.old used (spaced (phase_word phase)) line.new result }
{
    if phase == 0 {
        return lines::put(line, used, b" growing");
    }
    lines::put(line, used, b" forked")
}

// The line of one author: the five numbers of an entry of the frontier, the phase as a word. How many bytes it has.
pub fn author_line(line: &mut [u8], frontier: &[u16], entry: usize) -> usize
    requires line_room_in_bounds { line_room ≤ length line.old }
    requires has_entry { HasEntry frontier.now entry }
    ensures { Spells (AuthorLine frontier.now entry) line.old line.new result }
{
    let at = entry * ENTRY_NUMBERS;
    let a = lines::put_decimal(line, 0, frontier[at] as u64);
    let b = put_phase(line, a, frontier[at + 1]);
    let c = lines::put_number(line, b, frontier[at + 2]);
    let d = lines::put_number(line, c, frontier[at + 3]);
    lines::put_number(line, d, frontier[at + 4])
}
