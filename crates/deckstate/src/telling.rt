// The lines that deckstate prints, put into a buffer.
ghost use Rattle.std.specs.Prelude.{◌+◌, ◌≤◌, length, take};
ghost use Rattle.text.specs.Added.{Added};
ghost use Rattle.text.specs.Lines.{named_room};
ghost use Rattle.deck.specs.Outcome.{Opens, Headed, Placed};
ghost use Rattle.printing.specs.Lines.{print_text};
ghost use Rattle.printing.specs.Front.{WholePrinted};
ghost use Rattle.deckstate.specs.Lines.{place_text, verdict_text, system_line, states_text};
ghost use Rattle.deckstate.specs.Lines.{most_text, wanted_text, wrong_text};
ghost use Rattle.deckstate.specs.Lines.{verdict_room, line_room, lines_room, output_room, wanted_room, wrong_room};

use crate::hearing;
use deck::Head;
use printing::INPUT;
use rules::Verdict;
use rules::refusal::Refusal;
use text::lines;

// Room for all lines, and for the line of a wrong word.
pub const OUTPUT: usize = 2048;

pub const LINE: usize = 256;

// ` fails`, and where if there is a place; the line's end.
fn put_place(place: u64, out: &mut [u8], at: usize) -> usize
    requires { at + verdict_room ≤ length out.old }
    ensures { Added (place_text place) out.old at out.new result }
{
    if place == 0 {
        return text::put(out, at, b" fails\n");
    }
    let end = text::put_named(b" fails from ", place, out, at);
    text::put(out, end, b"\n")
}

// What a line says of a system.
fn put_verdict(verdict: Verdict, out: &mut [u8], at: usize) -> usize
    requires { at + verdict_room ≤ length out.old }
    ensures { Added (verdict_text verdict) out.old at out.new result }
{
    match verdict {
        Verdict::Works => text::put(out, at, b" works\n"),
        Verdict::Fails(place) => put_place(place, out, at),
        Verdict::Refused(number) => lines::put_refused(number, out, at),
    }
}

// The line of a file's system, counted from 0.
fn put_system(file: &[u8], head: Head, s: usize, state: u64, out: &mut [u8], at: usize) -> usize
    requires placed { Placed file.now head s }
    requires room { at + line_room ≤ length out.old }
    ensures { Added (system_line state file.now s) out.old at out.new result }
{
    let verdict = states::state_system(file, head, s, state);
    let end = text::put_named(b"system ", s as u64 + 1, out, at);
    put_verdict(verdict, out, end)
}

// The lines of its systems.
fn put_systems(file: &[u8], head: Head, state: u64, out: &mut [u8]) -> usize
    requires headed { Headed file.now head }
    requires room { lines_room ≤ length out.old }
    ensures { Added (states_text state file.now) out.old 0 out.new result }
{
    let mut end: usize = 0;
    for s in 0..head.systems {
        end = put_system(file, head, s, state, out, end);
    }
    end
}

// All that is printed for a file that was opened, and a state.
fn put_file(file: &[u8], opened: Result<Head, Refusal>, state: u64, out: &mut [u8]) -> usize
    requires opens { Opens file.now opened }
    requires room { output_room ≤ length out.old }
    ensures { let text = print_text (states_text state) file.now in
        Added text out.old 0 out.new result }
{
    match opened {
        Ok(head) => put_systems(file, head, state, out),
        Err(refused) => printing::put_refused_file(refused.number(), out),
    }
}

// All that is printed for an input and a state, where the buffer holds the input's front, which was opened: all of it,
// or as much as the buffer takes.
pub fn state_front(
    state: u64,
    input: &[u8; INPUT],
    filled: usize,
    opened: Result<Head, Refusal>,
    out: &mut [u8],
) -> usize
    requires within { filled ≤ length input.now }
    requires opens { Opens (take filled input.now) opened }
    requires room { output_room ≤ length out.old }
    ensures { WholePrinted (states_text state) input.now filled out.new result }
{
    put_file(printing::front_of(input, filled), opened, state, out)
}

// A number between two texts.
fn put_most(before: &[u8], most: u64, behind: &[u8], out: &mut [u8], at: usize) -> usize
    requires { at + (named_room before.now + length behind.now) ≤ length out.old }
    ensures { let text = most_text before.now most behind.now in
        Added text out.old at out.new result }
{
    let end = text::put_named(before, most, out, at);
    text::put(out, end, behind)
}

// What was wanted in the place of a wrong word.
fn put_wanted(wanted: u64, most: u64, out: &mut [u8], at: usize) -> usize
    requires { at + wanted_room ≤ length out.old }
    ensures { Added (wanted_text wanted most) out.old at out.new result }
{
    match wanted {
        hearing::BOARD => put_most(b"wanted a board from 1 to ", most, b"\n", out, at),
        hearing::NO_BOARD => text::put(out, at, b"this deck has no boards\n"),
        hearing::NUMBER => {
            put_most(
                b"wanted the number of a board from 1 to ",
                most,
                b" behind it\n",
                out,
                at,
            )
        }
        _ => put_most(
            b"wanted a fan from 1 to ",
            most,
            b", a range as 3-7 or a list as 3,4,9\n",
            out,
            at,
        ),
    }
}

// The line of a wrong word.
pub fn put_wrong(wrong: u64, word: &[u8], wanted: u64, most: u64, out: &mut [u8]) -> usize
    requires { wrong_room ≤ length out.old }
    ensures { let text = wrong_text wrong word.now wanted most in
        Added text out.old 0 out.new result }
{
    let mut front = [0u8; saying::SHOWN];
    let length = saying::put_shown(word, &mut front);
    let start = text::put_named(b"deckstate: word ", wrong, out, 0);
    let quoted = saying::put_three(b", \"", &front[..length], b"\": ", out, start);
    put_wanted(wanted, most, out, quoted)
}
