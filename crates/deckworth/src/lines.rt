// The lines that deckworth prints, put into two buffers: one would be larger than the checker takes.
ghost use Rattle.std.specs.Prelude.{◌+◌, ◌≤◌, ◌<◌, length};
ghost use Rattle.text.specs.Added.{Added};
ghost use Rattle.deck.specs.Outcome.{Headed, Placed};
ghost use Rattle.printing.specs.Lines.{worded_text, worded_print, worded_room};
ghost use Rattle.deckworth.specs.Lines.{worth_text, why_in, fan_line, fans_text, some_text, list_text};
ghost use Rattle.deckworth.specs.Lines.{line_room, fans_room, half, half_room, InTwo, WholeInTwo};

use deck::Head;
use printing::INPUT;
use rules::Worth;
use text::lines;

// Room for half of all lines: 324 bytes for each of 64 fans of 16 systems.
pub const OUTPUT: usize = 331776;

const HALF: usize = 16;

// Where the lines end in each buffer.
#[derive(Clone, Copy)]
pub struct Ends {
    pub first: usize,
    pub second: usize,
}

// ` refused R`, and why where words are asked for.
fn put_refusal(
    words: bool,
    file: &[u8],
    head: Head,
    s: usize,
    i: usize,
    number: u64,
    out: &mut [u8],
    at: usize,
) -> usize
    requires placed { Placed file.now head s }
    requires fan { i < head.fans }
    requires room { at + worded_room ≤ length out.old }
    ensures { let why = why_in file.now s i number in
        Added (worded_text words why number) out.old at out.new result }
{
    let why = advice::system::fan_why(file, head, s, i as u64 + 1, number);
    printing::put_worded(words, why, number, out, at)
}

// ` lower L upper U` or that, and the line's end.
fn put_worth(
    words: bool,
    file: &[u8],
    head: Head,
    s: usize,
    i: usize,
    worth: Worth,
    out: &mut [u8],
    at: usize,
) -> usize
    requires placed { Placed file.now head s }
    requires fan { i < head.fans }
    requires room { at + worded_room ≤ length out.old }
    ensures { let text = worth_text words (why_in file.now s i) worth in
        Added text out.old at out.new result }
{
    match worth {
        Worth::Ends { lower, upper } => {
            let end = lines::put_signed_pair(b" lower ", lower, b" upper ", upper, out, at);
            text::put(out, end, b"\n")
        }
        Worth::Refused(number) => put_refusal(words, file, head, s, i, number, out, at),
    }
}

// The line of a fan and a system of a file, each counted from 0.
fn put_fan(
    words: bool,
    file: &[u8],
    head: Head,
    s: usize,
    i: usize,
    out: &mut [u8],
    at: usize,
) -> usize
    requires placed { Placed file.now head s }
    requires fan { i < head.fans }
    requires room { at + line_room ≤ length out.old }
    ensures { Added (fan_line words file.now s i) out.old at out.new result }
{
    let fan = i as u64 + 1;
    let worth = fan_worths::weigh(file, head, s, fan);
    let end = lines::put_pair(b"system ", s as u64 + 1, b" fan ", fan, out, at);
    put_worth(words, file, head, s, i, worth, out, end)
}

// The lines of the fans of a file's system, counted from 0.
fn put_fans(words: bool, file: &[u8], head: Head, s: usize, out: &mut [u8], at: usize) -> usize
    requires placed { Placed file.now head s }
    requires room { at + fans_room ≤ length out.old }
    ensures { Added (fans_text words file.now s) out.old at out.new result }
{
    let mut end = at;
    for i in 0..head.fans {
        end = put_fan(words, file, head, s, i, out, end);
    }
    end
}

// The lines of so many of its systems, from one on.
fn put_some(
    words: bool,
    file: &[u8],
    head: Head,
    from: usize,
    count: usize,
    out: &mut [u8],
) -> usize
    requires headed { Headed file.now head }
    requires few { (from + count ≤ head.systems) × (count ≤ half) }
    requires room { half_room ≤ length out.old }
    ensures { Added (some_text words file.now from count) out.old 0 out.new result }
{
    let mut end = 0;
    for k in 0..count {
        end = put_fans(words, file, head, from + k, out, end);
    }
    end
}

// The lines of all its systems.
fn put_systems(words: bool, file: &[u8], head: Head, out: &mut [u8], more: &mut [u8]) -> Ends
    requires headed { Headed file.now head }
    requires room { (half_room ≤ length out.old) × (half_room ≤ length more.old) }
    ensures { let text = list_text words file.now in
        InTwo text out.new result.first more.new result.second }
{
    if head.systems <= HALF {
        let all = put_some(words, file, head, 0, head.systems, out);
        return Ends {
            first: all,
            second: 0,
        };
    }
    let first = put_some(words, file, head, 0, HALF, out);
    let second = put_some(words, file, head, HALF, head.systems - HALF, more);
    Ends { first, second }
}

// All that is printed for a file.
fn put_file(words: bool, file: &[u8], out: &mut [u8], more: &mut [u8]) -> Ends
    requires { (half_room ≤ length out.old) × (half_room ≤ length more.old) }
    ensures { let text = worded_print words (list_text words) file.now in
        InTwo text out.new result.first more.new result.second }
{
    match deck::open(file) {
        Ok(head) => put_systems(words, file, head, out, more),
        Err(refused) => {
            let first = printing::put_worded_file(words, file, refused.number(), out);
            Ends { first, second: 0 }
        }
    }
}

// All that is printed for an input, of which the buffer holds the front: all of it, or as much as the buffer takes.
pub fn list_front(
    words: bool,
    input: &[u8; INPUT],
    filled: usize,
    out: &mut [u8],
    more: &mut [u8],
) -> Ends
    requires within { filled ≤ length input.now }
    requires room { (half_room ≤ length out.old) × (half_room ≤ length more.old) }
    ensures { let out = out.exit.now in
        WholeInTwo words input.now filled out result.first more.new result.second }
{
    put_file(words, printing::front_of(input, filled), out, more)
}
