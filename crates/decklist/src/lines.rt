// The lines that decklist prints, put into a buffer.
ghost use Rattle.std.specs.Prelude.{◌+◌, ◌≤◌, length};
ghost use Rattle.rules.specs.State.{S, unit_of};
ghost use Rattle.rules.specs.File.{version_in};
ghost use Rattle.units.specs.Step.{whole};
ghost use Rattle.text.specs.Added.{Added};
ghost use Rattle.rules.specs.Within.{WithinUnit};
ghost use Rattle.deck.specs.Outcome.{Headed, Placed};
ghost use Rattle.printing.specs.Lines.{worded_text, worded_room, worded_print};
ghost use Rattle.printing.specs.Front.{WholeWorded};
ghost use Rattle.decklist.specs.Lines.{end_text, answer_text, rating_text, why_in, system_line};
ghost use Rattle.decklist.specs.Lines.{systems_text, head_text, list_text};
ghost use Rattle.decklist.specs.Lines.{end_room, answer_room, rating_room, line_room, lines_room};
ghost use Rattle.decklist.specs.Lines.{head_room, output_room};

use deck::Head;
use printing::INPUT;
use rules::Rating;
use text::lines;

// Room for all lines.
pub const OUTPUT: usize = 16384;

// What follows low and high: the same in percent where that is asked for, and the line's end.
fn put_end(percent: bool, decimal: bool, low: u64, high: u64, out: &mut [u8], at: usize) -> usize
    requires within { (low ≤ S) × (high ≤ S) }
    requires room { at + end_room ≤ length out.old }
    ensures { Added (end_text percent (whole decimal) low high) out.old at out.new result }
{
    if !percent {
        return text::put(out, at, b"\n");
    }
    let end = percent::put_range(decimal, low, high, out, at);
    text::put(out, end, b"\n")
}

// ` low L high H`, and what follows.
fn put_answer(percent: bool, decimal: bool, low: u64, high: u64, out: &mut [u8], at: usize) -> usize
    requires within { (low ≤ S) × (high ≤ S) }
    requires room { at + answer_room ≤ length out.old }
    ensures { Added (answer_text percent (whole decimal) low high) out.old at out.new result }
{
    let end = lines::put_pair(b" low ", low, b" high ", high, out, at);
    put_end(percent, decimal, low, high, out, end)
}

// ` refused R`, and why where words are asked for.
fn put_refusal(
    words: bool,
    file: &[u8],
    head: Head,
    s: usize,
    number: u64,
    out: &mut [u8],
    at: usize,
) -> usize
    requires placed { Placed file.now head s }
    requires room { at + worded_room ≤ length out.old }
    ensures { let why = why_in file.now s number in
        Added (worded_text words why number) out.old at out.new result }
{
    let why = advice::system::system_why(file, head, s, number);
    printing::put_worded(words, why, number, out, at)
}

// Either.
fn put_rating(
    percent: bool,
    words: bool,
    file: &[u8],
    head: Head,
    s: usize,
    rating: Rating,
    out: &mut [u8],
    at: usize,
) -> usize
    requires placed { Placed file.now head s }
    requires within { WithinUnit rating }
    requires room { at + rating_room ≤ length out.old }
    ensures { let bytes = file.now in
        let text = rating_text percent words (unit_of (version_in bytes)) (why_in bytes s) rating in
        Added text out.old at out.new result }
{
    match rating {
        Rating::Range { low, high } => {
            let decimal = units::is_decimal(head.version);
            put_answer(percent, decimal, low, high, out, at)
        }
        Rating::Refused(number) => put_refusal(words, file, head, s, number, out, at),
    }
}

// The line of a file's system, counted from 0.
fn put_system(
    percent: bool,
    words: bool,
    file: &[u8],
    head: Head,
    s: usize,
    out: &mut [u8],
    at: usize,
) -> usize
    requires placed { Placed file.now head s }
    requires room { at + line_room ≤ length out.old }
    ensures { let line = system_line percent words file.now s in
        Added line out.old at out.new result }
{
    let rating = systems::rate(file, head, s);
    let end = text::put_named(b"system ", s as u64 + 1, out, at);
    put_rating(percent, words, file, head, s, rating, out, end)
}

// The lines of its systems.
fn put_systems(
    percent: bool,
    words: bool,
    file: &[u8],
    head: Head,
    out: &mut [u8],
    at: usize,
) -> usize
    requires headed { Headed file.now head }
    requires room { at + lines_room ≤ length out.old }
    ensures { Added (systems_text percent words file.now) out.old at out.new result }
{
    let mut end = at;
    for s in 0..head.systems {
        end = put_system(percent, words, file, head, s, out, end);
    }
    end
}

// The first line.
fn put_head(n: u64, m: u64, out: &mut [u8]) -> usize
    requires { head_room ≤ length out.old }
    ensures { Added (head_text n m) out.old 0 out.new result }
{
    let end = lines::put_pair(b"deck ", n, b" systems ", m, out, 0);
    text::put(out, end, b"\n")
}

// All that is printed for a file.
fn put_file(percent: bool, words: bool, file: &[u8], out: &mut [u8]) -> usize
    requires { output_room ≤ length out.old }
    ensures { let text = worded_print words (list_text percent words) file.now in
        Added text out.old 0 out.new result }
{
    match deck::open(file) {
        Ok(head) => {
            let end = put_head(head.fans as u64, head.systems as u64, out);
            put_systems(percent, words, file, head, out, end)
        }
        Err(refused) => printing::put_worded_file(words, file, refused.number(), out),
    }
}

// All that is printed for an input, of which the buffer holds the front: all of it, or as much as the buffer takes.
pub fn list_front(
    percent: bool,
    words: bool,
    input: &[u8; INPUT],
    filled: usize,
    out: &mut [u8],
) -> usize
    requires within { filled ≤ length input.now }
    requires room { output_room ≤ length out.old }
    ensures { WholeWorded words (list_text percent words) input.now filled out.new result }
{
    put_file(percent, words, printing::front_of(input, filled), out)
}
