// What the programs that print a deck file share: the file in a buffer that holds only the front of an input, the line
// of a refused one, and how they end.
#![tactic(auto)]

ghost use Rattle.std.specs.Prelude.{◌+◌, ◌≤◌, length};
ghost use Rattle.text.specs.Added.{Added};
ghost use Rattle.text.specs.Decimal.{text};
ghost use Rattle.shell.specs.Status.{Status};
ghost use Rattle.printing.specs.Lines.{file_text, file_room, worded_text, worded_room, file_worded};
ghost use Rattle.printing.specs.Front.{Fronted, WholeRefused, WholeEnds};

use advice::why::Why;
use shell::starting;
use text::lines;

// The buffer for the input. No sound file has more than 812 bytes: what is cut from a longer input changes nothing.
pub const INPUT: usize = 1024;

// The file that an input is read as, where the buffer holds the input's front: all of it, or as much as the buffer
// takes.
pub fn front_of(input: &[u8; INPUT], filled: usize) -> &[u8]
    requires { filled ≤ length input.now }
    ensures { Fronted input.now filled result.now }
{
    let buffer: &[u8] = input;
    &buffer[..filled]
}

// Is the input that the buffer holds the front of refused?
pub fn refused(input: &[u8; INPUT], filled: usize) -> bool
    requires { filled ≤ length input.now }
    ensures { WholeRefused input.now filled result }
{
    let opened = deck::open(front_of(input, filled));
    opened.is_err()
}

// A refused file's line, which is all that is printed for it.
pub fn put_refused_file(number: u64, out: &mut [u8]) -> usize
    requires { file_room ≤ length out.old }
    ensures { Added (file_text number) out.old 0 out.new result }
{
    let end = text::put(out, 0, b"file");
    lines::put_refused(number, out, end)
}

// ` refused N`, where words are asked for what that means and what to do about it, and the line's end.
pub fn put_worded(words: bool, why: Why, number: u64, out: &mut [u8], at: usize) -> usize
    requires { at + worded_room ≤ length out.old }
    ensures { Added (worded_text words why number) out.old at out.new result }
{
    if !words {
        return lines::put_refused(number, out, at);
    }
    let named = text::put_named(b" refused ", number, out, at);
    let parted = text::put(out, named, b": ");
    let end = advice::put_why(why, out, parted);
    text::put(out, end, b"\n")
}

// A refused file's line, with words where they are asked for.
pub fn put_worded_file(words: bool, file: &[u8], number: u64, out: &mut [u8]) -> usize
    requires { length (text "file") + worded_room ≤ length out.old }
    ensures { Added (file_worded words file.now number) out.old 0 out.new result }
{
    let why = advice::file::file_why(file);
    let end = text::put(out, 0, b"file");
    put_worded(words, why, number, out, end)
}

// Ends a program that prints a text of the input: to standard output where the input is refused, and else to the output
// at a place of the words, 0 for standard output. Answers the status.
pub fn finish(
    rt: &HostRuntime,
    program: &[u8],
    place: usize,
    input: &[u8; INPUT],
    filled: usize,
    text: &[u8],
) -> i32
    requires { filled ≤ length input.now }
    ensures ends { WholeEnds input.now filled result }
    ensures status { Status result }
{
    if refused(input, filled) {
        return starting::print(rt, program, 0, text, true);
    }
    starting::print(rt, program, place, text, false)
}

// The same of a text in two buffers, to standard output.
pub fn finish_two(
    rt: &HostRuntime,
    program: &[u8],
    input: &[u8; INPUT],
    filled: usize,
    text: &[u8],
    more: &[u8],
) -> i32
    requires { filled ≤ length input.now }
    ensures ends { WholeEnds input.now filled result }
    ensures status { Status result }
{
    let refused = refused(input, filled);
    starting::print_two(rt, program, text, more, refused)
}
