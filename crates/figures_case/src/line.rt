// The line of a case's answer, put into a buffer.
ghost use Rattle.std.specs.Prelude.{◌≤◌, length};

use rules::{Rating, Worth};
use text::lines;

// The bytes that the two ends of a worth take with their names, at most.
const ENDS: usize = 55;

// What a call answers.
#[derive(Clone, Copy)]
pub enum Answer {
    Rated(Rating),
    Weighed(Worth),
}

// Puts a rating into the buffer and answers where it ends.
fn put_rating(rating: Rating, out: &mut [u8], at: usize) -> usize
    requires { at ≤ length out.old }
    ensures { result ≤ length out.new }
{
    match rating {
        Rating::Range { low, high } => {
            let end = text::put_named(b"low ", low, out, at);
            text::put_named(b" high ", high, out, end)
        }
        Rating::Refused(number) => text::put_named(b"refused ", number, out, at),
    }
}

// Puts a worth's two ends, likewise; nothing where there is no room.
fn put_ends(lower: i64, upper: i64, out: &mut [u8], at: usize) -> usize
    requires { at ≤ length out.old }
    ensures { result ≤ length out.new }
{
    if out.len() - at < ENDS {
        return at;
    }
    lines::put_signed_pair(b"lower ", lower, b" upper ", upper, out, at)
}

// Puts a worth, likewise.
fn put_worth(worth: Worth, out: &mut [u8], at: usize) -> usize
    requires { at ≤ length out.old }
    ensures { result ≤ length out.new }
{
    match worth {
        Worth::Ends { lower, upper } => put_ends(lower, upper, out, at),
        Worth::Refused(number) => text::put_named(b"refused ", number, out, at),
    }
}

// Puts an answer, likewise.
fn put_answer(answer: Answer, out: &mut [u8], at: usize) -> usize
    requires { at ≤ length out.old }
    ensures { result ≤ length out.new }
{
    match answer {
        Answer::Rated(rating) => put_rating(rating, out, at),
        Answer::Weighed(worth) => put_worth(worth, out, at),
    }
}

// Puts a case's line, likewise.
pub fn put_line(answer: Answer, cells: u64, out: &mut [u8], at: usize) -> usize
    requires { at ≤ length out.old }
    ensures { result ≤ length out.new }
{
    let answered = put_answer(answer, out, at);
    let end = text::put_named(b" cells ", cells, out, answered);
    text::put(out, end, b"\n")
}
