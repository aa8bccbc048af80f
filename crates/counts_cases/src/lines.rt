// The lines that answer count cases, put into a buffer. What does not fit is left out.
ghost use Rattle.std.specs.Prelude.{◌≤◌, length};

use casefile::tables;
use rules::Counting;

// Puts an entry after a space.
fn put_entry(entry: u64, out: &mut [u8], at: usize) -> usize
    requires { at ≤ length out.old }
    ensures { result ≤ length out.new }
{
    text::put_named(b" ", entry, out, at)
}

// Puts the entries 0 to n.
fn put_entries(room: &[u64], n: u64, out: &mut [u8], at: usize) -> usize
    requires { at ≤ length out.old }
    ensures { result ≤ length out.new }
{
    let mut end = at;
    for (j, entry) in room.iter().enumerate() {
        if n < j as u64 {
            return end;
        }
        end = put_entry(*entry, out, end);
    }
    end
}

// Puts the answer: the counts, or the refusal.
fn put_answer(answer: Counting, room: &[u64], n: u64, out: &mut [u8], at: usize) -> usize
    requires { at ≤ length out.old }
    ensures { result ≤ length out.new }
{
    match answer {
        Counting::Counted => {
            let end = text::put(out, at, b"counts");
            put_entries(room, n, out, end)
        }
        Counting::Refused(number) => text::put_named(b"refused ", number, out, at),
    }
}

// Puts the answer, and the checksums of both tables as the call left them.
pub fn put_line(
    answer: Counting,
    n: u64,
    table: &[u64],
    room: &[u64],
    out: &mut [u8],
    at: usize,
) -> usize
    requires { at ≤ length out.old }
    ensures { result ≤ length out.new }
{
    let answered = put_answer(answer, room, n, out, at);
    let first = text::put_named(b" cells ", tables::checksum(table), out, answered);
    let second = put_entry(tables::checksum(room), out, first);
    text::put(out, second, b"\n")
}
