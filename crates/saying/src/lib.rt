// What a program says where its words ask for no work, put into a buffer.
#![tactic(auto)]

ghost use Rattle.std.specs.Prelude.{◌≡◌, ◌++◌, map, ◌+◌, ◌≤◌, length};
ghost use Rattle.text.specs.Added.{Added};
ghost use Rattle.saying.specs.Said.{name_room, synopsis_room, most_shown, remedy_room, answer_room};
ghost use Rattle.saying.specs.Said.{plain, shown, remedy_text, help_text, wrong_text, answer_text};

use options::Task;

// Room for all that is said.
pub const SAID: usize = 256;

// So much of a wrong word is shown.
pub const SHOWN: usize = 60;

// Three texts, one behind the other.
pub fn put_three(a: &[u8], b: &[u8], c: &[u8], out: &mut [u8], at: usize) -> usize
    requires { at + (length a.now + length b.now + length c.now) ≤ length out.old }
    ensures { let text = a.now ++ b.now ++ c.now in
        Added text out.old at out.new result }
{
    let first = text::put(out, at, a);
    let second = text::put(out, first, b);
    text::put(out, second, c)
}

// How the program is started.
fn put_help(program: &[u8], synopsis: &[u8], out: &mut [u8]) -> usize
    requires named { (length program.now ≤ name_room) × (length synopsis.now ≤ synopsis_room) }
    requires room { answer_room ≤ length out.old }
    ensures { let text = help_text program.now synopsis.now in
        Added text out.old 0 out.new result }
{
    let first = put_three(b"usage: ", program, b" ", out, 0);
    let second = put_three(synopsis, b"\n       ", program, out, first);
    put_three(b" --help\n       ", program, b" --version\n", out, second)
}

// A byte as it is shown: what is no plain character is a question mark.
fn plain(byte: u8) -> u8
    ensures { result ≡ plain byte }
{
    if byte < 32 {
        return b'?';
    }
    let beyond = byte > 126;
    if beyond {
        return b'?';
    }
    byte
}

// Puts the bytes of a word as they are shown.
fn put_plain(word: &[u8], out: &mut [u8]) -> usize
    requires { length word.now ≤ length out.old }
    ensures { Added (map plain word.now) out.old 0 out.new result }
{
    for (k, byte) in word.iter().enumerate() {
        out[k] = plain(*byte);
    }
    word.len()
}

// Puts the front of a word so.
pub fn put_shown(word: &[u8], out: &mut [u8]) -> usize
    requires { most_shown ≤ length out.old }
    ensures { Added (shown word.now) out.old 0 out.new result }
{
    if word.len() > SHOWN {
        return put_plain(&word[..SHOWN], out);
    }
    put_plain(word, out)
}

// What is wrong with a word, and what to do.
fn put_remedy(task: Task, program: &[u8], out: &mut [u8], at: usize) -> usize
    requires named { length program.now ≤ name_room }
    requires room { at + remedy_room ≤ length out.old }
    ensures { Added (remedy_text task program.now) out.old at out.new result }
{
    let last: &[u8] = b" --help says what it takes\n";
    match task {
        Task::Unknown => put_three(b": there is no such option; ", program, last, out, at),
        Task::Many => put_three(b": one word too many; ", program, last, out, at),
        _ => put_three(
            b": the word that belongs to it is missing; ",
            program,
            last,
            out,
            at,
        ),
    }
}

// Which word is wrong and what to do.
fn put_wrong(program: &[u8], task: Task, word: &[u8], out: &mut [u8]) -> usize
    requires named { length program.now ≤ name_room }
    requires room { answer_room ≤ length out.old }
    ensures { let text = wrong_text program.now task word.now in
        Added text out.old 0 out.new result }
{
    let mut front = [0u8; SHOWN];
    let length = put_shown(word, &mut front);
    let end = put_three(program, b": ", &front[..length], out, 0);
    put_remedy(task, program, out, end)
}

// What the program says, by its words: how it is started, its version, or which word is wrong.
pub fn put_answer(program: &[u8], synopsis: &[u8], task: Task, word: &[u8], out: &mut [u8]) -> usize
    requires named { (length program.now ≤ name_room) × (length synopsis.now ≤ synopsis_room) }
    requires room { answer_room ≤ length out.old }
    ensures { let text = answer_text program.now synopsis.now task word.now in
        Added text out.old 0 out.new result }
{
    match task {
        Task::Help => put_help(program, synopsis, out),
        Task::Version => put_three(program, b" ", b"1.1.0\n", out, 0),
        _ => put_wrong(program, task, word, out),
    }
}
