// How a program starts: it hears its words, answers those that ask for no work, and reads its input; and how it ends.
ghost use Rattle.std.specs.Prelude.{◌≤◌, ◌*◌, length};
ghost use Rattle.options.specs.Words.{row_length, most_options};
ghost use Rattle.saying.specs.Said.{name_room, synopsis_room};
ghost use Rattle.shell.specs.Status.{status_of, answer_status, Handed, OrFailed, Status, Begins};

use crate::{reading, taking, words, writing};
use options::{Asked, Task};

// What a program is to do, with so many bytes of its input in a buffer; or it has ended, with its status.
#[derive(Clone, Copy)]
pub struct Begun {
    pub asked: Asked,
    pub filled: usize,
    pub ended: bool,
    pub status: i32,
}

// All words of the program, by its table of options and the most operands that it takes.
pub fn hear_all(rt: &HostRuntime, table: &[u8], most: u64) -> Asked
    requires { length table.now ≤ row_length * most_options }
{
    let count = words::count(rt);
    let mut word = io::buffer();
    let mut asked = options::nothing();
    for i in 1..count {
        let length = words::put_word(rt, i, &mut word);
        asked = options::hear(table, most, asked, i, &word[..length]);
    }
    options::finish(asked, count.saturating_sub(1))
}

// Hears the words; those that ask for no work are answered, and the program has ended.
pub fn hear(rt: &HostRuntime, program: &[u8], synopsis: &[u8], table: &[u8], most: u64) -> Begun
    requires named { (length program.now ≤ name_room) × (length synopsis.now ≤ synopsis_room) }
    requires rows { length table.now ≤ row_length * most_options }
    ensures { Begins 0 result }
{
    let asked = hear_all(rt, table, most);
    if asked.task != Task::Work {
        let status = answer(rt, program, synopsis, asked);
        return Begun {
            asked,
            filled: 0,
            ended: true,
            status,
        };
    }
    Begun {
        asked,
        filled: 0,
        ended: false,
        status: crate::DONE,
    }
}

// Reads the front of the input at a place of the words; one that cannot be read has been told, and the program has
// ended.
pub fn read_at(
    rt: &HostRuntime,
    program: &[u8],
    asked: Asked,
    place: usize,
    input: &mut [u8],
) -> Begun
    ensures { Begins (length input.new) result }
{
    let front = reading::read_front(rt, program, place, input);
    if taking::has_failed(front) {
        return Begun {
            asked,
            filled: 0,
            ended: true,
            status: crate::FAILED,
        };
    }
    Begun {
        asked,
        filled: taking::count(front),
        ended: false,
        status: crate::DONE,
    }
}

// Both, of the input that the first operand names, or of standard input.
pub fn begin(
    rt: &HostRuntime,
    program: &[u8],
    synopsis: &[u8],
    table: &[u8],
    most: u64,
    input: &mut [u8],
) -> Begun
    requires named { (length program.now ≤ name_room) × (length synopsis.now ≤ synopsis_room) }
    requires rows { length table.now ≤ row_length * most_options }
    ensures { Begins (length input.new) result }
{
    let heard = hear(rt, program, synopsis, table, most);
    if heard.ended {
        return heard;
    }
    let asked = heard.asked;
    read_at(rt, program, asked, asked.first, input)
}

// Writes a text to the output at a place of the words, 0 for standard output, and answers the program's status: whether
// the text tells a refusal.
pub fn print(rt: &HostRuntime, program: &[u8], place: usize, text: &[u8], refused: bool) -> i32
    ensures or_failed { OrFailed (status_of refused) result }
    ensures status { Status result }
{
    if !writing::write_out(rt, program, place, text) {
        return crate::FAILED;
    }
    if refused { crate::REFUSED } else { crate::DONE }
}

// The same of a text that stands in two buffers, to standard output.
pub fn print_two(rt: &HostRuntime, program: &[u8], text: &[u8], more: &[u8], refused: bool) -> i32
    ensures or_failed { OrFailed (status_of refused) result }
    ensures status { Status result }
{
    if !writing::write_out(rt, program, 0, text) {
        return crate::FAILED;
    }
    print(rt, program, 0, more, refused)
}

// Answers words that ask for no work: how the program is started and its version on standard output, which word is
// wrong on standard error.
fn answer(rt: &HostRuntime, program: &[u8], synopsis: &[u8], asked: Asked) -> i32
    requires { (length program.now ≤ name_room) × (length synopsis.now ≤ synopsis_room) }
    ensures or_failed { OrFailed (answer_status asked.task) result }
    ensures status { Status result }
{
    let mut word = io::buffer();
    let length = words::put_word(rt, asked.at, &mut word);
    let mut out = [0u8; saying::SAID];
    let end = saying::put_answer(program, synopsis, asked.task, &word[..length], &mut out);
    match asked.task {
        Task::Help | Task::Version => print(rt, program, 0, &out[..end], false),
        _ => {
            writing::say(rt, &out[..end]);
            crate::FAILED
        }
    }
}

// Hands over a file and what is told of it. Where there is no file, what is told says why: the status is that of a
// refusal. Nothing is told of a file that cannot be written.
pub fn hand_over(rt: &HostRuntime, program: &[u8], place: usize, file: &[u8], told: &[u8]) -> i32
    ensures handed { Handed (length file.now) result }
    ensures status { Status result }
{
    if file.len() == 0 {
        writing::say(rt, told);
        return crate::REFUSED;
    }
    if !writing::write_out(rt, program, place, file) {
        return crate::FAILED;
    }
    writing::say(rt, told);
    crate::DONE
}
