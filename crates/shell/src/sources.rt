// Several inputs one after another as one: the files that the operands name, or standard input where there are none.
ghost use Rattle.std.specs.Prelude.{◌≡◌, ◌≤◌, length};
ghost use Rattle.shell.specs.Edges.{label_room, FitsIn, FitsNext};

use crate::names::LABEL;
use crate::reading::{Input, Opened};
use crate::words::{MOST_WORDS, is_word};
use crate::{failing, names, reading, words};
use options::Asked;
use std::io::Error;

// The input that is open, none where that failed; whether standard input was read before it; the place of the word
// behind the one that names it; and where its label ends.
#[derive(Drop)]
pub struct Source {
    pub input: Option<Opened>,
    pub spent: bool,
    pub next: usize,
    pub end: usize,
}

// What reading gave: so many bytes, none at the end of the last input; or what failed, which was told.
#[derive(Drop)]
pub struct More {
    pub source: Source,
    pub filled: usize,
    pub failed: bool,
}

// The number of the failure "Bad file descriptor".
const CLOSED: i32 = 9;

// The place of the next operand from a place on; `--` is none.
fn operand_from(rt: &HostRuntime, place: usize, ended: usize) -> usize {
    if place == ended {
        return behind(rt, place);
    }
    place
}

// The place behind a word's; behind standard input, which has none, there is no word.
fn behind(rt: &HostRuntime, place: usize) -> usize {
    if place == 0 || place >= MOST_WORDS || !is_word(rt, place) {
        return words::count(rt);
    }
    place + 1
}

// Opens the input at a place; standard input that was read before is closed.
fn open_next(rt: &HostRuntime, place: usize, spent: bool) -> Result<Opened, Error> {
    let input = reading::open(rt, place)?;
    if spent && reading::is_standard(&input) {
        return Err(Error::from_raw_os_error(CLOSED));
    }
    Ok(input)
}

// Opens the input at a place and labels it; what fails is told.
fn open_at(
    rt: &HostRuntime,
    program: &[u8],
    place: usize,
    spent: bool,
    label: &mut [u8; LABEL],
) -> Source
    ensures { result.end ≤ label_room }
{
    let end = names::put_label(rt, program, place, b"standard input", label);
    let line: &[u8] = label;
    let next = behind(rt, place);
    match open_next(rt, place, spent) {
        Ok(input) => {
            reading::tell_waiting(rt, program, &input);
            Source {
                input: Some(input),
                spent,
                next,
                end,
            }
        }
        Err(why) => {
            failing::fail(rt, &line[..end], why);
            Source {
                input: None,
                spent,
                next,
                end,
            }
        }
    }
}

// Opens the first input.
pub fn begin(rt: &HostRuntime, program: &[u8], asked: Asked, label: &mut [u8; LABEL]) -> Source
    ensures { result.end ≤ label_room }
{
    open_at(rt, program, asked.first, false, label)
}

// Was it opened?
pub fn is_open(source: &Source) -> bool {
    source.input.is_some()
}

// Was standard input read, by a source or before it?
fn has_spent(source: &Source) -> bool {
    match &source.input {
        Some(input) => source.spent || reading::is_standard(input),
        None => source.spent,
    }
}

// Reads on, from one input to the next; a read or an opening that fails is told.
pub fn read_more(
    rt: &HostRuntime,
    program: &[u8],
    asked: Asked,
    source: Source,
    label: &mut [u8; LABEL],
    buffer: &mut [u8],
) -> More
    requires { source.end ≤ label_room }
    ensures { FitsNext (length buffer.new) result }
{
    let mut source = source;
    for _ in 0..MOST_WORDS {
        let Input::Filled(filled) = read_told(rt, &mut source, label, buffer) else {
            break;
        };
        let place = operand_from(rt, source.next, asked.ended);
        if filled != 0 || !is_word(rt, place) {
            return More {
                source,
                filled,
                failed: false,
            };
        }
        let spent = has_spent(&source);
        source = open_at(rt, program, place, spent, label);
        if !is_open(&source) {
            break;
        }
    }
    More {
        source,
        filled: 0,
        failed: true,
    }
}

// One read of an input; what fails is told by its label.
fn read_told(rt: &HostRuntime, source: &mut Source, label: &[u8; LABEL], buffer: &mut [u8]) -> Input
    requires { source.old.end ≤ label_room }
    ensures fits { FitsIn (length buffer.new) result }
    ensures labelled { source.new.end ≡ source.old.end }
{
    let end = source.end;
    let Some(input) = &mut source.input else {
        return Input::Failed;
    };
    let Input::Filled(filled) = reading::read_some(input, buffer) else {
        let line: &[u8] = label;
        failing::fail(rt, &line[..end], reading::why(input));
        return Input::Failed;
    };
    Input::Filled(filled)
}
