// A program's input: standard input, or the file that one of its words names.
ghost use Rattle.std.specs.Prelude.{◌≡◌, length};
ghost use Rattle.std.specs.Io.{ReadsAtMost};
ghost use Rattle.shell.specs.Edges.{FitsIn};
ghost use Rattle.shell.specs.Taken.{unopened_whole, Fills, Counted, Through};

use crate::names::LABEL;
use crate::taking::Taken;
use crate::{failing, names, taking, words, writing};
use std::fs::File;
use std::io::{Error, ErrorKind, IsTerminal, Read, Stdin};

// What an input's bytes come from.
#[derive(Drop)]
enum Channel {
    Standard(Stdin),
    Named(File),
}

// An input that is open, and why the last of its reads that failed did so.
#[derive(Drop)]
pub struct Opened {
    channel: Channel,
    why: Error,
}

// What reading gave: so many bytes at the buffer's front, up to the input's end or the buffer's; or a read that failed.
#[derive(Clone, Copy)]
pub enum Input {
    Filled(usize),
    Failed,
}

// A call that signals interrupt is tried again, but not for ever.
const MOST_TRIES: u64 = 1000000;

// The buffer that bytes go through that are only counted, and how many are counted at most: 2^62, which no input
// reaches.
const PASSING: usize = 4096;

const MOST_COUNTED: usize = 4611686018427387904;

// The number of no failure.
const NONE: i32 = 0;

fn from_channel(channel: Channel) -> Opened {
    let why = Error::from_raw_os_error(NONE);
    Opened { channel, why }
}

// The input at a place of the words: standard input for place 0 and for `-`.
pub fn open(rt: &HostRuntime, place: usize) -> Result<Opened, Error> {
    if place == 0 {
        return Ok(from_channel(Channel::Standard(rt.stdin())));
    }
    let mut name = io::buffer();
    let length = words::put_word(rt, place, &mut name);
    if options::same(&name[..length], b"-") {
        return Ok(from_channel(Channel::Standard(rt.stdin())));
    }
    let path = names::path(&name[..length])?;
    let file = File::open(rt, path)?;
    Ok(from_channel(Channel::Named(file)))
}

// Is it standard input?
pub fn is_standard(input: &Opened) -> bool {
    match &input.channel {
        Channel::Standard(_) => true,
        Channel::Named(_) => false,
    }
}

// Why the last read that failed did so.
pub fn why(input: &Opened) -> Error {
    input.why
}

fn is_terminal(input: &Opened) -> bool {
    match &input.channel {
        Channel::Standard(stdin) => stdin.is_terminal(),
        Channel::Named(file) => file.is_terminal(),
    }
}

// Says on standard error that the program waits for its user, where its input is a terminal.
pub fn tell_waiting(rt: &HostRuntime, program: &[u8], input: &Opened) {
    if is_terminal(input) {
        writing::say(rt, program);
        writing::say(rt, b": reads from the terminal; Ctrl-D ends the input\n");
    }
}

fn read_once(input: &mut Opened, buffer: &mut [u8]) -> Result<usize, Error>
    ensures { ReadsAtMost result buffer.new }
{
    match &mut input.channel {
        Channel::Standard(stdin) => stdin.read(buffer),
        Channel::Named(file) => file.read(buffer),
    }
}

// One read into the buffer's front; one that a signal interrupts is tried again.
pub fn read_some(input: &mut Opened, buffer: &mut [u8]) -> Input
    ensures { FitsIn (length buffer.new) result }
{
    for _ in 0..MOST_TRIES {
        match read_once(input, buffer) {
            Ok(filled) => return Input::Filled(filled),
            Err(why) => {
                input.why = why;
                if why.kind() != ErrorKind::Interrupted {
                    return Input::Failed;
                }
            }
        }
    }
    Input::Failed
}

// Tells a read that failed by its label.
fn tell_failed(rt: &HostRuntime, taken: Taken, input: &Opened, label: &[u8]) {
    if taking::has_failed(taken) {
        failing::fail(rt, label, input.why);
    }
}

// Reads until the input ends or the buffer is full; a read that fails is told by its label.
pub fn fill(rt: &HostRuntime, input: &mut Opened, label: &[u8], buffer: &mut [u8]) -> Taken
    ensures { Fills (length buffer.new) result }
{
    let mut taken = taking::nothing();
    let mut filled: usize = 0;
    while filled < buffer.len() {
        taken = taking::take(input, &mut buffer[filled..], taken);
        if !taking::goes_on(taken) {
            tell_failed(rt, taken, input, label);
            return taken;
        }
        filled = taking::count(taken);
    }
    taken
}

// Reads what is left of an input and counts it; a read that fails is told likewise.
pub fn count_rest(rt: &HostRuntime, input: &mut Opened, label: &[u8]) -> Taken
    ensures { Counted result }
{
    let mut passing = [0u8; PASSING];
    let mut taken = taking::nothing();
    let mut count: usize = 0;
    while count < MOST_COUNTED {
        taken = taking::take(input, &mut passing, taken);
        if !taking::goes_on(taken) {
            tell_failed(rt, taken, input, label);
            return taken;
        }
        count = taking::count(taken);
    }
    taken
}

// An input whose front is read into a buffer, and what follows a full one.
#[derive(Clone, Copy)]
pub struct Whole {
    pub front: Taken,
    pub rest: Taken,
}

// The front of an open input, and how much follows it; what fails is told by its label.
fn read_through(rt: &HostRuntime, input: &mut Opened, label: &[u8], buffer: &mut [u8]) -> Whole
    ensures { Through (length buffer.new) result }
{
    let front = fill(rt, input, label, buffer);
    if !taking::goes_on(front) {
        let rest = taking::nothing();
        return Whole { front, rest };
    }
    let rest = count_rest(rt, input, label);
    Whole { front, rest }
}

// How many bytes of it are in the buffer.
pub fn filled(whole: Whole) -> usize
    ensures { result ≡ whole.front.count }
{
    let front = whole.front;
    taking::count(front)
}

// How many follow.
pub fn rest(whole: Whole) -> u64
    ensures { result ≡ whole.rest.count }
{
    let rest = whole.rest;
    taking::count(rest) as u64
}

// Has a read of it failed?
pub fn has_failed(whole: Whole) -> bool {
    let front = whole.front;
    let rest = whole.rest;
    taking::has_failed(front) || taking::has_failed(rest)
}

// An input that could not be opened.
fn unopened() -> Whole
    ensures { result ≡ unopened_whole }
{
    let front = taking::unopened();
    let rest = taking::nothing();
    Whole { front, rest }
}

// Opens the input at a place of the words, reads its front into the buffer and counts its rest; what fails is told.
pub fn read_whole(rt: &HostRuntime, program: &[u8], place: usize, buffer: &mut [u8]) -> Whole
    ensures { Through (length buffer.new) result }
{
    let mut label = [0u8; LABEL];
    let end = names::put_label(rt, program, place, b"standard input", &mut label);
    let mut input = match open(rt, place) {
        Ok(input) => input,
        Err(why) => {
            failing::fail(rt, &label[..end], why);
            return unopened();
        }
    };
    tell_waiting(rt, program, &input);
    read_through(rt, &mut input, &label[..end], buffer)
}

// The same of an input whose rest is of no matter, and is not read.
pub fn read_front(rt: &HostRuntime, program: &[u8], place: usize, buffer: &mut [u8]) -> Taken
    ensures { Fills (length buffer.new) result }
{
    let mut label = [0u8; LABEL];
    let end = names::put_label(rt, program, place, b"standard input", &mut label);
    let mut input = match open(rt, place) {
        Ok(input) => input,
        Err(why) => {
            failing::fail(rt, &label[..end], why);
            return taking::unopened();
        }
    };
    tell_waiting(rt, program, &input);
    fill(rt, &mut input, &label[..end], buffer)
}
