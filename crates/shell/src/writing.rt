// A program's output: standard output, or the file that one of its words names, written whole or not at all.
ghost use Rattle.std.specs.Prelude.{◌≤◌, length};
ghost use Rattle.std.specs.Io.{WritesAtMost};

use crate::names::LABEL;
use crate::{failing, names, words};
use std::fs;
use std::fs::{File, OpenOptions};
use std::io::{Error, ErrorKind, Stderr, Stdout, Write};

// What an output's bytes go to.
#[derive(Drop)]
enum Channel {
    Standard(Stdout),
    Errors(Stderr),
    Named(File),
}

// An output that is open, and why the last of its writes that failed did so.
#[derive(Drop)]
pub struct Output {
    channel: Channel,
    why: Error,
}

// The number of no failure.
const NONE: i32 = 0;

fn to_channel(channel: Channel) -> Output {
    let why = Error::from_raw_os_error(NONE);
    Output { channel, why }
}

// A call that signals interrupt is tried again, but not for ever.
const MOST_TRIES: u64 = 1000000;

// How long `/dev/` is.
const DEVICES: usize = 5;

fn write_once(output: &mut Output, bytes: &[u8]) -> Result<usize, Error>
    ensures { WritesAtMost result bytes.now }
{
    match &mut output.channel {
        Channel::Standard(stdout) => stdout.write(bytes),
        Channel::Errors(stderr) => stderr.write(bytes),
        Channel::Named(file) => file.write(bytes),
    }
}

// One write of the bytes' front: how many were taken, 0 where it failed; one that a signal interrupts is tried again.
fn write_some(output: &mut Output, bytes: &[u8]) -> usize
    ensures { result ≤ length bytes.now }
{
    for _ in 0..MOST_TRIES {
        match write_once(output, bytes) {
            Ok(put) => return put,
            Err(why) => {
                output.why = why;
                if why.kind() != ErrorKind::Interrupted {
                    return 0;
                }
            }
        }
    }
    0
}

// Writes all bytes, and answers whether they were taken.
pub fn write_all(output: &mut Output, bytes: &[u8]) -> bool {
    let mut done: usize = 0;
    while done < bytes.len() {
        let put = write_some(output, &bytes[done..]);
        if put == 0 {
            return false;
        }
        done += put;
    }
    true
}

// Says a text on standard error.
pub fn say(rt: &HostRuntime, text: &[u8]) {
    let mut output = to_channel(Channel::Errors(rt.stderr()));
    write_all(&mut output, text);
}

// Writes a file that is open to its end and onto its disk; what failed, where something did.
fn write_file(file: File, bytes: &[u8]) -> Result<(), Error> {
    let mut output = to_channel(Channel::Named(file));
    if !write_all(&mut output, bytes) {
        return Err(output.why);
    }
    match &output.channel {
        Channel::Named(file) => file.sync_all(),
        _ => Ok(()),
    }
}

// A name below /dev is no file that another could take the place of.
fn is_device(name: &[u8]) -> bool {
    if name.len() < DEVICES {
        return false;
    }
    options::same(&name[..DEVICES], b"/dev/")
}

// Writes to a device; what failed, where something did.
fn write_device(rt: &HostRuntime, path: &str, bytes: &[u8]) -> Result<(), Error> {
    let file = File::create(rt, path)?;
    let mut output = to_channel(Channel::Named(file));
    if !write_all(&mut output, bytes) {
        return Err(output.why);
    }
    Ok(())
}

// Opens a new file.
fn create(rt: &HostRuntime, path: &str) -> Result<File, Error> {
    OpenOptions::new()
        .write(true)
        .create_new(true)
        .open(rt, path)
}

// Writes a file that is open and gives it another's name.
fn put_in_place(
    rt: &HostRuntime,
    file: File,
    beside: &str,
    path: &str,
    bytes: &[u8],
) -> Result<(), Error> {
    write_file(file, bytes)?;
    fs::rename(rt, beside, path)
}

// Writes a new file beside the one that is named and puts it in its place, so that the old one stays where anything
// fails; what failed, where something did.
fn write_whole(rt: &HostRuntime, name: &[u8], bytes: &[u8]) -> Result<(), Error> {
    let mut line = [0u8; LABEL];
    let end = names::put_beside(rt, name, &mut line);
    let path = names::path(name)?;
    let beside = names::path(&line[..end])?;
    let file = create(rt, beside)?;
    let written = put_in_place(rt, file, beside, path, bytes);
    if written.is_err() {
        let _ = fs::remove_file(rt, beside);
    }
    written
}

// Writes to the file of a name.
fn write_named(rt: &HostRuntime, name: &[u8], bytes: &[u8]) -> Result<(), Error> {
    if is_device(name) {
        let path = names::path(name)?;
        return write_device(rt, path, bytes);
    }
    write_whole(rt, name, bytes)
}

// Writes to standard output.
fn write_standard(rt: &HostRuntime, bytes: &[u8]) -> Result<(), Error> {
    let mut output = to_channel(Channel::Standard(rt.stdout()));
    if !write_all(&mut output, bytes) {
        return Err(output.why);
    }
    Ok(())
}

// Writes to standard output for place 0 and for `-`, and else to the file at a place of the words.
fn write_at(rt: &HostRuntime, place: usize, bytes: &[u8]) -> Result<(), Error> {
    let mut name = io::buffer();
    let length = words::put_word(rt, place, &mut name);
    if place == 0 || options::same(&name[..length], b"-") {
        return write_standard(rt, bytes);
    }
    write_named(rt, &name[..length], bytes)
}

// Writes the program's output to the file at a place of its words, or to standard output for place 0 and for `-`;
// answers whether all of it was taken, and tells what fails.
pub fn write_out(rt: &HostRuntime, program: &[u8], place: usize, bytes: &[u8]) -> bool {
    let mut label = [0u8; LABEL];
    let end = names::put_label(rt, program, place, b"standard output", &mut label);
    match write_at(rt, place, bytes) {
        Ok(()) => true,
        Err(why) => {
            failing::fail(rt, &label[..end], why);
            false
        }
    }
}
