// What a message names: the program, and the file of one of its words.
ghost use Rattle.std.specs.Prelude.{◌<◌};
ghost use Rattle.io.specs.Counts.{IsPrefixLen};

use crate::words;
use std::io::Error;
use std::random::RandomSource;

// Room for a program's name and a path.
pub const LABEL: usize = 4352;

// Puts the program's name and that of the file at a place of the words, or what stands for a file where the place is 0;
// answers where that ends.
pub fn put_label(
    rt: &HostRuntime,
    program: &[u8],
    place: usize,
    otherwise: &[u8],
    out: &mut [u8; LABEL],
) -> usize
    ensures { IsPrefixLen result out.new }
{
    let mut name = io::buffer();
    let length = words::put_word(rt, place, &mut name);
    let line: &mut [u8] = out;
    let named = text::put(line, 0, program);
    let parted = text::put(line, named, b": ");
    if place == 0 {
        return text::put(line, parted, otherwise);
    }
    text::put(line, parted, &name[..length])
}

fn wide(byte: u8) -> u64
    ensures { result < 256 }
{
    byte as u64
}

// A number that no other running program is likely to have.
fn own_number(rt: &HostRuntime) -> u64 {
    let mut bytes = [0u8; 4];
    let _ = rt.fill_bytes(&mut bytes);
    let low = wide(bytes[0]) + 256 * wide(bytes[1]);
    low + 65536 * (wide(bytes[2]) + 256 * wide(bytes[3]))
}

// Puts the name of a file beside another, which no other running program takes; answers where that ends.
pub fn put_beside(rt: &HostRuntime, name: &[u8], out: &mut [u8; LABEL]) -> usize
    ensures { IsPrefixLen result out.new }
{
    let line: &mut [u8] = out;
    let end = text::put(line, 0, name);
    text::put_named(b".part", own_number(rt), line, end)
}

// The number of the failure "Invalid argument".
const INVALID: i32 = 22;

// The path that a word names: one that is no UTF-8 cannot be opened.
pub fn path(name: &[u8]) -> Result<&str, Error> {
    match str::from_utf8(name) {
        Ok(path) => Ok(path),
        Err(_) => Err(Error::from_raw_os_error(INVALID)),
    }
}
