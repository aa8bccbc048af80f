// The input and the output of a program that runs cases.
ghost use Rattle.std.specs.Prelude.{◌≤◌, length};
ghost use Rattle.io.specs.Counts.{IsPrefixLen};

use std::io::{Read, Write};

// One read into the buffer's front: how many bytes, 0 at the input's end or where it failed.
fn read_some(rt: &HostRuntime, buffer: &mut [u8]) -> usize
    ensures { IsPrefixLen result buffer.new }
{
    rt.stdin().read(buffer).unwrap_or(0)
}

// Reads standard input until it ends or the buffer is full, and answers how many bytes it put at the front of it.
pub fn read_input(rt: &HostRuntime, buffer: &mut [u8]) -> usize
    ensures { IsPrefixLen result buffer.new }
{
    let mut done: usize = 0;
    while done < buffer.len() {
        let got = read_some(rt, &mut buffer[done..]);
        if got == 0 {
            break;
        }
        done += got;
    }
    done
}

// Writes the bytes to standard output, up to a write that fails.
pub fn write_output(rt: &HostRuntime, bytes: &[u8]) {
    let _ = rt.stdout().write_all(bytes);
}
