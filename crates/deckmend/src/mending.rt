// What deckmend writes, put into buffers: the mended file, and the lines of what was changed and cut, or of a refused
// file.
ghost use Rattle.std.specs.Prelude.{◌+◌, ◌*◌, ◌^◌, ◌≤◌, ◌<◌, length};
ghost use Rattle.rules.specs.Mending.{per_change};
ghost use Rattle.text.specs.Added.{Added};
ghost use Rattle.deckmend.specs.Lines.{end_text, end_room, change_text, change_room, changes_text, lines_room};
ghost use Rattle.deckmend.specs.Whole.{file_room, WholeMended};

use printing::INPUT;
use rules::Mending;
use text::lines;

// Room for the longest file and for all lines.
pub const FILE: usize = 1024;

pub const LINES: usize = 4096;

// Room for the list: three numbers for every byte of the longest header.
const PER_CHANGE: usize = 3;

const LIST: usize = 84;

// How many bytes are for standard output, and how many for standard error.
#[derive(Clone, Copy)]
pub struct Told {
    pub size: usize,
    pub end: usize,
}

// A named number and the line's end.
fn put_end(name: &[u8], n: u64, out: &mut [u8], at: usize) -> usize
    requires { at + end_room name.now ≤ length out.old }
    ensures { Added (end_text name.now n) out.old at out.new result }
{
    let end = text::put_named(name, n, out, at);
    text::put(out, end, b"\n")
}

// The line of a change.
fn put_change(place: u64, old: u64, new: u64, out: &mut [u8], at: usize) -> usize
    requires { at + change_room ≤ length out.old }
    ensures { Added (change_text place old new) out.old at out.new result }
{
    let end = lines::put_pair(b"byte ", place, b" was ", old, out, at);
    put_end(b" is ", new, out, end)
}

// The lines of the first changes of a list.
fn put_changes(list: &[u64], changed: usize, out: &mut [u8]) -> usize
    requires listed { per_change * changed ≤ length list.now }
    requires room { change_room * changed ≤ length out.old }
    ensures added { Added (changes_text changed list.now) out.old 0 out.new result }
    ensures reach { result ≤ change_room * changed }
{
    let mut end: usize = 0;
    for i in 0..changed {
        let at = PER_CHANGE * i;
        end = put_change(list[at], list[at + 1], list[at + 2], out, end);
    }
    end
}

// All that is written for an input of which the buffer holds the front, all of it or as much as the buffer takes, and
// so many bytes follow.
pub fn mend_front(
    input: &[u8; INPUT],
    filled: usize,
    rest: u64,
    file: &mut [u8],
    out: &mut [u8],
) -> Told
    requires within { (filled ≤ length input.now) × (rest < 2 ^ 63) }
    requires rooms { (file_room ≤ length file.old) × (lines_room ≤ length out.old) }
    ensures { WholeMended input.now filled rest file.new out.new result }
{
    let buffer: &[u8] = input;
    let mut list = [0u64; LIST];
    let mending = mend::mend(&buffer[..filled], file, &mut list);
    match mending {
        Mending::Mended { size, changed, cut } => {
            let last = put_changes(&list, changed as usize, out);
            let end = put_end(b"cut ", cut + rest, out, last);
            Told {
                size: size as usize,
                end,
            }
        }
        Mending::Refused(number) => {
            let end = printing::put_refused_file(number, out);
            Told { size: 0, end }
        }
    }
}
