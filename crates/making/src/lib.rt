// What is made of a text, put into buffers: the deck file, and the warnings of its systems or the faults that were
// told.
#![tactic(auto)]

ghost use Rattle.std.specs.Prelude.{◌+◌, ◌≤◌, length};
ghost use Rattle.rules.specs.File.{most_systems};
ghost use Rattle.text.specs.Added.{Added};
ghost use Rattle.listing.specs.Holds.{Counted, Sane};
ghost use Rattle.making.specs.Lines.{warning_text, warning_room, warnings_text, warnings_room};
ghost use Rattle.making.specs.Made.{file_room, FileOf, MadeOf};

use listing::Listing;
use rules::{Rating, Writing};
use text::lines;

// Room for the longest file, and for all that is said.
pub const FILE: usize = 1024;

pub const SAID: usize = 8192;

// A system has five numbers.
const PER_SYSTEM: usize = 5;

// How many bytes are for standard output, and how many for standard error.
#[derive(Clone, Copy)]
pub struct Made {
    pub size: usize,
    pub end: usize,
}

// The warning of a system that will be refused; nothing for one that will be answered.
fn put_warning(system: u64, rating: Rating, out: &mut [u8], at: usize) -> usize
    requires { at + warning_room ≤ length out.old }
    ensures { Added (warning_text system rating) out.old at out.new result }
{
    match rating {
        Rating::Range {
            low: _low,
            high: _high,
        } => at,
        Rating::Refused(number) => {
            let end = lines::put_pair(b"system ", system, b" will be refused ", number, out, at);
            text::put(out, end, b"\n")
        }
    }
}

// The warnings of the first systems of a file.
fn put_warnings(file: &[u8], count: usize, out: &mut [u8]) -> usize
    requires few { count ≤ most_systems }
    requires room { warnings_room ≤ length out.old }
    ensures { Added (warnings_text file.now count) out.old 0 out.new result }
{
    let opened = deck::open(file);
    let mut end: usize = 0;
    for s in 0..count {
        let system = s as u64 + 1;
        let rating = systems::rate_opened(file, opened, system);
        end = put_warning(system, rating, out, end);
    }
    end
}

// The file of what is listed, where the writer does not refuse it.
fn put_file(listing: Listing, file: &mut [u8]) -> usize
    requires { Counted listing }
    ensures { FileOf listing file.old file.new result }
{
    let fans = listing.fans;
    let n = fans.count;
    let survival = fans.survival;
    let weights = fans.weights;
    let boards = fans.boards;
    let g = listing.boards;
    let switchboards = listing.switchboards;
    let typed = listing.systems;
    let numbers = typed_lists::listed::numbers(typed, n as u16);
    let end = typed.count * PER_SYSTEM;
    let written = writer::write_deck(
        listing.version,
        &survival[..n],
        &weights[..n],
        &boards[..n],
        &switchboards[..g],
        &numbers[..end],
        file,
    );
    match written {
        Writing::Written(size) => size as usize,
        Writing::Refused(_number) => 0,
    }
}

// The file and what is said of its systems; or the faults alone.
pub fn make(listing: Listing, file: &mut [u8], out: &mut [u8]) -> Made
    requires sane { Sane listing out.old }
    requires room { (file_room ≤ length file.old) × (warnings_room ≤ length out.old) }
    ensures { MadeOf listing out.old file.new out.new result }
{
    let told = listing.told;
    if told.count != 0 {
        return Made {
            size: 0,
            end: told.end,
        };
    }
    let typed = listing.systems;
    let size = put_file(listing, file);
    let end = put_warnings(&file[..size], typed.count, out);
    Made { size, end }
}
