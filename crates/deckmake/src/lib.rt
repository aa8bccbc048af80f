// Makes the deck file that a text lists, or says what cannot be read of it.
#![tactic(auto)]

mod heard; // heard.rt: the loop over a text of any length

ghost use Rattle.std.specs.Prelude.{◌+◌, ◌≤◌, ◌<◌, length};
ghost use Rattle.listing.specs.Holds.{most_lines};
ghost use Rattle.making.specs.Lines.{warnings_room};
ghost use Rattle.making.specs.Made.{file_room};
ghost use Rattle.shell.specs.Status.{Status};
ghost use Rattle.text_stream.specs.Feeding.{line_room, Sane};
ghost use Rattle.deckmake.specs.Made.{MadeFrom, EndsBy};

use heard::Text;
use making::Made;
use shell::starting;
use text_stream::Feeding;

const PROGRAM: [u8; 8] = *b"deckmake";

const SYNOPSIS: [u8; 15] = *b"[-o OUT] [TEXT]";

const OPTIONS: [u8; 12] = *b"-o         =";

const OUT: usize = 0;

// Makes the deck of all bytes that were fed, and says what is to be said of it.
fn make_fed(feeding: Feeding, line: &[u8], file: &mut [u8], out: &mut [u8]) -> Made
    requires sane { Sane feeding out.old × (feeding.listing.lines + 1 < most_lines) }
    requires line_room_in_bounds { (line_room ≤ length line.now) ×
        (file_room ≤ length file.old) × (warnings_room ≤ length out.old) }
    ensures { MadeFrom feeding line.now out.old file.new out.new result }
{
    let listing = text_stream::finish(feeding, line, out);
    making::make(listing, file, out)
}

// Hands that over.
fn hand_fed(rt: &HostRuntime, feeding: Feeding, line: &[u8], out: &mut [u8], place: usize) -> i32
    requires sane { Sane feeding out.old × (feeding.listing.lines + 1 < most_lines) }
    requires line_room_in_bounds { (line_room ≤ length line.now) × (warnings_room ≤ length out.old) }
    ensures ends_by { EndsBy feeding line.now out.old result }
    ensures status { Status result }
{
    let mut file = [0u8; making::FILE];
    let made = make_fed(feeding, line, &mut file, out);
    let size = made.size;
    let end = made.end;
    starting::hand_over(rt, &PROGRAM, place, &file[..size], &out[..end])
}

// The same of what was read of a text; nothing is made of one that could not be read.
fn hand_text(rt: &HostRuntime, text: Text, line: &[u8], out: &mut [u8], place: usize) -> i32
    requires sane { Sane text.feeding out.old × (text.feeding.listing.lines + 1 < most_lines) }
    requires line_room_in_bounds { (line_room ≤ length line.now) × (warnings_room ≤ length out.old) }
    ensures ends_by { EndsBy text.feeding line.now out.old result }
    ensures status { Status result }
{
    if text.failed {
        return shell::FAILED;
    }
    let feeding = text.feeding;
    hand_fed(rt, feeding, line, out, place)
}

// What the program does, by its words: its status.
pub fn run(rt: &HostRuntime) -> i32
    ensures { Status result }
{
    let heard = starting::hear(rt, &PROGRAM, &SYNOPSIS, &OPTIONS, 1);
    if heard.ended {
        return heard.status;
    }
    let asked = heard.asked;
    let mut line = [0u8; text_stream::LINE];
    let mut out = [0u8; making::SAID];
    let text = heard::read_asked(rt, asked, &mut line, &mut out);
    hand_text(rt, text, &line, &mut out, asked.given[OUT])
}
