// A typed text, fed in pieces of any size: each line is read when it is whole, and what is listed is what all bytes
// that were fed list.
#![tactic(auto)]

ghost use Rattle.std.specs.Prelude.{◌≡◌, ◌++◌, ◌+◌, ◌≤◌, ◌<◌, length, take};
ghost use Rattle.listing.specs.Holds.{most_lines};
ghost use Rattle.text_stream.specs.Feeding.{line_room, Starts, Sane, Fed, Ends};

use listing::Listing;

// Room for a line, a byte more than the longest that is read: a line that fills it is too long, whatever follows.
pub const LINE: usize = 65537;

// What was read of a text: what its lines so far list, and how many bytes of the line at hand are kept in a lent
// buffer.
#[derive(Clone, Copy)]
pub struct Feeding {
    pub listing: Listing,
    pub kept: usize,
}

// Before the first byte.
pub fn start() -> Feeding
    ensures { Starts result }
{
    let listing = listing::none();
    Feeding { listing, kept: 0 }
}

// Keeps more bytes of a line behind those that are kept, and answers how many there are then; what has no room is cut.
fn keep(line: &mut [u8], kept: usize, more: &[u8]) -> usize
    requires { (line_room ≤ length line.old) × (kept ≤ line_room) }
    ensures { (result ≤ line_room) ×
        (take result line.new ≡ take line_room (take kept line.old ++ more.now)) }
{
    let left = LINE - kept;
    if more.len() <= left {
        return text::put(line, kept, more);
    }
    text::put(line, kept, &more[..left])
}

// One piece more, wherever it ends: its first line goes on with what is kept, and its last is kept.
pub fn feed(before: Feeding, piece: &[u8], line: &mut [u8], out: &mut [u8]) -> Feeding
    requires sane { Sane before out.old × (line_room ≤ length line.old) }
    requires piece_bound { before.listing.lines + length piece.now ≤ most_lines }
    ensures { Fed before line.old out.old piece.now result line.new
        out.new }
{
    let old = before.listing;
    let first = listing::lines::line_end(piece, 0);
    let kept = keep(line, before.kept, &piece[..first]);
    if first == piece.len() {
        return Feeding { listing: old, kept };
    }
    let across = listing::read_line(old, &line[..kept], out);
    let tail = &piece[first + 1..];
    let reached = listing::read_lines(across, tail, out);
    let at = reached.at;
    let rest = keep(line, 0, &tail[at..]);
    let listing = reached.listing;
    Feeding {
        listing,
        kept: rest,
    }
}

// The text's end: what is kept is its last line, unless that is empty.
pub fn finish(before: Feeding, line: &[u8], out: &mut [u8]) -> Listing
    requires sane { Sane before out.old × (line_room ≤ length line.now) }
    requires lines_bound { before.listing.lines + 1 < most_lines }
    ensures { Ends before line.now out.old result out.new }
{
    let old = before.listing;
    let kept = before.kept;
    if kept == 0 {
        return listing::last(old, out);
    }
    let read = listing::read_line(old, &line[..kept], out);
    listing::last(read, out)
}
