// Mends a deck file, request 14 of document 02: the layout's header over the file's own body, what follows the last
// system cut, and the list of the bytes that are changed.
#![tactic(auto)]

mod changes; // changes.rt: where two lists of bytes differ

ghost use Rattle.std.specs.Prelude.{◌≡◌, [], ◌∷◌, ◌*◌, ◌≤◌, length, replicate};
ghost use Rattle.rules.specs.File.{header_length};
ghost use Rattle.rules.specs.Refusal.{refusal_in, first_of};
ghost use Rattle.rules.specs.Mending.{ends_early, mended, per_change, changes_in, changed_in};
ghost use Rattle.deck.specs.Head.{Given};
ghost use Rattle.writer.specs.Laid.{laid};
ghost use Rattle.mend.specs.Looked.{cut_refusal, Looks, Looked, Sized, header_by};
ghost use Rattle.mend.specs.Outcome.{longest_header, Mended};

use deck::Head;
use layout::number;
use rules::Mending;
use rules::refusal::{self, Refusal};
use writer::bytes as laying;

// The longest header.
const HEADER: usize = 28;

// Refusal 22: the file ends before its last system is whole.
fn cut(bytes: &[u8], head: Head) -> Result<(), Refusal>
    requires { Given bytes.now head }
    ensures { refusal_in result ≡ first_of ((22, ends_early bytes.now) ∷ []) }
{
    if bytes.len() < deck::length_given(head) {
        return Err(Refusal::Cut);
    }
    Ok(())
}

// Refusals 2, 12, 20 and 22, of a file whose header is there, checked in that order.
fn cut_refusal(bytes: &[u8], head: Head) -> Result<(), Refusal>
    requires { Given bytes.now head }
    ensures { refusal_in result ≡ cut_refusal bytes.now }
{
    let counted = deck::counts_refusal(head);
    let whole = cut(bytes, head);
    counted.and(whole)
}

// Looks at a file: its refusal, 10, 11 for the version only, 10 again, 2, 12, 20 and 22, checked in that order, or its
// head.
fn look(bytes: &[u8]) -> Result<Head, Refusal>
    ensures { Looks bytes.now result }
{
    if bytes.len() < layout::SHORTEST_HEADER {
        return Err(Refusal::Short);
    }
    let version = number::number2(bytes, layout::VERSION_FIELD);
    if refusals::version_out(version) {
        return Err(Refusal::Version);
    }
    if bytes.len() < layout::header_length(version) {
        return Err(Refusal::Short);
    }
    let head = deck::head_given(bytes, version);
    cut_refusal(bytes, head)?;
    Ok(head)
}

// How long the header is.
fn header_given(head: Head) -> usize
    ensures { (result ≡ header_length head.version) × (result ≤ longest_header) }
{
    let version = head.version;
    layout::header_length(version)
}

// The layout's header for a head, laid over a room's front.
fn put_head(head: Head, room: &mut [u8])
    requires sized { Sized head }
    requires fits { header_length head.version ≤ length room.old }
    ensures { room.new ≡ laid 0 (header_by head) room.old }
{
    writer::put_header(head.version, head.fans, head.boards, head.systems, room);
}

// The same by itself, with zeros behind it where it is the shorter one.
fn header_for(head: Head) -> [u8; HEADER]
    requires { Sized head }
    ensures { result ≡ laid 0 (header_by head) (replicate longest_header 0) }
{
    let mut header = [0u8; HEADER];
    put_head(head, &mut header);
    header
}

// The mended file: that header, and the file's own bytes from there to its end.
fn put_mended(bytes: &[u8], head: Head, room: &mut [u8])
    requires looked { Looked bytes.now head }
    requires fits { length (mended bytes.now) ≤ length room.old }
    ensures { room.new ≡ laid 0 (mended bytes.now) room.old }
{
    put_head(head, room);
    let from = header_given(head);
    let upto = deck::length_given(head);
    laying::put_all1(&bytes[from..upto], room, from);
}

// How many bytes that changes: all of them are in the header.
fn changed_in(bytes: &[u8], head: Head) -> usize
    requires { Looked bytes.now head }
    ensures { (result ≡ changed_in bytes.now) × (result ≤ longest_header) }
{
    let header = header_for(head);
    let upto = header_given(head);
    changes::changed(bytes, &header, upto)
}

// The list of these.
fn put_list(bytes: &[u8], head: Head, list: &mut [u64])
    requires looked { Looked bytes.now head }
    requires fits { per_change * changed_in bytes.now ≤ length list.old }
    ensures { list.new ≡ laid 0 (changes_in bytes.now) list.old }
{
    let header = header_for(head);
    let upto = header_given(head);
    changes::put_changes(bytes, &header, upto, list);
}

// Mends a file by its head, where both rooms are long enough; else nothing is written.
fn mend_by(bytes: &[u8], head: Head, room: &mut [u8], list: &mut [u64]) -> Mending
    requires { Looked bytes.now head }
    ensures { let file = bytes.now in
        Mended file room.old list.old room.new list.new result }
{
    let size = deck::length_given(head);
    if room.len() < size {
        return Mending::Refused(refusal::ROOM);
    }
    let changed = changed_in(bytes, head);
    if list.len() < changes::PER_CHANGE * changed {
        return Mending::Refused(refusal::ROOM);
    }
    put_mended(bytes, head, room);
    put_list(bytes, head, list);
    let whole = bytes.len();
    let cut = whole - size;
    Mending::Mended {
        size: size as u64,
        changed: changed as u64,
        cut: cut as u64,
    }
}

// Writes the mended file into the room's front and the list of changes into the list's, and answers how many bytes each
// takes and how many are cut; or writes nothing and answers the refusal. No rule, no survival number and no board
// number is judged.
pub fn mend(bytes: &[u8], room: &mut [u8], list: &mut [u64]) -> Mending
    ensures { let file = bytes.now in
        Mended file room.old list.old room.new list.new result }
{
    match look(bytes) {
        Ok(head) => mend_by(bytes, head, room, list),
        Err(refused) => Mending::Refused(refused.number()),
    }
}
