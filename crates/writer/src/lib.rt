// The deck file's writer, requests 01, 08 and 11 of document 02: version, lists and systems in, the file's bytes out
// into lent room.
#![tactic(auto)]

pub mod bytes; // bytes.rt: numbers as bytes, laid over a room

ghost use Rattle.std.specs.Prelude.{◌≡◌, ◌/◌, length};
ghost use Rattle.rules.specs.Boards.{boards_read};
ghost use Rattle.rules.specs.Refusal.{refusal_in};
ghost use Rattle.rules.specs.File.{per_system, file_length, header_of};
ghost use Rattle.rules.specs.Writing.{typed_of, bytes_for, bad_fives, write_refusal};
ghost use Rattle.writer.specs.Laid.{laid};
ghost use Rattle.writer.specs.Outcome.{Sized, Heads, Wrote};

use rules::refusal::Refusal;
use rules::{Writing, limit};

// A system is typed as five numbers: kind, first, second, a, b.
const PER_SYSTEM: usize = 5;

// 12: the number of systems is not 1..32, or the last one is a part.
fn bad_fives(count: usize) -> bool
    ensures { result ≡ bad_fives count }
{
    if count % PER_SYSTEM != 0 {
        return true;
    }
    refusals::outside(1, (count / PER_SYSTEM) as u64, limit::SYSTEMS as u64)
}

// How long the file is: of the boards' numbers, those that the version has.
fn file_size(version: u64, n: usize, switchboards: &[u32], systems: &[u16]) -> usize
    requires { Sized version n switchboards.now systems.now }
    ensures { result ≡ file_length version n (length (boards_read version switchboards.now))
        (length systems.now / per_system) }
{
    let own = board_lists::numbers_read(version, switchboards);
    layout::file_length(version, n, own.len(), systems.len() / PER_SYSTEM)
}

// Refusals 11, 2, 5, 12, 20, 21 and 16, checked in that order.
fn refusal(
    version: u64,
    survival: &[u32],
    weights: &[u16],
    boards: &[u8],
    switchboards: &[u32],
    systems: &[u16],
    room: &[u8],
) -> Result<(), Refusal>
    ensures { refusal_in result ≡ write_refusal (typed_of version survival.now weights.now
        boards.now switchboards.now systems.now) room.now }
{
    if refusals::version_out(version) {
        return Err(Refusal::Version);
    }
    let n = survival.len();
    if refusals::size_out(n as u64) {
        return Err(Refusal::Size);
    }
    let unpaired = weights.len() != n;
    let bad_systems = bad_fives(systems.len());
    if unpaired {
        return Err(Refusal::Weights);
    }
    if bad_systems {
        return Err(Refusal::Systems);
    }
    board_lists::refusal(version, n, switchboards.len() as u64, boards, 0, n)?;
    if room.len() < file_size(version, n, switchboards, systems) {
        return Err(Refusal::Room);
    }
    Ok(())
}

// The header of a file of n fans, g boards and m systems: its version and counts in two bytes each, then its offsets in
// four, and g and the offset of the board bytes where the version has them.
pub fn put_header(version: u64, n: usize, g: usize, m: usize, room: &mut [u8])
    requires { Heads version n g m room.old }
    ensures { room.new ≡ laid 0 (header_of version n g m) room.old }
{
    let counts = [version as u16, 0, n as u16, m as u16];
    bytes::put_all2(&counts, room, layout::VERSION_FIELD);
    let header = layout::header_length(version) as u32;
    let weights = layout::weights_offset(version, n) as u32;
    let systems = layout::systems_offset(version, n, g) as u32;
    let offsets = [header, weights, systems];
    bytes::put_all4(&offsets, room, layout::SURVIVAL_FIELD);
    let boards = layout::boards_offset(version, n) as u32;
    let last = [g as u32, boards];
    bytes::put_all4(
        board_lists::numbers_read(version, &last),
        room,
        layout::BOARD_COUNT_FIELD,
    );
}

// The file of what is not refused, from the room's front on.
fn put_file(
    version: u64,
    survival: &[u32],
    weights: &[u16],
    boards: &[u8],
    switchboards: &[u32],
    systems: &[u16],
    room: &mut [u8],
)
    requires { write_refusal (typed_of version survival.now weights.now boards.now switchboards.now
        systems.now) room.old ≡ 0 }
    ensures { room.new ≡ laid 0
        (bytes_for (typed_of version survival.now weights.now boards.now
        switchboards.now systems.now)) room.old }
{
    let n = survival.len();
    let placed = board_lists::boards_read(version, boards, 0, n);
    let own = board_lists::numbers_read(version, switchboards);
    put_header(version, n, own.len(), systems.len() / PER_SYSTEM, room);
    bytes::put_all4(survival, room, layout::header_length(version));
    bytes::put_all2(weights, room, layout::weights_offset(version, n));
    bytes::put_all1(placed, room, layout::boards_offset(version, n));
    bytes::put_all4(own, room, layout::board_survival_offset(version, n));
    bytes::put_all2(systems, room, layout::systems_offset(version, n, own.len()));
}

// Writes the deck file into the room's front and answers its length, or writes nothing and answers the refusal. No rule
// and no survival number is judged.
pub fn write_deck(
    version: u64,
    survival: &[u32],
    weights: &[u16],
    boards: &[u8],
    switchboards: &[u32],
    systems: &[u16],
    room: &mut [u8],
) -> Writing
    ensures { Wrote (typed_of version survival.now weights.now boards.now
        switchboards.now systems.now) room.old room.new result }
{
    if let Err(refused) = refusal(
        version,
        survival,
        weights,
        boards,
        switchboards,
        systems,
        room,
    ) {
        return Writing::Refused(refused.number());
    }
    put_file(
        version,
        survival,
        weights,
        boards,
        switchboards,
        systems,
        room,
    );
    Writing::Written(file_size(version, survival.len(), switchboards, systems) as u64)
}
