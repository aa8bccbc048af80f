// The deck file of document 01: it is opened once, into its refusal or its head, and its numbers are read from the
// bytes where they stand.
#![tactic(auto)]

ghost use Rattle.std.specs.Prelude.{◌≡◌, not, false, ◌+◌, ◌^◌, ◌≤◌, ◌<◌, eqb, length, get_or};
ghost use Rattle.rules.specs.Refusal.{most_boards, refusal_in};
ghost use Rattle.rules.specs.File.{most_fans, switchboards_offset, number_at, board_count_in, system_in, deck_in};
ghost use Rattle.rules.specs.File.{bad_start, boards_elsewhere, bad_layout, misplaced_in};
ghost use Rattle.rules.specs.Doubles.{other_refusal};
ghost use Rattle.arrays.specs.Padded.{padded};
ghost use Rattle.deck.specs.Head.{Versioned, Begun, Small, Given};
ghost use Rattle.deck.specs.Head.{lists_elsewhere, boards_by, length_by, counts_refusal};
ghost use Rattle.deck.specs.Outcome.{body_refusal, Opens, Headed, Placed};

use layout::number;
use rules::refusal::Refusal;
use rules::{System, limit};

// A file's head: its version, and how many fans, systems and boards it has, n, m and g.
#[derive(Clone, Copy)]
pub struct Head {
    pub version: u64,
    pub fans: usize,
    pub systems: usize,
    pub boards: usize,
}

// 11: there is no such version, or the zero field is not 0.
pub fn bad_start(bytes: &[u8], version: u64) -> bool
    requires { Versioned bytes.now version }
    ensures { result ≡ bad_start bytes.now }
{
    refusals::version_out(version) | (number::number2(bytes, layout::ZERO_FIELD) != 0)
}

// How many boards a header gives: none where the version has no boards.
fn boards_given(bytes: &[u8], version: u64) -> usize
    requires { Begun bytes.now version }
    ensures { (result ≡ board_count_in bytes.now) × (result < 2 ^ 32) }
{
    if board_lists::has_boards(version) {
        return number::number4(bytes, layout::BOARD_COUNT_FIELD) as usize;
    }
    0
}

// The head that a header gives, whose version was read.
pub fn head_given(bytes: &[u8], version: u64) -> Head
    requires { Begun bytes.now version }
    ensures { Given bytes.now result }
{
    let fans = number::number2(bytes, layout::FANS_FIELD) as usize;
    let systems = number::number2(bytes, layout::COUNT_FIELD) as usize;
    let boards = boards_given(bytes, version);
    Head {
        version,
        fans,
        systems,
        boards,
    }
}

// How long a file is by its head.
pub fn length_given(head: Head) -> usize
    requires { Small head }
    ensures { result ≡ length_by head }
{
    layout::file_length(head.version, head.fans, head.boards, head.systems)
}

// Refusals 2, 12 and 20, of the counts that a head gives.
pub fn counts_refusal(head: Head) -> Result<(), Refusal>
    ensures { refusal_in result ≡ counts_refusal head }
{
    if refusals::outside(1, head.fans as u64, limit::FANS as u64) {
        return Err(Refusal::Size);
    }
    if refusals::outside(1, head.systems as u64, limit::SYSTEMS as u64) {
        return Err(Refusal::Systems);
    }
    if board_lists::boards_out(head.version, head.boards as u64) {
        return Err(Refusal::Boards);
    }
    Ok(())
}

// Is the offset in a field of the header not the layout's?
fn elsewhere(bytes: &[u8], field: usize, from: usize) -> bool
    requires { field + 4 ≤ length bytes.now }
    ensures { result ≡ not (eqb (number_at 4 bytes.now field) from) }
{
    number::number4(bytes, field) as usize != from
}

// Is the offset of the board bytes, where a header has it, not the layout's?
fn boards_elsewhere(bytes: &[u8], head: Head) -> bool
    requires { Given bytes.now head }
    ensures { result ≡ boards_elsewhere bytes.now }
{
    if board_lists::has_boards(head.version) {
        let from = layout::boards_offset(head.version, head.fans);
        return elsewhere(bytes, layout::BOARDS_FIELD, from);
    }
    false
}

// Is one of the other offsets not the layout's?
fn lists_elsewhere(bytes: &[u8], head: Head) -> bool
    requires { Given bytes.now head }
    ensures { result ≡ lists_elsewhere bytes.now }
{
    let version = head.version;
    let n = head.fans;
    let survival = layout::header_length(version);
    let weights = layout::weights_offset(version, n);
    let systems = layout::systems_offset(version, n, head.boards);
    elsewhere(bytes, layout::SURVIVAL_FIELD, survival)
        | elsewhere(bytes, layout::WEIGHTS_FIELD, weights)
        | elsewhere(bytes, layout::SYSTEMS_FIELD, systems)
}

// 13: an offset or the file's length differs from the layout.
pub fn bad_layout(bytes: &[u8], head: Head) -> bool
    requires { Given bytes.now head }
    ensures { result ≡ bad_layout bytes.now }
{
    let offsets = lists_elsewhere(bytes, head) | boards_elsewhere(bytes, head);
    offsets | (bytes.len() != length_given(head))
}

// The board bytes of a file, one for each fan; none where the version has no boards.
fn board_bytes(bytes: &[u8], version: u64, n: usize) -> &[u8]
    requires { (n < 2 ^ 16) × (switchboards_offset version n ≤ length bytes.now) }
    ensures { result.now ≡ boards_by bytes.now version n }
{
    let from = layout::boards_offset(version, n);
    let upto = from + layout::board_fans(version, n);
    &bytes[from..upto]
}

// 21: a fan is on a board that there is not.
fn misplaced(bytes: &[u8], head: Head) -> bool
    requires given { Given bytes.now head }
    requires laid { bad_layout bytes.now ≡ false }
    ensures { result ≡ misplaced_in bytes.now }
{
    let n = head.fans;
    let boards = board_bytes(bytes, head.version, n);
    board_lists::misplaced(head.version, n, head.boards as u64, boards, 0, n)
}

// Refusals 2, 12, 20, 13 and 21, of a file whose header is there.
fn body_refusal(bytes: &[u8], head: Head) -> Result<(), Refusal>
    requires { Given bytes.now head }
    ensures { refusal_in result ≡ body_refusal bytes.now }
{
    counts_refusal(head)?;
    if bad_layout(bytes, head) {
        return Err(Refusal::Layout);
    }
    if misplaced(bytes, head) {
        return Err(Refusal::Board);
    }
    Ok(())
}

// Opens a file: its refusal, checked 10, 11, 10 again, 2, 12, 20, 13, 21, or its head.
pub fn open(file: &[u8]) -> Result<Head, Refusal>
    ensures { Opens file.now result }
{
    if file.len() < layout::SHORTEST_HEADER {
        return Err(Refusal::Short);
    }
    let version = number::number2(file, layout::VERSION_FIELD);
    if bad_start(file, version) {
        return Err(Refusal::Version);
    }
    if file.len() < layout::header_length(version) {
        return Err(Refusal::Short);
    }
    let head = head_given(file, version);
    body_refusal(file, head)?;
    Ok(head)
}

// The refusal of a file that is not of version 1: 10 where it has none, 11 where it has another; version 1 has
// neither, whatever follows.
pub fn other_refusal(bytes: &[u8]) -> Result<(), Refusal>
    ensures { refusal_in result ≡ other_refusal bytes.now }
{
    if bytes.len() < layout::SHORTEST_HEADER {
        return Err(Refusal::Short);
    }
    if number::number2(bytes, layout::VERSION_FIELD) != rules::version::FIRST {
        return Err(Refusal::Version);
    }
    Ok(())
}

// A file's survival numbers, and zeros.
pub fn survival_in(file: &[u8], head: Head) -> [u32; limit::FANS]
    requires { Headed file.now head }
    ensures { result ≡ padded most_fans 0 (deck_in file.now).survival }
{
    let from = layout::header_length(head.version);
    arrays::survival_in(file, from, head.fans)
}

// Its weights, and zeros.
pub fn weights_in(file: &[u8], head: Head) -> [u16; limit::FANS]
    requires { Headed file.now head }
    ensures { result ≡ padded most_fans 0 (deck_in file.now).weights }
{
    let from = layout::weights_offset(head.version, head.fans);
    arrays::weights_in(file, from, head.fans)
}

// Its fans' board numbers, where they stand.
pub fn boards_in(file: &[u8], head: Head) -> &[u8]
    requires { Headed file.now head }
    ensures { result.now ≡ (deck_in file.now).boards }
{
    board_bytes(file, head.version, head.fans)
}

// Its boards' survival numbers, and zeros.
pub fn board_survival_in(file: &[u8], head: Head) -> [u32; limit::BOARDS]
    requires { Headed file.now head }
    ensures { result ≡ padded most_boards 0 (deck_in file.now).switchboards }
{
    let from = layout::board_survival_offset(head.version, head.fans);
    arrays::board_survival_in(file, from, head.boards)
}

// Its system at a place, counted from 0.
pub fn system_in(file: &[u8], head: Head, s: usize) -> System
    requires { Placed file.now head s }
    ensures { result ≡ system_in file.now s }
{
    let from = layout::systems_offset(head.version, head.fans, head.boards);
    arrays::system_at(file, from + layout::SYSTEM_BYTES * s)
}

// The survival number of its fan at a place, counted from 0.
pub fn survival_at(file: &[u8], head: Head, i: usize) -> u64
    requires headed { Headed file.now head }
    requires place { i < head.fans }
    ensures { result ≡ get_or (deck_in file.now).survival i 0 }
{
    let from = layout::header_length(head.version);
    number::number4(file, from + layout::SURVIVAL_BYTES * i)
}

// That fan's weight.
pub fn weight_at(file: &[u8], head: Head, i: usize) -> u64
    requires headed { Headed file.now head }
    requires place { i < head.fans }
    ensures { result ≡ get_or (deck_in file.now).weights i 0 }
{
    let from = layout::weights_offset(head.version, head.fans);
    number::number2(file, from + layout::WEIGHT_BYTES * i)
}

// That fan's board number, 0 where the version has no boards.
pub fn board_at(file: &[u8], head: Head, i: usize) -> u64
    requires { Headed file.now head }
    ensures { result ≡ get_or (deck_in file.now).boards i 0 }
{
    let boards = boards_in(file, head);
    if i < boards.len() {
        return boards[i] as u64;
    }
    0
}

// The survival number of its board at a place, counted from 0.
pub fn board_survival_at(file: &[u8], head: Head, i: usize) -> u64
    requires headed { Headed file.now head }
    requires place { i < head.boards }
    ensures { result ≡ get_or (deck_in file.now).switchboards i 0 }
{
    let from = layout::board_survival_offset(head.version, head.fans);
    number::number4(file, from + layout::SURVIVAL_BYTES * i)
}
