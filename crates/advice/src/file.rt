// Why a deck file is refused.
ghost use Rattle.std.specs.Prelude.{◌≡◌};
ghost use Rattle.deck.specs.Head.{Versioned, Given};
ghost use Rattle.advice.specs.File.{laid_why, counts_why, header_why, file_why};

use crate::cause::Cause;
use crate::why::{self, Why};
use deck::Head;
use layout::number;
use rules::limit;

// By its layout and its fans' boards.
fn laid_why(file: &[u8], head: Head) -> Why
    requires { Given file.now head }
    ensures { result ≡ laid_why file.now }
{
    let length = deck::length_given(head);
    if file.len() < length {
        return why::because(Cause::EndsEarly, file.len() as u64, length as u64, 0, 0);
    }
    if deck::bad_layout(file, head) {
        return why::because(Cause::LaidWrongly, 0, 0, 0, 0);
    }
    why::because(Cause::BoardPastLast, head.boards as u64, 0, 0, 0)
}

// By its counts.
fn counts_why(file: &[u8], head: Head) -> Why
    requires { Given file.now head }
    ensures { result ≡ counts_why file.now }
{
    let n = head.fans as u64;
    if refusals::size_out(n) {
        return why::because(Cause::FansOut, n, 0, 0, 0);
    }
    let m = head.systems as u64;
    if refusals::outside(1, m, limit::SYSTEMS as u64) {
        return why::because(Cause::SystemsOut, m, 0, 0, 0);
    }
    let g = head.boards as u64;
    if board_lists::boards_out(head.version, g) {
        return why::because(Cause::BoardsOut, g, 0, 0, 0);
    }
    laid_why(file, head)
}

// By the rest of a header of some version.
fn header_why(file: &[u8], version: u64) -> Why
    requires { Versioned file.now version }
    ensures { result ≡ header_why file.now }
{
    let zeros = number::number2(file, layout::ZERO_FIELD);
    if zeros != 0 {
        return why::because(Cause::ZeroFieldSet, zeros, 0, 0, 0);
    }
    let header = layout::header_length(version);
    if file.len() < header {
        return why::because(Cause::HeaderShort, file.len() as u64, header as u64, 0, 0);
    }
    let head = deck::head_given(file, version);
    counts_why(file, head)
}

// Why a file is refused.
pub fn file_why(file: &[u8]) -> Why
    ensures { result ≡ file_why file.now }
{
    if file.len() < layout::SHORTEST_HEADER {
        return why::because(
            Cause::HeaderShort,
            file.len() as u64,
            layout::SHORTEST_HEADER as u64,
            0,
            0,
        );
    }
    let version = number::number2(file, layout::VERSION_FIELD);
    if refusals::version_out(version) {
        return why::because(Cause::UnknownVersion, version, 0, 0, 0);
    }
    header_why(file, version)
}
