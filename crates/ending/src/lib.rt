// Where a file ends in a stream: how many bytes it asks for, by what is there of it.
#![tactic(auto)]

ghost use Rattle.std.specs.Prelude.{◌≡◌, ◌≤◌};
ghost use Rattle.ending.specs.Ending.{asks, longest};

use layout::number;

// The most that it asks for.
pub const LONGEST: usize = 812;

// First its header, then what its counts say; a refused header asks for nothing behind it.
pub fn asks(bytes: &[u8]) -> usize
    ensures { (result ≡ asks bytes.now) × (result ≤ longest) }
{
    if bytes.len() < layout::SHORTEST_HEADER {
        return layout::SHORTEST_HEADER;
    }
    let version = number::number2(bytes, layout::VERSION_FIELD);
    let header = layout::header_length(version);
    if bytes.len() < header {
        return header;
    }
    if deck::bad_start(bytes, version) {
        return header;
    }
    let head = deck::head_given(bytes, version);
    if let Err(_) = deck::counts_refusal(head) {
        return header;
    }
    deck::length_given(head)
}
