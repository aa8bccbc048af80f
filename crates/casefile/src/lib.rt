// Case files of the case-running programs: words of 64 bits, lowest byte first, and lent tables that are checked cell
// by cell.
#![tactic(auto)]

pub mod cases; // cases.rt: what the cases of several programs share
pub mod streams; // streams.rt: the input and the output of a program that runs them
pub mod tables; // tables.rt: what a lent table holds before a call, and the checksum of what it holds after
pub mod words; // words.rt: words read from a file's bytes

ghost use Rattle.std.specs.Prelude.{◌≡◌, replicate};
ghost use Rattle.casefile.specs.Rooms.{most_bytes, most_numbers};

// The bytes of a case file, or of the lines that answer it, and the numbers of one of a case's lists, at most.
pub const MOST_BYTES: usize = 1572864;

pub const MOST_NUMBERS: usize = 256;

// Room for a case file, or for the lines that answer it.
pub fn room() -> [u8; MOST_BYTES]
    ensures { result ≡ replicate most_bytes 0 }
{
    [0; MOST_BYTES]
}

// Room for the weights of a case, and for the numbers of its further pairs.
pub fn weights_room() -> [u16; MOST_NUMBERS]
    ensures { result ≡ replicate most_numbers 0 }
{
    [0; MOST_NUMBERS]
}

pub fn more_room() -> [u64; MOST_NUMBERS]
    ensures { result ≡ replicate most_numbers 0 }
{
    [0; MOST_NUMBERS]
}
