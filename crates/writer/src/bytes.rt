// Numbers as bytes, "little-endian", laid over a room from a place on.
ghost use Rattle.std.specs.Prelude.{◌≡◌, ◌+◌, ◌*◌, ◌≤◌, length};
ghost use Rattle.rules.specs.File.{bytes_of, all_bytes};
ghost use Rattle.writer.specs.Laid.{laid};

// The numbers that a byte holds, and that two bytes hold.
const BYTE: u16 = 256;

const TWO_BYTES: u32 = 65536;

// A number in one byte.
fn put1(x: u8, room: &mut [u8], at: usize)
    requires { at + 1 ≤ length room.old }
    ensures { room.new ≡ laid at (bytes_of 1 x) room.old }
{
    room[at] = x;
}

// A number in two bytes, lowest first.
fn put2(x: u16, room: &mut [u8], at: usize)
    requires { at + 2 ≤ length room.old }
    ensures { room.new ≡ laid at (bytes_of 2 x) room.old }
{
    let low = (x % BYTE) as u8;
    let high = (x / BYTE) as u8;
    room[at] = low;
    room[at + 1] = high;
}

// A number in four bytes, lowest first.
fn put4(x: u32, room: &mut [u8], at: usize)
    requires { at + 4 ≤ length room.old }
    ensures { room.new ≡ laid at (bytes_of 4 x) room.old }
{
    put2((x % TWO_BYTES) as u16, room, at);
    put2((x / TWO_BYTES) as u16, room, at + 2);
}

// The numbers of a list in a byte each, one after the other. `copy_from_slice` would need `memmove`, which the archives
// for C do without.
pub fn put_all1(numbers: &[u8], room: &mut [u8], at: usize)
    requires { at + 1 * length numbers.now ≤ length room.old }
    ensures { room.new ≡ laid at (all_bytes 1 numbers.now) room.old }
{
    for (i, number) in numbers.iter().enumerate() {
        put1(*number, room, at + 1 * i);
    }
}

// In two bytes each.
pub fn put_all2(numbers: &[u16], room: &mut [u8], at: usize)
    requires { at + 2 * length numbers.now ≤ length room.old }
    ensures { room.new ≡ laid at (all_bytes 2 numbers.now) room.old }
{
    for (i, number) in numbers.iter().enumerate() {
        put2(*number, room, at + 2 * i);
    }
}

// And in four.
pub fn put_all4(numbers: &[u32], room: &mut [u8], at: usize)
    requires { at + 4 * length numbers.now ≤ length room.old }
    ensures { room.new ≡ laid at (all_bytes 4 numbers.now) room.old }
{
    for (i, number) in numbers.iter().enumerate() {
        put4(*number, room, at + 4 * i);
    }
}
