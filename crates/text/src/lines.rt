// Lines put into a buffer that has room for them.
ghost use Rattle.std.specs.Prelude.{◌≡◌, ◌+◌, ◌≤◌, nat_abs, length};
ghost use Rattle.text.specs.Lines.{pair_text, refused_text, pair_room, refused_room};
ghost use Rattle.text.specs.Lines.{signed_named, signed_pair, signed_room, signed_pair_room};
ghost use Rattle.text.specs.Added.{Added};

// Two named numbers.
pub fn put_pair(first: &[u8], a: u64, second: &[u8], b: u64, out: &mut [u8], at: usize) -> usize
    requires { at + pair_room first.now second.now ≤ length out.old }
    ensures { Added (pair_text first.now a second.now b) out.old at
        out.new result }
{
    let middle = crate::put_named(first, a, out, at);
    crate::put_named(second, b, out, middle)
}

// The absolute value: of the least number it has no room in the number's own type.
pub fn absolute(z: i64) -> u64
    ensures { result ≡ nat_abs z }
{
    z.unsigned_abs()
}

// A named signed number.
fn put_signed(name: &[u8], z: i64, out: &mut [u8], at: usize) -> usize
    requires { at + signed_room name.now ≤ length out.old }
    ensures { Added (signed_named name.now z) out.old at out.new result }
{
    let digits = absolute(z);
    if z >= 0 {
        return crate::put_named(name, digits, out, at);
    }
    let sign = crate::put(out, at, name);
    let end = crate::put(out, sign, b"-");
    crate::put_number(out, end, digits)
}

// Two of them.
pub fn put_signed_pair(
    first: &[u8],
    a: i64,
    second: &[u8],
    b: i64,
    out: &mut [u8],
    at: usize,
) -> usize
    requires { at + signed_pair_room first.now second.now ≤ length out.old }
    ensures { Added (signed_pair first.now a second.now b) out.old at
        out.new result }
{
    let middle = put_signed(first, a, out, at);
    put_signed(second, b, out, middle)
}

// ` refused R`, and the line's end.
pub fn put_refused(number: u64, out: &mut [u8], at: usize) -> usize
    requires { at + refused_room ≤ length out.old }
    ensures { Added (refused_text number) out.old at out.new result }
{
    let end = crate::put_named(b" refused ", number, out, at);
    crate::put(out, end, b"\n")
}
