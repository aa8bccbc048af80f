// Forms: texts with marks that numbers are filled in for. What the buffer has no room for is left out, as by
// `text::put`.
#![tactic(auto)]

ghost use Rattle.std.specs.Prelude.{◌≡◌, [], ◌∷◌, suc, ◌^◌, ◌≤◌, ◌<◌, length};
ghost use Rattle.forms.specs.Form.{mark_text, part_text, next_place, form_text, form_room, PutText};

// A form has no more marks.
pub const MARKS: usize = 6;

// The mark, `#`.
const MARK: u8 = 35;

// One byte.
fn put_byte(byte: u8, out: &mut [u8], at: usize) -> usize
    requires { at ≤ length out.old }
    ensures { PutText (byte ∷ []) 1 out.old at out.new result }
{
    if at == out.len() {
        return at;
    }
    out[at] = byte;
    at + 1
}

// The number at a place, where there is one.
fn put_mark(numbers: [u64; MARKS], k: usize, out: &mut [u8], at: usize) -> usize
    requires { at ≤ length out.old }
    ensures { let t = mark_text numbers k in
        PutText t (length t) out.old at out.new result }
{
    if k >= MARKS {
        return at;
    }
    text::put_number(out, at, numbers[k])
}

// A byte of a form, or for a mark that number.
fn put_part(byte: u8, numbers: [u64; MARKS], k: usize, out: &mut [u8], at: usize) -> usize
    requires { at ≤ length out.old }
    ensures { let t = part_text byte numbers k in
        PutText t (length t) out.old at out.new result }
{
    if byte == MARK {
        return put_mark(numbers, k, out, at);
    }
    put_byte(byte, out, at)
}

// The place of the number for the next mark.
fn next(byte: u8, k: usize) -> usize
    requires { suc k < 2 ^ 64 }
    ensures { result ≡ next_place byte k }
{
    if byte == MARK { k + 1 } else { k }
}

// A form, its marks filled in with the numbers one after another; those that it has no mark for stay out.
pub fn put_form(form: &[u8], numbers: [u64; MARKS], out: &mut [u8], at: usize) -> usize
    requires { at ≤ length out.old }
    ensures { let t = form_text form.now numbers in
        PutText t (form_room form.now) out.old at out.new result }
{
    let mut end = at;
    let mut k: usize = 0;
    for byte in form {
        end = put_part(*byte, numbers, k, out, end);
        k = next(*byte, k);
    }
    end
}
