// Refusals in words, and what to do about them.
#![tactic(auto)]

pub mod cause; // cause.rt: the causes, and their forms
pub mod file; // file.rt: why a file is refused
pub mod system; // system.rt: why a system is refused
pub mod why; // why.rt: the cause of a refusal, by the numbers at hand

ghost use Rattle.std.specs.Prelude.{◌≡◌, ◌≤◌, length};
ghost use Rattle.forms.specs.Form.{PutText};
ghost use Rattle.advice.specs.Words.{numbers_of, why_text, why_room};

use why::Why;

// The numbers that a form is filled with.
fn numbers_of(why: Why) -> [u64; forms::MARKS]
    ensures { result ≡ numbers_of why }
{
    [why.a, why.b, why.c, why.d, 0, 0]
}

// Puts why something is refused, and what to do about it.
pub fn put_why(why: Why, out: &mut [u8], at: usize) -> usize
    requires { at ≤ length out.old }
    ensures { PutText (why_text why) why_room out.old at out.new result }
{
    forms::put_form(cause::form_of(why.cause), numbers_of(why), out, at)
}

// The same as a paragraph of a page, behind the refusal's number.
pub fn put_paragraph(number: u64, why: Why, out: &mut [u8], at: usize) -> usize
    requires { at ≤ length out.old }
    ensures { result ≤ length out.new }
{
    let numbers = [number, 0, 0, 0, 0, 0];
    let refused = forms::put_form(b"<p><b>refused #:</b> ", numbers, out, at);
    let words = put_why(why, out, refused);
    text::put(out, words, b"</p>\n")
}
