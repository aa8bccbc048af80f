// The rule's windows: brackets under the row, an arc on the ring, and which fans they hold.
ghost use Rattle.std.specs.Prelude.{◌≤◌, length};
ghost use Rattle.drawn.specs.Drawn.{Drawable, most_drawn};
ghost use Rattle.forms.specs.Within.{Within};

use crate::bars::FAN;
use drawn::Shape;

// A bracket under the fans from one to another.
fn put_bracket(bracket: &[u8], from: u64, upto: u64, y: u64, out: &mut [u8], at: usize) -> usize
    requires within { (1 ≤ from) × (from ≤ most_drawn) × (upto ≤ most_drawn) }
    requires room { at ≤ length out.old }
    ensures { Within result out.new }
{
    let numbers = [from * FAN - 9, y, upto * FAN, 0, 0, 0];
    forms::put_form(bracket, numbers, out, at)
}

// The first fan of the last window: on a ring the last fan.
fn last_from(shape: Shape) -> u64
    requires { Drawable shape × (1 ≤ shape.window) }
    ensures { (1 ≤ result) × (result ≤ most_drawn) }
{
    if shape.ring {
        return shape.upto;
    }
    shape.upto + 1 - shape.window
}

// The last fan of the last window.
fn last_upto(shape: Shape) -> u64
    requires { Drawable shape × (1 ≤ shape.window) }
    ensures { result ≤ most_drawn }
{
    if shape.ring && shape.window != 1 {
        return shape.from + shape.window - 2;
    }
    shape.upto
}

// The last window: up to the last fan, and on with the first ones where it goes round.
fn put_last(shape: Shape, y: u64, out: &mut [u8], at: usize) -> usize
    requires within { Drawable shape × (1 ≤ shape.window) }
    requires room { at ≤ length out.old }
    ensures { Within result out.new }
{
    let dashed = b"<path class='window last' d='M# #v5H#v-5'/>";
    let end = put_bracket(dashed, last_from(shape), shape.upto, y, out, at);
    if !shape.ring || shape.window == 1 {
        return end;
    }
    put_bracket(dashed, shape.from, last_upto(shape), y, out, end)
}

// The first window and the last, where the rule has windows.
pub fn put_brackets(shape: Shape, y: u64, out: &mut [u8], at: usize) -> usize
    requires within { Drawable shape × (y ≤ 1000) }
    requires room { at ≤ length out.old }
    ensures { Within result out.new }
{
    if shape.window == 0 {
        return at;
    }
    let first = put_bracket(
        b"<path class='window' d='M# #v5H#v-5'/>",
        shape.from,
        shape.from + shape.window - 1,
        y,
        out,
        at,
    );
    put_last(shape, y + 8, out, first)
}

// The windows in words, where the rule has any.
pub fn put_words(shape: Shape, out: &mut [u8], at: usize) -> usize
    requires within { Drawable shape }
    requires room { at ≤ length out.old }
    ensures { Within result out.new }
{
    if shape.window == 0 {
        return at;
    }
    let numbers = [
        shape.from,
        shape.from + shape.window - 1,
        last_from(shape),
        last_upto(shape),
        0,
        0,
    ];
    forms::put_form(
        b"<p>windows: the first is fans # to #, the last # to #</p>\n",
        numbers,
        out,
        at,
    )
}

// How large the dots of a ring of so many fans are, so that they stay apart.
fn dot_of(size: u64) -> u64 {
    if size <= 32 { 5 } else { 3 }
}

// The ring: a dot for each fan of the stretch, the first one on top and named, and the first window as an arc outside.
pub fn put_ring(shape: Shape, out: &mut [u8], at: usize) -> usize
    requires within { Drawable shape × (1 ≤ shape.window) }
    requires room { at ≤ length out.old }
    ensures { Within result out.new }
{
    let size = shape.upto + 1 - shape.from;
    let numbers = [dot_of(size), size, size, shape.window - 1, size, shape.from];
    forms::put_form(
        b"<svg class='ring' viewBox='-50 -50 100 100' role='img' aria-label='the ring'><g transform='rotate(-90)'><circle class='fans' r='40' stroke-dasharray='0 1' style='stroke-width:#' pathLength='#'/><circle class='window' r='46' pathLength='#' stroke-dasharray='#.2 #'/></g><text text-anchor='middle' font-size='16' y='-18'>#</text></svg>\n",
        numbers,
        out,
        at,
    )
}
