// The worth of each fan of the deck as a bar, in deck order, over the deck's fans as dots.
ghost use Rattle.std.specs.Prelude.{◌+◌, ◌*◌, ◌≤◌, length};
ghost use Rattle.rules.specs.State.{S};
ghost use Rattle.drawn.specs.Drawn.{Drawable, most_drawn};
ghost use Rattle.forms.specs.Within.{Within};
ghost use Rattle.drawing.specs.Drawing.{most_line, most_letters};

use crate::brackets;
use drawn::{Shape, Worths};
use rules::limit::FANS;
use text::lines;

// Such a part of the largest end is too little to be seen.
const UNSEEN: u64 = 100;

// A fan is so many steps wide; of these the lower end's bar begins after one, the upper end's after five.
pub const FAN: u64 = 10;

const LOWER: u64 = 1;

const UPPER: u64 = 5;

// Decks of fewer fans are drawn as wide as one of so many; up to the second number every fourth fan is numbered.
const FEW: u64 = 24;

const SOME: u64 = 32;

// How far down the line is that the bars of many fans stand on, and the height of the tallest there in hundredths of a
// step; of few fans half of both.
const TALL: u64 = 100;

const TALLEST: u64 = 9500;

// How far down the line is: farther where the drawing is wide, so that bars are as tall on the page.
fn line_of(fans: u64) -> u64
    ensures { result ≤ most_line }
{
    if fans <= SOME { TALL / 2 } else { TALL }
}

// An end's height in hundredths of a step: that of the largest is a little less than the line's own.
fn height_of(end: i64, largest: u64, line: u64) -> u64
    requires { largest ≤ S }
{
    if largest == 0 {
        return 0;
    }
    let height = drawn::bounded(0, lines::absolute(end), largest) * TALLEST / largest;
    if line == TALL { height } else { height / 2 }
}

// One bar, from the line up or down: up from the line is less in a drawing.
fn put_bar(x: u64, end: i64, largest: u64, line: u64, out: &mut [u8], at: usize) -> usize
    requires within { largest ≤ S }
    requires room { at ≤ length out.old }
    ensures { Within result out.new }
{
    let numbers = [x, line, height_of(end, largest, line), line, 0, 0];
    if end < 0 {
        return forms::put_form(b"M# #v#e-2h4V#z", numbers, out, at);
    }
    forms::put_form(b"M# #v-#e-2h4V#z", numbers, out, at)
}

// A fan's bar for one end; none for 0.
fn put_end(
    i: u64,
    shift: u64,
    end: i64,
    largest: u64,
    line: u64,
    out: &mut [u8],
    at: usize,
) -> usize
    requires within { (largest ≤ S) × (i ≤ most_drawn) × (shift ≤ 10) }
    requires room { at ≤ length out.old }
    ensures { Within result out.new }
{
    if end == 0 {
        return at;
    }
    put_bar(i * FAN + shift, end, largest, line, out, at)
}

// One end's bars, of all fans.
fn put_ends(
    ends: [i64; FANS],
    shift: u64,
    largest: u64,
    line: u64,
    out: &mut [u8],
    at: usize,
) -> usize
    requires within { (largest ≤ S) × (shift ≤ 10) }
    requires room { at ≤ length out.old }
    ensures { Within result out.new }
{
    let mut end = at;
    for (i, worth) in ends.iter().enumerate() {
        end = put_end(i as u64, shift, *worth, largest, line, out, end);
    }
    end
}

// Both ends' bars.
fn put_bars(worths: Worths, line: u64, out: &mut [u8], at: usize) -> usize
    requires { at ≤ length out.old }
    ensures { Within result out.new }
{
    let largest = drawn::largest_of(worths);
    let lower = worths.lower;
    let upper = worths.upper;
    let first = text::put(out, at, b"<path class='lower' d='");
    let black = put_ends(lower, LOWER, largest, line, out, first);
    let second = text::put(out, black, b"'/><path class='upper' d='");
    let white = put_ends(upper, UPPER, largest, line, out, second);
    text::put(out, white, b"'/>")
}

// How wide the drawing is.
fn width_of(fans: u64) -> u64
    requires { fans ≤ most_drawn }
    ensures { result ≤ 640 }
{
    drawn::bounded(FEW, fans, FANS as u64) * FAN
}

// How large letters are, by the drawing's width.
fn letters_of(fans: u64) -> u64
    requires { fans ≤ most_drawn }
    ensures { result ≤ most_letters }
{
    width_of(fans) / 30 + 2
}

// Dots from one fan to another, in a row.
fn put_row(row: &[u8], from: u64, upto: u64, y: u64, out: &mut [u8], at: usize) -> usize
    requires within { (from ≤ most_drawn) × (upto ≤ most_drawn) × (1 ≤ from) × (1 ≤ upto) }
    requires room { at ≤ length out.old }
    ensures { Within result out.new }
{
    let numbers = [from * FAN - 5, y, upto * FAN - 5, 0, 0, 0];
    forms::put_form(row, numbers, out, at)
}

// Is a fan's number put? The first, and every fourth of few fans, every eighth of many.
fn labelled(fans: u64, fan: u64) -> bool {
    if fan == 1 {
        return true;
    }
    if fans <= SOME {
        return fan % 4 == 0;
    }
    fan % 8 == 0
}

// A fan's number under its dot, where it is put.
fn put_label(fans: u64, fan: u64, y: u64, out: &mut [u8], at: usize) -> usize
    requires within { (1 ≤ fan) × (fan ≤ most_drawn) }
    requires room { at ≤ length out.old }
    ensures { Within result out.new }
{
    if !labelled(fans, fan) {
        return at;
    }
    let numbers = [fan * FAN - 5, y, fan, 0, 0, 0];
    forms::put_form(b"<text x='#' y='#'>#</text>", numbers, out, at)
}

// The numbers of so many fans.
fn put_labels(fans: u64, y: u64, out: &mut [u8], at: usize) -> usize
    requires within { fans ≤ most_drawn }
    requires room { at ≤ length out.old }
    ensures { Within result out.new }
{
    let mut end = at;
    for fan in 1..=fans {
        end = put_label(fans, fan, y, out, end);
    }
    end
}

// How tall the drawing is below its dots' numbers: with brackets where the rule has windows.
fn height_with(window: u64) -> u64
    ensures { result ≤ most_line }
{
    if window == 0 { 5 } else { 23 }
}

// The drawing's frame, a little wider than its fans, and the line that the bars stand on.
fn put_frame(fans: u64, line: u64, height: u64, out: &mut [u8], at: usize) -> usize
    requires within { fans ≤ most_drawn }
    requires room { at ≤ length out.old }
    ensures { Within result out.new }
{
    let numbers = [
        width_of(fans) + 20,
        height,
        letters_of(fans),
        line,
        fans * FAN,
        0,
    ];
    forms::put_form(
        b"<svg class='worth' viewBox='-10 0 # #' role='img' aria-label='worth of each fan' text-anchor='middle' font-size='#'><path class='axis' d='M0 #H#'/>",
        numbers,
        out,
        at,
    )
}

// Is any of so many ends so far below 0?
fn any_below(ends: [i64; FANS], far: u64) -> bool {
    ends.iter().any(|end| is_below(*end, far))
}

// Is an end so far below 0?
fn is_below(end: i64, far: u64) -> bool {
    if end >= 0 {
        return false;
    }
    lines::absolute(end) > far
}

// Does any bar go down from the line, so far that it can be seen? The lower end does where the upper one does.
fn goes_down(worths: Worths) -> bool {
    let lower = worths.lower;
    any_below(lower, drawn::largest_of(worths) / UNSEEN)
}

// How far down the dots are: below all bars.
fn dots_of(worths: Worths, line: u64) -> u64
    requires { line ≤ most_line }
    ensures { result ≤ 2 * most_line + 10 }
{
    if goes_down(worths) {
        return 2 * line + 10;
    }
    line + 10
}

// The dots of the deck and of the stretch, and their numbers.
fn put_fans(shape: Shape, y: u64, numbers: u64, out: &mut [u8], at: usize) -> usize
    requires within { Drawable shape × (y ≤ 2 * most_line + 10) }
    requires room { at ≤ length out.old }
    ensures { Within result out.new }
{
    let all = put_row(
        b"<path class='all' stroke-dasharray='0 10' d='M# #H#.01'/>",
        1,
        shape.fans,
        y,
        out,
        at,
    );
    let own = put_row(
        b"<path class='fans' stroke-dasharray='0 10' d='M# #H#.01'/>",
        shape.from,
        shape.upto,
        y,
        out,
        all,
    );
    put_labels(shape.fans, numbers, out, own)
}

// The whole drawing.
pub fn put_worths(shape: Shape, worths: Worths, out: &mut [u8], at: usize) -> usize
    requires within { Drawable shape }
    requires room { at ≤ length out.old }
    ensures { Within result out.new }
{
    let line = line_of(shape.fans);
    let dots = dots_of(worths, line);
    let numbers = dots + letters_of(shape.fans) + 3;
    let frame = put_frame(
        shape.fans,
        line,
        numbers + height_with(shape.window),
        out,
        at,
    );
    let bars = put_bars(worths, line, out, frame);
    let fans = put_fans(shape, dots, numbers, out, bars);
    let marked = brackets::put_brackets(shape, numbers + 5, out, fans);
    text::put(out, marked, b"</svg>\n")
}
