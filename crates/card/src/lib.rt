// One system of the deck: its rule in words, its chance, what its fans are worth; or why it is refused.
#![tactic(auto)]

ghost use Rattle.std.specs.Prelude.{◌≤◌, length};
ghost use Rattle.rules.specs.State.{S};
ghost use Rattle.rules.specs.Within.{WithinUnit};
ghost use Rattle.deck.specs.Outcome.{Placed};
ghost use Rattle.forms.specs.Within.{Within};
ghost use Rattle.drawn.specs.Drawn.{Drawable};

use deck::Head;
use drawing::{bars, brackets};
use drawn::Shape;
use rules::{Rating, System, limit};
use telling::{best, chance, fitted};

// A system's number and its rule in words.
fn put_title(fans: u64, number: u64, system: System, out: &mut [u8]) -> usize
    ensures { Within result out.new }
{
    let rule = system.rule;
    let numbers = [number, 0, 0, 0, 0, 0];
    let named = forms::put_form(b"<section>\n<h2>System #: ", numbers, out, 0);
    let words = fitted::put_rule(rule, out, named);
    let end = fitted::put_stretch(fans, system.a, system.b, out, words);
    text::put(out, end, b"</h2>\n")
}

// The ring, where the rule is of one.
fn put_any_ring(shape: Shape, out: &mut [u8], at: usize) -> usize
    requires within { Drawable shape }
    requires room { at ≤ length out.old }
    ensures { Within result out.new }
{
    if !shape.ring {
        return at;
    }
    if shape.window == 0 {
        return at;
    }
    brackets::put_ring(shape, out, at)
}

// What the fans are worth.
fn put_worth(file: &[u8], head: Head, s: usize, shape: Shape, out: &mut [u8], at: usize) -> usize
    requires placed { Placed file.now head s }
    requires within { Drawable shape }
    requires room { at ≤ length out.old }
    ensures { Within result out.new }
{
    let worths = worths::worths_of(file, head, s);
    let drawn = bars::put_worths(shape, worths, out, at);
    let words = brackets::put_words(shape, out, drawn);
    let ring = put_any_ring(shape, out, words);
    best::put_best(shape, worths, out, ring)
}

// The most that low and high can be apart: one part less than the fans and boards that are rated.
fn most_gap(shape: Shape, g: u64) -> u64
    requires { Drawable shape }
{
    shape.upto - shape.from + drawn::bounded(0, g, limit::FANS as u64)
}

// A system that is answered.
fn put_answer(
    file: &[u8],
    head: Head,
    s: usize,
    shape: Shape,
    low: u64,
    high: u64,
    out: &mut [u8],
    at: usize,
) -> usize
    requires placed { Placed file.now head s }
    requires shape { Drawable shape }
    requires within { (low ≤ S) × (high ≤ S) }
    requires room { at ≤ length out.old }
    ensures { Within result out.new }
{
    let decimal = units::is_decimal(head.version);
    let gap = most_gap(shape, head.boards as u64);
    let chance = chance::put_chance(decimal, low, high, gap, out, at);
    put_worth(file, head, s, shape, out, chance)
}

// What is put for a rating.
fn put_rating(
    file: &[u8],
    head: Head,
    s: usize,
    shape: Shape,
    rating: Rating,
    out: &mut [u8],
    at: usize,
) -> usize
    requires placed { Placed file.now head s }
    requires shape { Drawable shape }
    requires within { WithinUnit rating }
    requires room { at ≤ length out.old }
    ensures { Within result out.new }
{
    match rating {
        Rating::Range { low, high } => put_answer(file, head, s, shape, low, high, out, at),
        Rating::Refused(refused) => {
            let why = advice::system::system_why(file, head, s, refused);
            advice::put_paragraph(refused, why, out, at)
        }
    }
}

// A system of a file by its place, counted from 0.
pub fn put_card(file: &[u8], head: Head, s: usize, out: &mut [u8]) -> usize
    requires { Placed file.now head s }
    ensures { Within result out.new }
{
    let fans = head.fans as u64;
    let system = deck::system_in(file, head, s);
    let title = put_title(fans, s as u64 + 1, system, out);
    let shape = drawn::shape_of(fans, system);
    let rating = systems::rate(file, head, s);
    let body = put_rating(file, head, s, shape, rating, out, title);
    text::put(out, body, b"</section>\n")
}
