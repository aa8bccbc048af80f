// What reads take of an input. Only this file can make a `Taken`, so that its count is what reads answered, added up,
// and its end one that a read met.
ghost use Rattle.std.specs.Prelude.{◌≡◌, ◌+◌, ◌<◌, ◌^◌, length};
ghost use Rattle.shell.specs.Taken.{nothing, unopened, goes_on, has_failed, Adds, taken_with, Took};

use crate::reading;
use crate::reading::{Input, Opened};

// Bytes were taken, or none yet; a read met the input's end; a read failed.
#[derive(Clone, Copy)]
enum State {
    Going,
    Ended,
    Failed,
}

#[derive(Clone, Copy)]
pub struct Taken {
    count: usize,
    state: State,
}

// Before any read.
pub fn nothing() -> Taken
    ensures { result ≡ nothing }
{
    Taken {
        count: 0,
        state: State::Going,
    }
}

// Of an input that could not be opened.
pub fn unopened() -> Taken
    ensures { result ≡ unopened }
{
    Taken {
        count: 0,
        state: State::Failed,
    }
}

// How many bytes were taken.
pub fn count(taken: Taken) -> usize
    ensures { result ≡ taken.count }
{
    taken.count
}

// Has no read met the end or failed?
pub fn goes_on(taken: Taken) -> bool
    ensures { result ≡ goes_on taken }
{
    matches!(taken.state, State::Going)
}

// Has a read failed?
pub fn has_failed(taken: Taken) -> bool
    ensures { result ≡ has_failed taken }
{
    matches!(taken.state, State::Failed)
}

// With what one read more gave: a read of nothing is the input's end.
fn added(taken: Taken, got: Input) -> Taken
    requires { Adds taken got }
    ensures { result ≡ taken_with taken got }
{
    let count = taken.count;
    match got {
        Input::Filled(more) => {
            if more == 0 {
                return Taken {
                    count,
                    state: State::Ended,
                };
            }
            Taken {
                count: count + more,
                state: State::Going,
            }
        }
        Input::Failed => Taken {
            count,
            state: State::Failed,
        },
    }
}

// One read more, into the front of a buffer that takes some.
pub fn take(input: &mut Opened, buffer: &mut [u8], taken: Taken) -> Taken
    requires some { 0 < length buffer.old }
    requires few { taken.count + length buffer.old < 2 ^ 64 }
    ensures { Took (length buffer.new) taken result }
{
    let got = reading::read_some(input, buffer);
    added(taken, got)
}
