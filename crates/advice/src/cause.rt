// The causes of a refusal, and the form that each is told in.
ghost use Rattle.std.specs.Prelude.{◌≡◌};
ghost use Rattle.advice.specs.Words.{form_of};

#[derive(Clone, Copy)]
pub enum Cause {
    // A file ends before its version's header does.
    HeaderShort,

    // Its version is none that is known.
    UnknownVersion,

    // Its zero field is not 0.
    ZeroFieldSet,

    // It has no fans, or more than a deck has.
    FansOut,

    // No systems, or more than a deck has.
    SystemsOut,

    // No boards, or more than a deck has.
    BoardsOut,

    // It ends before its last system does.
    EndsEarly,

    // Its offsets or its length are not the layout's.
    LaidWrongly,

    // A fan is on a board that is not there.
    BoardPastLast,

    // A system's kind is none.
    NoSuchKind,

    // Its stretch is not on the deck.
    NoStretch,

    // A fan's survival number is above the unit.
    FanAbove,

    // A board's is.
    BoardAbove,

    // Its fans weigh too much.
    TooHeavy,

    // Its rule has one number, and a second is set.
    SecondSet,

    // That number is out of range: of dead fans.
    NumberOut,

    // Of dead fans in a row.
    RunOut,

    // Of a weight.
    WeightOut,

    // Its fans have no weight.
    NoWeight,

    // Its rule has two numbers, out of range: at least and at most so many dead.
    BetweenOut,

    // So many dead in a window.
    NearOut,

    // The same where a rule of kind 8 says what was meant.
    NearLacking,

    // So many dead in a window round the ring.
    RingOut,

    // The same on a ring of one fan.
    RingOfOne,

    // So many needed of a window.
    LackingOut,

    // A fan is not in the system's stretch.
    FanOutside,

    // None of these: nothing is told.
    Untold,
}

// K and R in a form are a rule's numbers as a typed text has them.
pub fn form_of(cause: Cause) -> &'static [u8]
    ensures { result.now ≡ form_of cause }
{
    match cause {
        Cause::HeaderShort => b"it has # bytes, and its header alone has #; send it again",
        Cause::UnknownVersion =>
            b"its version is #, and 1 to 3 are known; see that it is a deck file",
        Cause::ZeroFieldSet => b"its zero field is #; deckmend sets it to 0",
        Cause::FansOut => b"it has # fans, and a deck has 1 to 64; make it anew with deckmake",
        Cause::SystemsOut =>
            b"it has # systems, and a deck has 1 to 32; make it anew with deckmake",
        Cause::BoardsOut =>
            b"it has # boards, and a deck of version 3 has 1 to 4; make it anew with deckmake",
        Cause::EndsEarly => b"it ends after # of its # bytes; send it again",
        Cause::LaidWrongly => b"its offsets or its length are wrong; deckmend mends them",
        Cause::BoardPastLast => b"a fan is on a board past the last, #; make it anew with deckmake",
        Cause::NoSuchKind => b"there is no kind #; kinds are 1 to #",
        Cause::NoStretch =>
            b"fans # to # are no stretch of # fans; it runs from fan 1 or later to a fan not before that, # at most",
        Cause::FanAbove => b"fan # has survival number #; # is the most",
        Cause::BoardAbove => b"board # has survival number #; # is the most",
        Cause::TooHeavy => b"its fans weigh # together; 120 is the most",
        Cause::SecondSet => b"its second number is #; make that 0 and K from 1 to #",
        Cause::NumberOut => b"# dead of # fans cannot be; K is from 1 to #",
        Cause::RunOut => b"# in a row of # fans cannot be; K is from 1 to #",
        Cause::WeightOut => b"weight # of # in all cannot be; K is from 1 to #",
        Cause::NoWeight =>
            b"its fans have no weight; give them some, K from 1 to their sum and a second number of 0",
        Cause::BetweenOut =>
            b"# to # dead of # fans cannot be; the first is at most the second, and the second at most #",
        Cause::NearOut => b"# in # cannot be; K is 2 and R from 2 to 64",
        Cause::NearLacking => b"# in # cannot be, K is 2; needs # of any # says it",
        Cause::RingOut => b"# in # round of # fans cannot be; K is 2 and R from 2 to #",
        Cause::RingOfOne =>
            b"# in # round of one fan cannot be; take more fans, K 2 and R from 2 to how many they are",
        Cause::LackingOut =>
            b"needs # of any # among # fans cannot be; R is at most # and at most 10, K from 1 to R",
        Cause::FanOutside => b"fan # is outside the stretch, fans # to #; look at one of those",
        Cause::Untold => b"",
    }
}
