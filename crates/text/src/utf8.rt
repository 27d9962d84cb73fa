// The UTF-8 check (RFC 3629, section 4): one pass, one state.
ghost use Rattle.std.specs.Prelude.{◌≡◌, [], ◌≤◌, length, if◌then◌else◌};
ghost use Rattle.definition.specs.Text.{none, some};
ghost use Rattle.definition.specs.Utf8.{◌⋯◌, within, char_forms, follow, left};
ghost use Rattle.text.specs.Stretch.{Passing};
ghost use Rattle.text.specs.Utf8.{wants, next_wants, wanted_after, told, is_ascii, Passes};

use crate::stretch;

// Why a source is not UTF-8, when whole characters are taken off its front.
#[derive(Clone, Copy, PartialEq, Eq, Debug)]
pub enum Utf8Error {
    // The beginning of a character is left.
    Cut,
    // Neither that nor nothing.
    Broken,
}

// What is wanted next: any character, one to three tail bytes, or a second byte of a narrower range and then one or two tail bytes.
#[derive(Clone, Copy, PartialEq, Eq, Debug)]
enum State {
    Start,
    Tail1,
    Tail2,
    Tail3,
    AfterE0,
    AfterED,
    AfterF0,
    AfterF4,
}

// The first byte of a character.
fn first(b: u8) -> Option<State>
    ensures { next_wants result ≡ follow char_forms b }
{
    match b {
        0x00..=0x7F => Some(State::Start),
        0xC2..=0xDF => Some(State::Tail1),
        0xE0 => Some(State::AfterE0),
        0xE1..=0xEC => Some(State::Tail2),
        0xED => Some(State::AfterED),
        0xEE..=0xEF => Some(State::Tail2),
        0xF0 => Some(State::AfterF0),
        0xF1..=0xF3 => Some(State::Tail3),
        0xF4 => Some(State::AfterF4),
        _ => None,
    }
}

// A later byte, from low to high, behind which s is the state.
fn later(low: u8, high: u8, b: u8, s: State) -> Option<State>
    ensures { next_wants result ≡ (if within (low ⋯ high) b then some (wants s) else none) }
{
    if low <= b && b <= high { Some(s) } else { None }
}

// One byte more in a state. An arm for each state: a constant array would be built anew at each use.
fn step(s: State, b: u8) -> Option<State>
    ensures { next_wants result ≡ wanted_after (wants s) b }
{
    match s {
        State::Start => first(b),
        State::Tail1 => later(0x80, 0xBF, b, State::Start),
        State::Tail2 => later(0x80, 0xBF, b, State::Tail1),
        State::Tail3 => later(0x80, 0xBF, b, State::Tail2),
        State::AfterE0 => later(0xA0, 0xBF, b, State::Tail1),
        State::AfterED => later(0x80, 0x9F, b, State::Tail1),
        State::AfterF0 => later(0x90, 0xBF, b, State::Tail2),
        State::AfterF4 => later(0x80, 0x8F, b, State::Tail2),
    }
}

// What is left if no byte follows.
#[tactic(auto, unfolding(definition::specs::Utf8::left))]
fn end(s: State) -> Result<(), Utf8Error>
    ensures { told result ≡ left (wants s) [] }
{
    match s {
        State::Start => Ok(()),
        _ => Err(Utf8Error::Cut),
    }
}

// ASCII is below this.
const ABOVE_ASCII: u8 = 128;

// How many bytes are looked at together.
const STEP: usize = 64;

// Behind the ASCII at a place.
fn next_high(src: &[u8], at: usize) -> usize
    requires { at ≤ length src.now }
    ensures { Passing is_ascii src.now at result }
{
    let ascii = |b: u8| b < ABOVE_ASCII;
    let steps = stretch::pass_steps::<STEP, _>(src, at, &ascii);
    stretch::pass_each(src, steps, &ascii)
}

// Behind the ASCII at a place where any character may follow; elsewhere the place itself.
fn passed(s: State, src: &[u8], at: usize) -> usize
    requires { at ≤ length src.now }
    ensures { Passes s src.now at result }
{
    match s {
        State::Start => next_high(src, at),
        _ => at,
    }
}

// Whether the bytes are UTF-8, and if not, why. The place goes on by more than one where ASCII is passed over.
pub fn check(src: &[u8]) -> Result<(), Utf8Error>
    ensures { told result ≡ left [] src.now }
{
    let mut s = State::Start;
    let mut i = 0;
    while i < src.len() {
        let Some(t) = step(s, src[i]) else {
            return Err(Utf8Error::Broken);
        };
        s = t;
        i = passed(t, src, i + 1);
    }
    end(s)
}
