// Runs a recorded call, and compares its answer with the recorded one: each function answers what is behind the numbers of the answer;
// none, where others stand.
ghost use Rattle.std.specs.Prelude.{ℕ, List, ◌≡◌, ◌≤◌, length, map, option_copied};
ghost use Rattle.definition.specs.Calls.{Filled, reading, looking_up, unescaping};
ghost use Rattle.reading.specs.Promise.{left_by};
ghost use Rattle.table.specs.Fills.{Fills};
ghost use Rattle.records.specs.Rubbish.{room as Rubbish·room};
ghost use Rattle.records.specs.Stand.{passed as Stand·passed, ConvertsBy};
ghost use Rattle.records.specs.Answers.{FillsBy, filled_numbers, reading_numbers, looked_numbers, table_behind, read_behind, lookup_behind, paste_behind, answer_behind};
ghost use Rattle.records.specs.Called.{Calls, numbered_behind};

use crate::number::{decode, number};
use crate::rubbish::{BYTE, MOST, NUMBER, Rooms, room};
use crate::stand::passed;
use tables::Reading;
use text::Counted;

// The calls that are recorded,
#[derive(Debug, Clone, Copy, PartialEq, Eq)]
pub enum Call {
    Tokens,
    Lines,
    Unescape,
    Lookup,
    Paste,
    Read,
    Body,
}

// and their numbers.
pub const TOKENS: u8 = 1;

pub const LINES: u8 = 2;

pub const UNESCAPE: u8 = 3;

pub const LOOKUP: u8 = 4;

pub const PASTE: u8 = 5;

pub const READ: u8 = 6;

pub const BODY: u8 = 7;

// No call has this number.
#[derive(Debug, Clone, Copy, PartialEq, Eq)]
pub struct NoCall {
    pub number: u8,
}

impl TryFrom<u8> for Call {
    type Error = NoCall;

    ghost try_from_gives = { Calls };

    fn try_from(number: u8) -> Result<Self, NoCall> {
        match number {
            TOKENS => Ok(Call::Tokens),
            LINES => Ok(Call::Lines),
            UNESCAPE => Ok(Call::Unescape),
            LOOKUP => Ok(Call::Lookup),
            PASTE => Ok(Call::Paste),
            READ => Ok(Call::Read),
            BODY => Ok(Call::Body),
            _ => Err(NoCall { number }),
        }
    }
}

// Fills a table by a call, and compares the outcome.
fn filled<'a, T: Copy + Into<u32>, F: FnOnce(&[u8], &mut [T]) -> Counted>(
    call: F,
    table: &mut [T],
    src: &[u8],
    s: &'a [u8],
) -> Option<&'a [u8]>
    requires { F.IsAlwaysCallable call }
    ensures { (outcome : List ℕ → ℕ → Filled) (value : T → ℕ) → ConvertsBy T.converts value → FillsBy (F.post call) outcome value → option_copied result ≡ Stand·passed (filled_numbers (outcome src.now (length table.old))) s.now }
{
    let got = call(src, table);
    let rest = passed(&[got.refusal, got.count], s)?;
    passed(table, rest)
}

// The answer of a reading, with the tables as it left them.
fn left<'a>(
    got: Reading,
    entries: &[u32],
    errors: &[u32],
    lines: &[u32],
    s: &'a [u8],
) -> Option<&'a [u8]>
    ensures { option_copied result ≡ Stand·passed (reading_numbers (left_by got entries.now errors.now lines.now)) s.now }
{
    let answer = passed(&[got.refusal, got.entries, got.errors, got.lines], s)?;
    let behind_entries = passed(entries, answer)?;
    let behind_errors = passed(errors, behind_entries)?;
    passed(lines, behind_errors)
}

// Reads a source with tables of these lengths,
fn read<'a>(rooms: Rooms, src: &[u8], s: &'a [u8]) -> Option<&'a [u8]>
    ensures { option_copied result ≡ Stand·passed (reading_numbers (reading src.now rooms.entries rooms.errors rooms.lines)) s.now }
{
    let mut entries = [NUMBER; MOST];
    let mut errors = [NUMBER; MOST];
    let mut lines = [NUMBER; MOST];
    let entries = &mut entries[..rooms.entries];
    let errors = &mut errors[..rooms.errors];
    let lines = &mut lines[..rooms.lines];
    let got = shader_reader::shader_read(src, entries, errors, lines);
    left(got, entries, errors, lines, s)
}

// of which the last two stand before the source.
fn read_input<'a>(n: u32, input: &[u8], s: &'a [u8]) -> Option<&'a [u8]>
    ensures { option_copied result ≡ read_behind n input.now s.now }
{
    let (errors, behind) = number(input)?;
    let (lines, src) = number(behind)?;
    let rooms = Rooms {
        entries: room(n),
        errors: room(errors),
        lines: room(lines),
    };
    read(rooms, src, s)
}

// Looks an offset up in line starts,
fn looked<'a>(offset: u32, lines: &[u32], s: &'a [u8]) -> Option<&'a [u8]>
    ensures { option_copied result ≡ Stand·passed (looked_numbers (looking_up lines.now offset)) s.now }
{
    let got = shader_reader::shader_lookup(lines, offset);
    passed(&[got.refusal, got.line, got.column], s)
}

// which are the numbers of the input.
fn lookup<'a>(offset: u32, input: &[u8], s: &'a [u8]) -> Option<&'a [u8]>
    ensures { option_copied result ≡ lookup_behind offset input.now s.now }
{
    let mut lines = [NUMBER; MOST];
    let n = decode(input, &mut lines);
    looked(offset, lines.get(..n)?, s)
}

// Pastes a kind with that of the input.
fn paste<'a>(lhs: u32, input: &[u8], s: &'a [u8]) -> Option<&'a [u8]>
    ensures { option_copied result ≡ paste_behind lhs input.now s.now }
{
    let (rhs, _) = number(input)?;
    let got = shader_reader::shader_paste(lhs, rhs);
    passed(&[got.refusal, got.kind], s)
}

// Fills a table of n numbers,
fn numbers_filled<'a, F: FnOnce(&[u8], &mut [u32]) -> Counted>(
    call: F,
    n: u32,
    src: &[u8],
    s: &'a [u8],
) -> Option<&'a [u8]>
    requires { F.IsAlwaysCallable call }
    ensures { (outcome : List ℕ → ℕ → Filled) → FillsBy (F.post call) outcome (λ x. x) → option_copied result ≡ table_behind outcome (Rubbish·room n) src.now s.now }
{
    let mut table = [NUMBER; MOST];
    filled(call, &mut table[..room(n)], src, s)
}

// or one of the bytes of an unescaped text.
fn unescape<'a>(n: u32, src: &[u8], s: &'a [u8]) -> Option<&'a [u8]>
    ensures { option_copied result ≡ table_behind unescaping (Rubbish·room n) src.now s.now }
{
    let mut output = [BYTE; MOST];
    filled(
        shader_reader::shader_unescape,
        &mut output[..room(n)],
        src,
        s,
    )
}

// A call on its number and its input.
pub fn answered<'a>(call: Call, n: u32, input: &[u8], s: &'a [u8]) -> Option<&'a [u8]>
    ensures { option_copied result ≡ answer_behind call n input.now s.now }
{
    match call {
        Call::Tokens => numbers_filled(shader_reader::shader_tokens, n, input, s),
        Call::Lines => numbers_filled(shader_reader::shader_line_table, n, input, s),
        Call::Unescape => unescape(n, input, s),
        Call::Lookup => lookup(n, input, s),
        Call::Paste => paste(n, input, s),
        Call::Read => read_input(n, input, s),
        Call::Body => numbers_filled(shader_reader::shader_define_body, n, input, s),
    }
}

// The call of a number; none also where there is no such call.
pub fn answered_number<'a>(call: u8, n: u32, input: &[u8], s: &'a [u8]) -> Option<&'a [u8]>
    ensures { option_copied result ≡ numbered_behind call n input.now s.now }
{
    let call = Call::try_from(call).ok()?;
    answered(call, n, input, s)
}
