// The error log: errors as they are met, written into a lent table of ten numbers each (error.rs).
#![tactic(auto)]

pub mod lines;
pub mod numbered;

ghost use Rattle.std.specs.Prelude.{◌≡◌, ◌/◌};
ghost use Rattle.definition.specs.Tree.{Width};
ghost use Rattle.error.specs.Log.{number, met, log, add};

use table::row::put_row;

// How many numbers an error has, and where its start, its line and its column stand behind the first, its sort.
const WIDTH: usize = 10;

const START: usize = 1;

const LINE: usize = 3;

const COLUMN: usize = 4;

// The line and the column of an error before they are filled in: numbers of the lent table (C interface), which are written over.
const UNLOCATED: u32 = 0;

// The sorts of errors, by their numbers; Rust's third is never raised.
#[derive(Clone, Copy, PartialEq, Eq, Debug)]
pub enum ErrorKind {
    UnknownDirective = 1,
    ExtraTokens = 2,
    Unexpected = 4,
    EndOfInput = 5,
}

// The number that stands in the table.
impl From<ErrorKind> for u32 {
    ghost from_gives = { λ k n. n ≡ number k };

    fn from(k: ErrorKind) -> u32 {
        k as u32
    }
}

// An error as it is met: its sort, its range, the actual kind, up to two expected kinds, and the range of a name. The numbers
// are those of the lent table, where 0 stands for none (C interface).
#[derive(Clone, Copy)]
pub struct Fault {
    pub sort: ErrorKind,
    pub start: u32,
    pub end: u32,
    pub actual: u32,
    pub expected1: u32,
    pub expected2: u32,
    pub first: u32,
    pub past: u32,
}

// Writes an error at n, if it has room, and gives the place of the next. Its line and column are filled in later.
#[tactic(auto, unfolding(crate::specs::Log::add))]
pub fn push_error(table: &mut [u32], n: usize, e: Fault) -> usize
    ensures { log table.new result ≡ add (met e) (log table.old n) }
{
    put_row(
        table,
        n,
        &[
            e.sort.into(),
            e.start,
            e.end,
            UNLOCATED,
            UNLOCATED,
            e.actual,
            e.expected1,
            e.expected2,
            e.first,
            e.past,
        ],
    )
}

// How many errors lie before the place n.
pub fn count(n: usize) -> usize
    ensures { result ≡ n / Width.error }
{
    n / WIDTH
}
