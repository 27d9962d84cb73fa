// Errors whose sort is any number: the table holds numbers, and a caller may have sorts of its own beside those of `ErrorKind`.
ghost use Rattle.std.specs.Prelude.{◌≡◌};
ghost use Rattle.error.specs.Log.{numbered, log, add};

use crate::UNLOCATED;
use table::row::put_row;

// An error as it is met, with the number of its sort: its range, the actual kind, up to two expected kinds, and the range of a name; 0 where there is none.
#[derive(Clone, Copy)]
pub struct Numbers {
    pub sort: u32,
    pub start: u32,
    pub end: u32,
    pub actual: u32,
    pub expected1: u32,
    pub expected2: u32,
    pub first: u32,
    pub past: u32,
}

// Writes an error at n, if it has room, and gives the place of the next. Its line and column are filled in later.
#[tactic(auto, unfolding(crate::specs::Log::add))]
pub fn push_numbers(table: &mut [u32], n: usize, e: Numbers) -> usize
    ensures { log table.new result ≡ add (numbered e) (log table.old n) }
{
    put_row(
        table,
        n,
        &[
            e.sort,
            e.start,
            e.end,
            UNLOCATED,
            UNLOCATED,
            e.actual,
            e.expected1,
            e.expected2,
            e.first,
            e.past,
        ],
    )
}
