// Recorded answers of the calls (compare/record.py tells the format): run again and compared.
#![tactic(auto)]

pub mod agree;
mod number;
pub mod rubbish;
mod stand;

ghost use Rattle.std.specs.Prelude.{◌≡◌, ◌<◌, ◌++◌, length, codes, Some, IfSome, option_copied};
ghost use Rattle.std.specs.Fmt.{decimal};
ghost use Rattle.records.specs.Compared.{behind as Compared·behind, compared};
ghost use Rattle.records.specs.Called.{numbered_compared};

use agree::Call;
use number::{number, pair};
use std::fmt;

// The record of this number, from 1, is the first whose answer is not the call's.
#[derive(Debug, Clone, Copy, PartialEq, Eq)]
pub struct Differs {
    pub number: usize,
}

impl fmt::Display for Differs {
    ghost output = { λ d. Some (codes "first difference," ++ decimal d.number) };

    fn fmt<W: fmt::Write>(&self, f: &mut fmt::Formatter<W>) -> fmt::Result {
        let number = self.number;
        write!(f, "first difference,{number}")
    }
}

// What is behind the first record; none, where its answer is not the call's.
fn behind(call: Call, s: &[u8]) -> Option<&[u8]>
    ensures value { option_copied result ≡ Compared·behind call s.now }
    ensures shorter { IfSome result (λ rest. length rest.now < length s.now) }
{
    let (size, framed) = pair(s)?;
    let (n, rest) = number(framed)?;
    let (input, answer) = rest.split_at_checked(usize::from(size))?;
    agree::answered(call, n, input, answer)
}

// Compares the records of a call, and counts them.
pub fn compare(call: Call, s: &[u8]) -> Result<usize, Differs>
    ensures { result ≡ compared call s.now }
{
    let mut records: usize = 0;
    let mut rest = s;
    while !rest.is_empty() {
        records += 1;
        rest = behind(call, rest).ok_or(Differs { number: records })?;
    }
    Ok(records)
}

// Compares the records of the call of a number: where there is no such call, the first differs.
pub fn compare_number(call: u8, s: &[u8]) -> Result<usize, Differs>
    ensures { result ≡ numbered_compared call s.now }
{
    match Call::try_from(call) {
        Ok(call) => compare(call, s),
        Err(_) if s.is_empty() => Ok(0),
        Err(_) => Err(Differs { number: 1 }),
    }
}
