// Whether numbers stand in a file, one behind another. Each function answers what is behind them; none, if they do not.
ghost use Rattle.std.specs.Prelude.{ℕ, ◌≡◌, ◌≤◌, ◌<◌, length, drop, map, MatchOption, option_copied};
ghost use Rattle.records.specs.Stand.{width, value, stands as Stand·stands, passed as Stand·passed, ConvertsBy};

use crate::number::{number, pair};

// The first byte of a number that has two bytes more; the one above has four, and those below are numbers.
const TWO_MORE: u8 = 254;

// The first number, and what is behind it.
fn first(s: &[u8]) -> Option<(u32, &[u8])>
    ensures { MatchOption result (length s.now < width s.now) (λ p. (width s.now ≤ length s.now) × (p.0 ≡ value s.now) × (p.1.now ≡ drop (width s.now) s.now)) }
{
    let (byte, rest) = s.split_first()?;
    match *byte {
        TWO_MORE => {
            let (x, rest) = pair(rest)?;
            Some((u32::from(x), rest))
        }
        x if x < TWO_MORE => Some((u32::from(x), rest)),
        _ => number(rest),
    }
}

// One number,
fn stands(x: u32, s: &[u8]) -> Option<&[u8]>
    ensures { option_copied result ≡ Stand·stands x s.now }
{
    let (value, rest) = first(s)?;
    (value == x).then_some(rest)
}

// and those of a table or an output.
pub fn passed<'a, T: Copy + Into<u32>>(t: &[T], s: &'a [u8]) -> Option<&'a [u8]>
    ensures { (value : T → ℕ) → ConvertsBy T.converts value → option_copied result ≡ Stand·passed (map value t.now) s.now }
{
    let mut rest = s;
    for x in t {
        rest = stands((*x).into(), rest)?;
    }
    Some(rest)
}
