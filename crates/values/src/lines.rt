// What the lines of a file say.
ghost use Rattle.std.specs.Prelude.{◌≡◌, ◌%◌, ◌^◌, ◌<◌, length, take, IfOk};
ghost use Rattle.std.specs.Iterator.{YieldsFirst, at_most};
ghost use Rattle.values.specs.Lines.{digit as Lines·digit, bytes as Lines·bytes, decimal, listed as Lines·listed};

use std::alloc::{AllocError, Global};

// A hexadecimal digit; other bytes count nothing: an Option would be taken apart at once for the same 0.
fn digit(b: u8) -> u8
    ensures value { result ≡ Lines·digit b }
    ensures upper_bound { result < 16 }
{
    let d = literal::digit_value(b);
    if d < 16 { d as u8 } else { 0 }
}

// The bytes of a line: a backslash and two hexadecimal digits are a byte, and a shorter end is none.
#[derive(Drop)]
pub struct Bytes<'a>(pub &'a [u8]);

impl<'a> Iterator for Bytes<'a> {
    type Item = u8;

    ghost next_gives = { YieldsFirst (λ s. Lines·bytes s.0.now) };

    ghost remaining = { λ s. at_most (length s.0.now) };

    fn next(&mut self) -> Option<u8> {
        let (byte, rest) = self.0.split_first()?;
        if *byte != b'\\' {
            self.0 = rest;
            return Some(*byte);
        }
        let ([high, low], rest) = rest.split_first_chunk::<2>()?;
        self.0 = rest;
        Some(16 * digit(*high) + digit(*low))
    }
}

// The first bytes of a line, at most so many.
pub fn first_bytes(alloc: Global, line: &[u8], most: usize) -> Result<Vec<u8>, AllocError>
    ensures { IfOk result (λ v. v.items ≡ take most (Lines·bytes line.now)) }
{
    Bytes(line).take(most).collect(alloc)
}

// A decimal number, by its last 32 bits.
pub fn number(word: &[u8]) -> u32
    ensures { result ≡ decimal word.now % 2 ^ 32 }
{
    word.iter().copied().fold(
        0u32,
        |n, b| n.wrapping_mul(10).wrapping_add(u32::from(digit(b))),
    )
}

// What an empty word is.
const EMPTY: u32 = 0xA5A5_A5A5;

// A word of a list of numbers.
pub fn listed(word: &[u8]) -> u32
    ensures { result ≡ Lines·listed word.now }
{
    if word.is_empty() {
        return EMPTY;
    }
    number(word)
}
