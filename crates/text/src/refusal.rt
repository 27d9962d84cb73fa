// The refusals (01, Req 01, Req 03), by their numbers in the definition: its `Refusal` up to 10, and `ValueRefusal`.
ghost use Rattle.std.specs.Prelude.{◌≡◌};
ghost use Rattle.text.specs.Refusal.{number};

#[derive(Clone, Copy, PartialEq, Eq, Debug)]
pub enum Refusal {
    Length = 1,
    Utf8 = 2,
    Concats = 3,
    // The entry or the token table.
    Entries = 4,
    Errors = 5,
    Lines = 6,
    Lookup = 7,
    Output = 8,
    Kind = 9,
    // Checked with Utf8.
    Cut = 10,
    // No expression of the grammar within the levels that may be open.
    Expression = 11,
    // A needed name without a value.
    Name = 12,
    // A zero divisor, a shift outside 0 to 31, or a value outside 32 bits.
    Range = 13,
}

// The number that a call answers.
impl From<Refusal> for u32 {
    ghost from_gives = { λ r n. n ≡ number r };

    fn from(r: Refusal) -> u32 {
        r as u32
    }
}
