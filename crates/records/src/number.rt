// Little-endian numbers in a row of bytes.
ghost use Rattle.std.specs.Prelude.{◌≡◌, ◌≤◌, ◌<◌, length, drop, MatchOption};
ghost use Rattle.table.specs.Fills.{Written};
ghost use Rattle.records.specs.Numbers.{pair as Numbers·pair, number as Numbers·number, numbers};

// The number of the first two bytes, and what is behind them,
pub fn pair(s: &[u8]) -> Option<(u16, &[u8])>
    ensures { MatchOption result (length s.now < 2) (λ p. (2 ≤ length s.now) × (p.0 ≡ Numbers·pair s.now 0) × (p.1.now ≡ drop 2 s.now)) }
{
    let (bytes, rest) = s.split_first_chunk()?;
    Some((u16::from_le_bytes(*bytes), rest))
}

// and of the first four. (One function for both would be no plainer: `from_le_bytes` belongs to no trait.)
pub fn number(s: &[u8]) -> Option<(u32, &[u8])>
    ensures { MatchOption result (length s.now < 4) (λ p. (4 ≤ length s.now) × (p.0 ≡ Numbers·number s.now 0) × (p.1.now ≡ drop 4 s.now)) }
{
    let (bytes, rest) = s.split_first_chunk()?;
    Some((u32::from_le_bytes(*bytes), rest))
}

// Writes the numbers of these bytes into a table, as far as it goes, and counts them all.
pub fn decode(s: &[u8], t: &mut [u32]) -> usize
    ensures { Written (numbers s.now) t.old result t.new }
{
    let mut n: usize = 0;
    let mut rest = s;
    while let Some((x, behind)) = number(rest) {
        table::put(t, n, x);
        n += 1;
        rest = behind;
    }
    n
}
