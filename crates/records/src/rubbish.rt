// Tables before a call: full of what a call must not leave in them.
ghost use Rattle.std.specs.Prelude.{◌≡◌, ◌≤◌, min};
ghost use Rattle.records.specs.Rubbish.{most, room as Rubbish·room};

// The longest table that is lent.
pub const MOST: usize = 4096;

// What tables hold: numbers,
pub const NUMBER: u32 = 0xA5A5_A5A5;

// or bytes.
pub const BYTE: u8 = 0xA5;

// How long a table of n numbers is lent,
pub fn room(n: u32) -> usize
    ensures value { result ≡ Rubbish·room n }
    ensures upper_bound { result ≤ most }
{
    (n as usize).min(MOST)
}

// and each of the three tables of a reading.
#[derive(Clone, Copy)]
pub struct Rooms {
    pub entries: usize,
    pub errors: usize,
    pub lines: usize,
    pub ghost entries_fit: { entries ≤ most },
    pub ghost errors_fit: { errors ≤ most },
    pub ghost lines_fit: { lines ≤ most },
}

impl Rooms {
    // These lengths, or the longest where one is longer.
    pub fn at_most(entries: usize, errors: usize, lines: usize) -> Rooms
        ensures entries { result.entries ≡ min entries most }
        ensures errors { result.errors ≡ min errors most }
        ensures lines { result.lines ≡ min lines most }
    {
        Rooms {
            entries: entries.min(MOST),
            errors: errors.min(MOST),
            lines: lines.min(MOST),
        }
    }
}
