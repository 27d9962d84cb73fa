// The open levels: for each open node the place of its entry.
ghost use Rattle.std.specs.Prelude.{◌≡◌, ◌-◌, replicate};
ghost use Rattle.theorems.specs.Height.{open_levels};
ghost use Rattle.tree.specs.Machine.{level_at, set_level, one_deeper};

// How many ## a body may hold.
pub const MOST_CONCATS: u32 = 256;

// A PP_CONCAT for each ##, a body, a directive, ROOT, and one to spare.
pub const OPEN_LEVELS: usize = MOST_CONCATS as usize + 4;

// All 0 at first: no node is open. An array, since there is no heap; the pen's depth is its length.
pub fn levels() -> [usize; OPEN_LEVELS]
    ensures { result ≡ replicate open_levels 0 }
{
    [0; OPEN_LEVELS]
}

// The place of the open node at level d; 0 past the last level, as in the definition, so that the writer needs no case of its own.
pub fn at(levels: &[usize; OPEN_LEVELS], d: u32) -> usize
    ensures { result ≡ level_at levels.now d }
{
    levels.get(d as usize).copied().unwrap_or(0)
}

// Puts the place n in at level d.
pub fn put(levels: &mut [usize; OPEN_LEVELS], d: u32, n: usize)
    ensures { levels.new ≡ set_level levels.old d n }
{
    table::put(levels, d as usize, n);
}

// One level deeper, if there is one. A level past the last stays where it is, so that this is no min.
pub fn deeper(d: u32) -> u32
    ensures { result ≡ one_deeper d }
{
    if (d as usize) < OPEN_LEVELS { d + 1 } else { d }
}

// One level higher, if there is one.
pub fn higher(d: u32) -> u32
    ensures { result ≡ d - 1 }
{
    d.saturating_sub(1)
}
