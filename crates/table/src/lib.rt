// Lent tables of numbers: cleared, and written as far as they go.
#![tactic(auto)]

pub mod row;

ghost use Rattle.std.specs.Prelude.{◌≡◌, length, replicate, set};

// Fills a table with 0.
pub fn clear(t: &mut [u32])
    ensures { t.new ≡ replicate (length t.old) 0 }
{
    t.fill(0);
}

// Puts x at place n, if the table has one; get_mut would take the same test. The place is counted on past the table's end, so that no rest of the table
// could stand for it.
pub fn put<T: Copy>(t: &mut [T], n: usize, x: T)
    ensures { t.new ≡ set t.old n x }
{
    if n < t.len() {
        t[n] = x;
    }
}
