// Rows of numbers in a lent table: a row is written whole, or not at all.

ghost use Rattle.std.specs.Prelude.{◌≡◌};
ghost use Rattle.table.specs.Row.{page, put};

// The place of the next row once one did not fit. No table has it, so the test for room says of it too that a row does not fit; an Option would need a
// test of its own at each row.
pub const FAR: usize = 18_446_744_073_709_551_615;

// Writes a row of numbers at n, if it has room, and gives the place behind it.
pub fn put_row(table: &mut [u32], n: usize, row: &[u32]) -> usize
    ensures { page table.new result ≡ put row.now (page table.old n) }
{
    if table.len().saturating_sub(n) < row.len() {
        return FAR;
    }
    for i in 0..row.len() {
        table[n + i] = row[i];
    }
    n + row.len()
}
