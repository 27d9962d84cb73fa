// The unused tail of a table, handed on from its middle.
ghost use Rattle.std.specs.Prelude.{◌≡◌};
ghost use Rattle.tree.specs.Tail.{tail_start, tail_base, behind, rejoined};

use crate::Pen;
use table::row::FAR;

// Where the tail begins, in a table of that length whose next entry goes to n: there, or at the end if an entry did not fit.
pub fn start(room: usize, n: usize) -> usize
    ensures { result ≡ tail_start room n }
{
    n.min(room)
}

// How many numbers of the whole table lie before the tail that begins at a of a part, where `before` lie before the part. A sum that
// no number holds is FAR, which no table has, so that it needs no case of its own.
pub fn base(before: usize, a: usize) -> usize
    ensures { result ≡ tail_base before a }
{
    before.saturating_add(a)
}

// The place m of the tail from n, counted from the front of the table; FAR behind the table, where no row has room, so that it needs no case of its own.
#[tactic(auto, unfolding(crate::specs::Tail::behind))]
fn behind(room: usize, n: usize, m: usize) -> usize
    ensures { result ≡ behind room n m }
{
    let place = n.saturating_add(m);
    if room < place { FAR } else { place }
}

// A pen that wrote into the tail of a table, on that table again; `before` is the pen that stood there when the tail was handed on.
pub fn rejoin(room: usize, before: Pen, pen: Pen) -> Pen
    ensures { result ≡ rejoined room before pen }
{
    Pen {
        base: before.base,
        n: behind(room, before.n, pen.n),
        ..pen
    }
}
