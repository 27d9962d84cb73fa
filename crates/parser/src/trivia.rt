// Trivia that is passed over before it is known where it belongs (`buffer_trivia`, `eat_trivia`): a range of leaves in place of a queue.
ghost use Rattle.std.specs.Prelude.{◌≡◌, true};
ghost use Rattle.definition.specs.Parser.{while};
ghost use Rattle.tree.specs.Machine.{sheet, leafs};
ghost use Rattle.parser.specs.Rest.{Held, trivial, unread};
ghost use Rattle.parser.specs.Passed.{row_of, before, Passes, Behind};

use crate::Seen;
use crate::source::Source;
use tree::Pen;

// A row of trivia: its first leaf and the leaf behind it. It is empty if both start at one place.
#[derive(Clone, Copy)]
pub struct Trivia {
    pub first: Seen,
    pub next: Seen,
}

// A row of trivia from these two, number by number.
fn row_of(x: Seen, y: Seen) -> Trivia
    ensures { result ≡ row_of x y }
{
    let first = crate::same(x);
    let next = crate::same(y);
    Trivia { first, next }
}

// Passes over the trivia from a leaf on that is trivia.
#[tactic(auto, using(crate::proofs::Passing::passing_fewer, crate::proofs::Passing::passing_done))]
fn pass(source: Source, x: Seen) -> Trivia
    requires { (Held source.src.now x) × (trivial x.kind ≡ true) }
    ensures { Passes source.entry.src.now x result }
{
    let mut next = crate::see(source, x.end, x.angle);
    'trivia: while crate::is_trivia(next.kind) {
        next = crate::see(source, next.end, next.angle);
    }
    row_of(x, next)
}

// Passes over the trivia from a leaf on that is seen. Where it is called, what was just seen needs not go through memory.
#[inline(always)]
pub fn buffer_trivia(source: Source, x: Seen) -> Trivia
    requires { Held source.src.now x }
    ensures { Passes source.entry.src.now x result }
{
    if crate::is_trivia(x.kind) {
        return pass(source, x);
    }
    row_of(x, x)
}

// Passes over the trivia from a place on. It has a frame of its own, since that of `rows::concat::pp_concat` stands on the stack once for each ##.
#[inline(never)]
pub fn behind(source: Source, at: u32, angle: bool) -> Trivia
    ensures { Behind source.entry.src.now at angle result }
{
    let x = crate::see(source, at, angle);
    buffer_trivia(source, x)
}

// Writes leaves that were passed over: those from `first` on that start before `stop`. Those behind the first are lexed once more; the one that
// starts at `stop` is not.
pub fn eat_trivia(source: Source, table: &mut [u32], pen: Pen, first: Seen, stop: u32) -> Pen
    requires { Held source.src.now first }
    ensures { sheet table.new result ≡ leafs (sheet table.old pen) (while (before stop) (unread source.entry.src.now first)) }
{
    let mut held = pen;
    let mut x = first;
    loop {
        if stop <= x.start {
            return held;
        }
        if x.kind == 0 {
            return held;
        }
        held = crate::leaf(table, held, x);
        if x.end == stop {
            return held;
        }
        x = crate::see(source, x.end, x.angle);
    }
}
