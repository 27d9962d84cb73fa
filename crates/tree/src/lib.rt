// The tree writer: rowan's builder as `parser.rs` uses it, into a lent table of entries.
#![tactic(auto)]

pub mod entry;
pub mod level;
pub mod tail;

ghost use Rattle.std.specs.Prelude.{◌≡◌};
ghost use Rattle.tree.specs.Machine.{sheet, leafed, writer, pen_at, step, Open, Shut};
ghost use Rattle.tree.specs.Tail.{at_front};

use crate::entry::Entry;
use crate::level::OPEN_LEVELS;

// Where the writer stands: how many numbers of the whole table lie before the part that it writes into, the place of the next entry in that
// part, how many nodes are open, and the end of the last leaf.
#[derive(Clone, Copy)]
pub struct Pen {
    pub base: usize,
    pub n: usize,
    pub depth: u32,
    pub pos: u32,
}

impl Pen {
    // At the front of a table; no node is open.
    pub fn new() -> Self
        ensures { result ≡ pen_at 0 0 0 0 }
    {
        Self {
            base: 0,
            n: 0,
            depth: 0,
            pos: 0,
        }
    }

    // The same at the front of the tail that begins at a.
    pub fn at_front(self, a: usize) -> Self
        ensures { result ≡ at_front a self }
    {
        Self {
            base: tail::base(self.base, a),
            n: 0,
            ..self
        }
    }
}

// A node begins. Its kind and its end are put in when it ends.
#[tactic(auto, unfolding(crate::specs::Machine::step))]
pub fn start_node(table: &mut [u32], levels: &mut [usize; OPEN_LEVELS], pen: Pen) -> Pen
    ensures { writer table.new levels.new result ≡ step Open (writer table.old levels.old pen) }
{
    let depth = level::deeper(pen.depth);
    let n = entry::put(table, pen.n, Entry::open(pen.depth, pen.pos));
    level::put(levels, pen.depth, pen.n);
    Pen { n, depth, ..pen }
}

// The innermost open node ends; it has this kind.
#[tactic(auto, unfolding(crate::specs::Machine::step))]
pub fn finish_node(table: &mut [u32], levels: &mut [usize; OPEN_LEVELS], pen: Pen, kind: u32) -> Pen
    ensures { writer table.new levels.new result ≡ step (Shut kind) (writer table.old levels.old pen) }
{
    let depth = level::higher(pen.depth);
    let n = level::at(levels, depth);
    entry::patch(table, n, kind, pen.pos);
    level::put(levels, depth, 0);
    Pen { depth, ..pen }
}

// A leaf.
#[tactic(auto, unfolding(crate::specs::Machine::leafed))]
pub fn leaf(table: &mut [u32], pen: Pen, kind: u32, start: u32, end: u32) -> Pen
    ensures { sheet table.new result ≡ leafed kind start end (sheet table.old pen) }
{
    let n = entry::put(table, pen.n, Entry::leaf(kind, pen.depth, start, end));
    Pen { n, pos: end, ..pen }
}
