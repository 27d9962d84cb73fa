// The leaves of an expression one by one, trivia passed over.
ghost use Rattle.std.specs.Prelude.{◌≡◌, ◌≤◌, false, length};
ghost use Rattle.definition.specs.Text.{eqb};
ghost use Rattle.definition.specs.Calls.{longest_source};
ghost use Rattle.pre.specs.Table.{class_table};
ghost use Rattle.parser.specs.Rest.{leaf_seen, Held};
ghost use Rattle.condition.specs.Steps.{Follows};

use crate::Reader;
use parser::source::Source;
use parser::{Seen, trivia};
use pre::class::Classes;

// Whether a leaf of a kind is seen.
pub fn is(x: Seen, kind: u8) -> bool
    ensures { result ≡ eqb x.kind kind }
{
    x.kind == kind
}

// The first leaf of a source, for a caller that has no list of names to lend, and so no `Reader`,
pub fn first(src: &[u8], classes: &Classes) -> Seen
    requires { (classes.now ≡ class_table) × (length src.now ≤ longest_source) }
    ensures { Follows src.now 0 false result }
{
    let source = Source { src, classes };
    trivia::behind(source, 0, false).next
}

// and the leaf behind one that is seen.
pub fn next(src: &[u8], classes: &Classes, x: Seen) -> Seen
    requires { (classes.now ≡ class_table) × (length src.now ≤ longest_source) }
    ensures { Follows src.now x.end x.angle result }
{
    let source = Source { src, classes };
    trivia::behind(source, x.end, x.angle).next
}

impl<'a> Reader<'a> {
    // The first leaf.
    pub fn first(&self) -> Seen
        ensures { Follows self.now.source.src.now 0 false result }
    {
        trivia::behind(self.source, 0, false).next
    }

    // The leaf behind one that is seen.
    pub fn next(&self, x: Seen) -> Seen
        ensures { Follows self.now.source.src.now x.end x.angle result }
    {
        trivia::behind(self.source, x.end, x.angle).next
    }

    // The bytes of a leaf that is seen.
    pub fn bytes(&self, x: Seen) -> &'a [u8]
        requires held { Held self.now.source.src.now x }
        requires some { x.kind ≡ 0 → ⊥ }
        ensures { result.now ≡ (leaf_seen self.now.source.src.now x).bytes }
    {
        &self.source.src[x.start as usize..x.end as usize]
    }
}
