// Nodes and errors, and leaves that are expected.
ghost use Rattle.std.specs.Prelude.{◌≡◌, false, length};
ghost use Rattle.definition.specs.Tree.{body_kind};
ghost use Rattle.definition.specs.Parser as reader;
ghost use Rattle.tree.specs.Machine.{Open, Shut};
ghost use Rattle.error.specs.Log.{met};
ghost use Rattle.parser_run.specs.Parses.{source_of, Parses, Nodes, Faults, Finds};
ghost use Rattle.parser_run.specs.Expects.{passes};

use crate::{Parser, fault};
use error::Fault;
use syntax_kind::number::Kind;

// Whether a leaf of this kind is there, and of kind a or b.
pub fn is_expected(kind: u8, a: u8, b: u8) -> bool
    ensures { result ≡ passes a b kind }
{
    kind != 0 && (kind == a || kind == b)
}

impl<'a> Parser<'a> {
    // A node begins.
    pub fn start_node(&mut self)
        ensures { Nodes Open self.old self.new }
    {
        self.state.run.pen = tree::start_node(self.table, self.levels, self.state.run.pen);
    }

    // The innermost open node ends; it has this kind.
    pub fn finish_node(&mut self, kind: u8)
        ensures { Nodes (Shut kind) self.old self.new }
    {
        self.state.run.pen = tree::finish_node(
            self.table,
            self.levels,
            self.state.run.pen,
            parser::wide(kind),
        );
    }

    // An error is met.
    pub fn push_error(&mut self, e: Fault)
        ensures { Faults (met e) self.old self.new }
    {
        self.state.errs = error::push_error(self.errors, self.state.errs, e);
    }

    // A node of this kind over the leaf that is seen.
    pub fn node_bump(&mut self, kind: u8)
        requires { body_kind kind ≡ false }
        ensures { Parses (reader.wrap kind reader.bump) self.old self.new }
    {
        self.start_node();
        self.bump();
        self.finish_node(kind);
    }

    // A leaf of kind k (`expect_one`): another goes into an ERROR node, a NEWLINE too.
    pub fn expect_one(&mut self, k: u8)
        requires { k ≡ 0 → ⊥ }
        ensures { Parses (reader.expect_one (length (source_of self.old)) k) self.old self.new }
    {
        let x = self.peek();
        if x.kind == k {
            return self.bump();
        }
        self.node_bump(Kind::ERROR);
        self.push_error(fault::missing(self.source.src, x, k, 0));
    }

    // A leaf of kind a or b, 0 if only a (`expect_any`): another is taken too, but a NEWLINE is not. Whether the leaf was expected.
    pub fn expect_any(&mut self, a: u8, b: u8) -> bool
        ensures { Finds a b self.old self.new result }
    {
        let x = self.peek();
        self.bump_inline();
        if is_expected(x.kind, a, b) {
            return true;
        }
        self.push_error(fault::missing(self.source.src, x, a, b));
        false
    }
}
