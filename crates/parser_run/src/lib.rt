// What a directive reads with (`ParserRun` of `parser.rs`): the leaf that is seen, nodes, errors, and leaves that are expected.
#![tactic(auto)]

pub mod fault;
mod leaf;
mod node;
pub mod state;

ghost use Rattle.parser.specs.Rest.{Held, Held-prop};

use parser::source::Source;
use parser::{Run, Seen};
use tree::level::OPEN_LEVELS;

// Where the parser stands, the place of the next error, and whether a body held too many ##.
#[derive(Clone, Copy)]
pub struct ParserRun {
    pub run: Run,
    pub errs: usize,
    pub over: bool,
}

// What is read, the entry table, the open levels and the error table as they are lent, and where the reading stands: at a leaf that is held.
#[derive(Drop)]
pub struct Parser<'a> {
    pub source: Source<'a>,
    pub table: &'a mut [u32],
    pub levels: &'a mut [usize; OPEN_LEVELS],
    pub errors: &'a mut [u32],
    pub state: ParserRun,
    pub ghost held: { Held source.src.now state.run.seen } by { Held-prop source.src.now state.run.seen },
}

impl<'a> Parser<'a> {
    ghost use Rattle.std.specs.Prelude.{◌≡◌};

    // The leaf that is seen.
    pub fn peek(&self) -> Seen
        ensures { result ≡ self.now.state.run.seen }
    {
        parser::same(self.state.run.seen)
    }
}
