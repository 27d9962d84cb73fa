// The rows of leaves that directives end with, and the bodies over them (`syntax.rs`: `pp_tokens`, `pp_concat`).
#![tactic(auto)]

pub mod body;
pub mod concat;

ghost use Rattle.std.specs.Prelude.{◌≡◌};
ghost use Rattle.definition.specs.Parser.{trivia, while};
ghost use Rattle.tree.specs.Machine.{sheet, leafs};
ghost use Rattle.parser.specs.Rest.{unread};
ghost use Rattle.parser.specs.Passed.{Passed};
ghost use Rattle.rows.specs.Rowed.{Shuts};

use parser::source::Source;
use parser::trivia::Trivia;
use tree::Pen;
use tree::level::OPEN_LEVELS;

// What was read of a row: where the pen stands, the trivia behind the row, which is passed over and not written, and whether there were too
// many ##.
#[derive(Clone, Copy)]
pub struct BodyRow {
    pub pen: Pen,
    pub trivia: Trivia,
    pub over: bool,
}

// Writes trivia that was passed over.
fn eat(source: Source, table: &mut [u32], pen: Pen, p: Trivia) -> Pen
    requires { Passed source.src.now p }
    ensures { sheet table.new result ≡ leafs (sheet table.old pen) (while trivia (unread source.entry.src.now p.first)) }
{
    let next = p.next;
    parser::trivia::eat_trivia(source, table, pen, p.first, next.start)
}

// A node of kind k ends where a row does.
fn finish_row(table: &mut [u32], levels: &mut [usize; OPEN_LEVELS], row: BodyRow, k: u8) -> BodyRow
    ensures { Shuts k table.old levels.old row table.new levels.new result }
{
    let pen = tree::finish_node(table, levels, row.pen, parser::wide(k));
    let trivia = row.trivia;
    BodyRow {
        pen,
        trivia,
        over: row.over,
    }
}
