// Rows up to a NEWLINE or the end (`pp_tokens`), and the bodies over them.
ghost use Rattle.std.specs.Prelude.{◌≡◌};
ghost use Rattle.tree.specs.Machine.{writer, pen_at};
ghost use Rattle.parser.specs.Rest.{unread, Held};
ghost use Rattle.parser.specs.Passed.{Passed};
ghost use Rattle.rows.specs.Rowed.{row_from, node_from, Rowed, ReadsBody, ReadsAlone};

use crate::{BodyRow, concat};
use parser::Run;
use parser::source::Source;
use parser::trivia::Trivia;
use syntax_kind::number::Kind;
use tree::Pen;
use tree::level::OPEN_LEVELS;

// The leaves up to a NEWLINE or the end, without the trivia at their end; p: the trivia before the first. The first ## wraps the last leaf before
// it that is no trivia, or, with none, starts where the row does.
pub fn pp_tokens(
    source: Source,
    table: &mut [u32],
    levels: &mut [usize; OPEN_LEVELS],
    pen: Pen,
    p: Trivia,
) -> BodyRow
    requires { Passed source.src.now p }
    ensures { Rowed source.entry.src.now (row_from (writer table.old levels.old pen) (unread source.entry.src.now p.first)) table.new levels.new result }
{
    let mut held = pen;
    let mut q = p;
    'row: loop {
        let x = q.next;
        if parser::ends_row(x.kind) {
            return BodyRow {
                pen: held,
                trivia: q,
                over: false,
            };
        }
        if x.kind == Kind::PP_CONCAT_OP {
            return concat::first_concat(source, table, levels, held, q);
        }
        held = crate::eat(source, table, held, q);
        q = parser::trivia::behind(source, x.end, x.angle);
        let y = q.next;
        if y.kind == Kind::PP_CONCAT_OP {
            return concat::wrapping_concat(source, table, levels, held, x, q);
        }
        held = parser::leaf(table, held, x);
    }
}

// A node of kind k over a row; p: the trivia before the first leaf.
fn row_node(
    source: Source,
    table: &mut [u32],
    levels: &mut [usize; OPEN_LEVELS],
    pen: Pen,
    p: Trivia,
    k: u8,
) -> BodyRow
    requires { Passed source.src.now p }
    ensures { Rowed source.entry.src.now (node_from (writer table.old levels.old pen) k (unread source.entry.src.now p.first)) table.new levels.new result }
{
    let a = tree::start_node(table, levels, pen);
    let r = pp_tokens(source, table, levels, a, p);
    crate::finish_row(table, levels, r, k)
}

// The answer of a body.
#[derive(Clone, Copy)]
pub struct BodyRun {
    pub run: Run,
    pub over: bool,
}

// Trivia, a node of kind k over a row, and the trivia behind it.
pub fn pp_body(
    source: Source,
    table: &mut [u32],
    levels: &mut [usize; OPEN_LEVELS],
    run: Run,
    k: u8,
) -> BodyRun
    requires { Held source.src.now run.seen }
    ensures { ReadsBody source.entry.src.now k (unread source.entry.src.now run.seen) (writer table.old levels.old run.pen) table.new levels.new result }
{
    let a = parser::skip_trivia(source, table, run);
    let x = a.seen;
    let p = Trivia { first: x, next: x };
    let r = row_node(source, table, levels, a.pen, p, k);
    let q = r.trivia;
    let held = crate::eat(source, table, r.pen, q);
    let after = parser::run_of(q.next, held);
    BodyRun {
        run: after,
        over: r.over,
    }
}

// The body of a source that is one: a node over the row up to the first NEWLINE, leading trivia inside, and nothing behind it.
pub fn body_alone(source: Source, table: &mut [u32], levels: &mut [usize; OPEN_LEVELS]) -> BodyRow
    ensures { ReadsAlone source.entry.src.now (writer table.old levels.old (pen_at 0 0 0 0)) table.new levels.new result }
{
    let p = parser::trivia::behind(source, 0, false);
    let pen = Pen::new();
    row_node(source, table, levels, pen, p, Kind::PP_DEFINE_BODY)
}
