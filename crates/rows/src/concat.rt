// PP_CONCAT nodes: each ## of a row opens one, to the row's end.
ghost use Rattle.std.specs.Prelude.{◌≡◌};
ghost use Rattle.definition.specs.SyntaxKind.{Kind as SyntaxKind};
ghost use Rattle.tree.specs.Machine.{Open, writer, step};
ghost use Rattle.parser.specs.Rest.{unread, Held};
ghost use Rattle.parser.specs.Passed.{Passed};
ghost use Rattle.rows.specs.Rowed.{seen_event, concat_from, pasting_shut, Rowed};

use crate::BodyRow;
use parser::Seen;
use parser::source::Source;
use parser::trivia::Trivia;
use syntax_kind::number::Kind;
use tree::Pen;
use tree::level::{MOST_CONCATS, OPEN_LEVELS};

// The inside of a PP_CONCAT from its ## on, x. A further ## opens a node inside, to the row's end; allowance: how many more may do so. The source is
// lent: handed by value, it would stand once more on the stack for each ##.
fn pp_concat(
    source: &Source,
    table: &mut [u32],
    levels: &mut [usize; OPEN_LEVELS],
    pen: Pen,
    x: Seen,
    allowance: u32,
) -> BodyRow
    requires held { Held source.now.src.now x }
    requires opened { x.kind ≡ SyntaxKind.PP_CONCAT_OP }
    ensures { Rowed source.now.src.now (concat_from source.now.src.now (writer table.old levels.old pen) allowance x) table.new levels.new result }
{
    let mut held = pen;
    let mut y = x;
    let mut over = false;
    'paste: loop {
        let b = parser::leaf(table, held, y);
        let p = parser::trivia::behind(*source, y.end, y.angle);
        let next = p.next;
        if parser::ends_row(next.kind) {
            return BodyRow {
                pen: b,
                trivia: p,
                over,
            };
        }
        held = crate::eat(*source, table, b, p);
        y = next;
        if next.kind == Kind::PP_CONCAT_OP {
            if allowance == 0 {
                over = true;
                continue;
            }
            let a = tree::start_node(table, levels, held);
            let r = pp_concat(source, table, levels, a, next, allowance - 1);
            return crate::finish_row(table, levels, r, Kind::PP_CONCAT);
        }
    }
}

// The first PP_CONCAT, which is open, from the trivia before its ## on.
fn rest_of_concat(
    source: Source,
    table: &mut [u32],
    levels: &mut [usize; OPEN_LEVELS],
    pen: Pen,
    p: Trivia,
) -> BodyRow
    requires passed { Passed source.src.now p }
    requires opened { p.next.kind ≡ SyntaxKind.PP_CONCAT_OP }
    ensures { Rowed source.entry.src.now (pasting_shut (writer table.old levels.old pen) (unread source.entry.src.now p.first)) table.new levels.new result }
{
    let held = crate::eat(source, table, pen, p);
    let r = pp_concat(&source, table, levels, held, p.next, MOST_CONCATS - 1);
    crate::finish_row(table, levels, r, Kind::PP_CONCAT)
}

// A PP_CONCAT from the row's start on: the trivia and the ## behind it.
pub fn first_concat(
    source: Source,
    table: &mut [u32],
    levels: &mut [usize; OPEN_LEVELS],
    pen: Pen,
    p: Trivia,
) -> BodyRow
    requires passed { Passed source.src.now p }
    requires opened { p.next.kind ≡ SyntaxKind.PP_CONCAT_OP }
    ensures { Rowed source.entry.src.now (pasting_shut (step Open (writer table.old levels.old pen)) (unread source.entry.src.now p.first)) table.new levels.new result }
{
    let a = tree::start_node(table, levels, pen);
    rest_of_concat(source, table, levels, a, p)
}

// A PP_CONCAT that wraps x, the trivia and the ## behind it.
pub fn wrapping_concat(
    source: Source,
    table: &mut [u32],
    levels: &mut [usize; OPEN_LEVELS],
    pen: Pen,
    x: Seen,
    p: Trivia,
) -> BodyRow
    requires passed { Passed source.src.now p }
    requires opened { p.next.kind ≡ SyntaxKind.PP_CONCAT_OP }
    ensures { Rowed source.entry.src.now (pasting_shut (step (seen_event x) (step Open (writer table.old levels.old pen))) (unread source.entry.src.now p.first)) table.new levels.new result }
{
    let a = tree::start_node(table, levels, pen);
    let b = parser::leaf(table, a, x);
    rest_of_concat(source, table, levels, b, p)
}
