// The parser's hold on its leaves: the one that is seen, taking it, and passing over trivia (`parser.rs`).
#![tactic(auto)]

pub mod source;
pub mod trivia;

ghost use Rattle.std.specs.Prelude.{◌≡◌};
ghost use Rattle.definition.specs.Parser as reader;
ghost use Rattle.theorems.specs.BodyRows.{ends};
ghost use Rattle.theorems.specs.LeavesFrom.{leaf_kind as LeavesFrom·leaf_kind};
ghost use Rattle.syntax_kind.specs.Number.{number};
ghost use Rattle.tree.specs.Machine.{sheet, leafed};
ghost use Rattle.parser.specs.Rest.{run_of, Sees, trivial, inlined, Held, Takes};

use crate::source::Source;
use glue::Lexer;
use pre::PreLexer;
use syntax_kind::kind::SyntaxKind;
use syntax_kind::number::Kind;
use tree::Pen;

// The leaf that is seen: its range, whether an angle string is expected behind it, and its kind, 0 at the end of the source. Start and end are not
// neighbours, and the kind stands at no multiple of four: a read of more bytes than were just written at once would wait until they have reached
// memory, and a byte at such a place is read four bytes wide.
#[derive(Clone, Copy)]
pub struct Seen {
    pub start: u32,
    pub angle: bool,
    pub kind: u8,
    pub end: u32,
}

// What has been read: the leaf that is seen, and where the tree writer stands.
#[derive(Clone, Copy)]
pub struct Run {
    pub seen: Seen,
    pub pen: Pen,
}

// The same leaf, number by number: a copy of the whole would wait until its parts, just written, have reached memory.
pub fn same(x: Seen) -> Seen
    ensures { result ≡ x }
{
    Seen {
        start: x.start,
        kind: x.kind,
        end: x.end,
        angle: x.angle,
    }
}

// The same pen, number by number.
fn same_pen(p: Pen) -> Pen
    ensures { result ≡ p }
{
    Pen {
        base: p.base,
        n: p.n,
        depth: p.depth,
        pos: p.pos,
    }
}

// A run of these two, number by number.
pub fn run_of(x: Seen, p: Pen) -> Run
    ensures { result ≡ run_of x p }
{
    let seen = same(x);
    let pen = same_pen(p);
    Run { seen, pen }
}

// The number of a token's kind as a leaf: a continuation becomes a WS leaf.
fn leaf_kind(kind: SyntaxKind) -> u8
    ensures { result ≡ LeavesFrom·leaf_kind (number kind) }
{
    match kind {
        SyntaxKind::LINECONT => Kind::WS,
        _ => kind.into(),
    }
}

// Sees the first leaf from a place on.
pub fn see(source: Source, at: u32, angle: bool) -> Seen
    ensures { Sees source.entry.src.now at angle result }
{
    let lexer = Lexer {
        input: PreLexer {
            at: at as usize,
            angle,
        },
    };
    match lexer.next(source.src, source.classes) {
        Some(t) => {
            let input = t.next.input;
            Seen {
                kind: leaf_kind(t.kind),
                start: at,
                end: input.at as u32,
                angle: input.angle,
            }
        }
        None => Seen {
            kind: 0,
            start: at,
            end: at,
            angle,
        },
    }
}

// A kind as a number of a table.
pub fn wide(kind: u8) -> u32
    ensures { result ≡ kind }
{
    kind as u32
}

// Writes a leaf that is seen.
pub fn leaf(table: &mut [u32], pen: Pen, x: Seen) -> Pen
    ensures { sheet table.new result ≡ leafed x.kind x.start x.end (sheet table.old pen) }
{
    tree::leaf(table, pen, wide(x.kind), x.start, x.end)
}

// Takes the leaf that is seen, if there is one, and sees the next.
pub fn bump(source: Source, table: &mut [u32], run: Run) -> Run
    requires { Held source.src.now run.seen }
    ensures { Takes source.entry.src.now reader.bump table.old run table.new result }
{
    let seen = run.seen;
    if seen.kind == 0 {
        return run;
    }
    let pen = leaf(table, run.pen, seen);
    run_of(see(source, seen.end, seen.angle), pen)
}

// Whether a kind is that of trivia.
pub fn is_trivia(kind: u8) -> bool
    ensures { result ≡ trivial kind }
{
    kind == Kind::WS || kind == Kind::COMMENT
}

// Takes the trivia that comes next.
pub fn skip_trivia(source: Source, table: &mut [u32], run: Run) -> Run
    requires { Held source.src.now run.seen }
    ensures { Takes source.entry.src.now reader.skip_trivia table.old run table.new result }
{
    let mut held = run;
    while is_trivia(held.seen.kind) {
        held = bump(source, table, held);
    }
    held
}

// Whether a line ends at a leaf of this kind: at a NEWLINE, or where there is none.
pub fn ends_row(kind: u8) -> bool
    ensures { result ≡ ends kind }
{
    kind == 0 || kind == Kind::NEWLINE
}

// Whether a leaf of this kind is one of the line.
fn is_inline(kind: u8) -> bool
    ensures { result ≡ inlined kind }
{
    !ends_row(kind)
}

// Takes the rest of the line, up to its NEWLINE or the end.
pub fn skip_inline(source: Source, table: &mut [u32], run: Run) -> Run
    requires { Held source.src.now run.seen }
    ensures { Takes source.entry.src.now (reader.skip reader.inline) table.old run table.new result }
{
    let mut held = run;
    while is_inline(held.seen.kind) {
        held = bump(source, table, held);
    }
    held
}
