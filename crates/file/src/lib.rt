// The items of a source: text lines, groups and directives (`file` of `syntax.rs`).
#![tactic(auto)]

ghost use Rattle.std.specs.Prelude.{◌≡◌, length};
ghost use Rattle.parser.specs.Rest.{Held};
ghost use Rattle.parser_run.specs.Reads.{stand, Reads};
ghost use Rattle.parser_run.specs.Parses.{source_of, stand_of, Parses};
ghost use Rattle.syntax.specs.Item.{hash_reader};
ghost use Rattle.syntax.specs.Section.{Hashed};
ghost use Rattle.file.specs.Ground.{Grounded};
ghost use Rattle.file.specs.Advance.{begins_text, items_of, Proceeds};

use parser::source::Source;
use parser::trivia::Trivia;
use parser_run::{Parser, ParserRun};
use syntax_kind::number::Kind;
use tree::level::OPEN_LEVELS;

// A group or a directive, into a table that is lent; before: the trivia before its HASH, which is passed over.
fn lent_item(
    source: Source,
    table: &mut [u32],
    levels: &mut [usize; OPEN_LEVELS],
    errors: &mut [u32],
    state: ParserRun,
    before: Trivia,
) -> ParserRun
    requires held { Held source.src.now state.run.seen }
    requires hashed { Hashed source.src.now state.run.seen before }
    ensures { Reads source.entry.src.now (hash_reader (length source.entry.src.now)) (stand table.old levels.old errors.old state) (stand table.new levels.new errors.new result) }
{
    let mut p = Parser {
        source,
        table,
        levels,
        errors,
        state,
    };
    syntax::section::if_section_or_control_line(&mut p, before);
    p.state
}

// A group or a directive, written into the unused tail of the table.
fn hash_item(p: &mut Parser, before: Trivia)
    requires hashed { Hashed (source_of p.old) p.old.state.run.seen before }
    requires ground { Grounded (source_of p.old) (stand_of p.old) }
    ensures { Parses (hash_reader (length (source_of p.old))) p.old p.new }
{
    let pen = p.state.run.pen;
    let room = p.table.len();
    let from = tree::tail::start(room, pen.n);
    let mut front = p.state;
    front.run.pen = pen.at_front(from);
    let last = lent_item(
        p.source,
        &mut p.table[from..],
        p.levels,
        p.errors,
        front,
        before,
    );
    p.state = last;
    p.state.run.pen = tree::tail::rejoin(room, pen, last.run.pen);
}

// An item that begins with trivia, or with a HASH: a directive or a group, or text behind trivia, or trivia at the end of the source.
fn item(p: &mut Parser)
    requires ground { Grounded (source_of p.old) (stand_of p.old) }
    requires some { p.old.state.run.seen.kind ≡ 0 → ⊥ }
    ensures { Proceeds p.old p.new }
{
    let run = p.state.run;
    let before = parser::trivia::buffer_trivia(p.source, run.seen);
    let x = before.next;
    let directive = x.kind == Kind::HASH;
    if directive {
        return hash_item(p, before);
    }
    let pen = parser::trivia::eat_trivia(p.source, p.table, run.pen, before.first, x.start);
    p.state.run = parser::run_of(x, pen);
    if x.kind == 0 {
        return;
    }
    p.state.run = text_lines::text_lines(p.source, p.table, p.state.run);
}

// Whether an item that begins with a leaf of this kind is a text line.
fn is_text(kind: u8) -> bool
    ensures { result ≡ begins_text kind }
{
    if parser::is_trivia(kind) {
        return false;
    }
    kind != Kind::HASH
}

// Item after item. Text is taken here and not in `item` only: called from two places, `text_lines` stays a function of its own.
pub fn file(p: &mut Parser)
    requires { Grounded (source_of p.old) (stand_of p.old) }
    ensures { Parses (items_of (source_of p.old)) p.old p.new }
{
    'items: while p.state.run.seen.kind != 0 {
        if is_text(p.state.run.seen.kind) {
            p.state.run = text_lines::text_lines(p.source, p.table, p.state.run);
        } else {
            item(p);
        }
    }
}
