// A directive's line from its word on, and an item from its HASH on (`if_section_or_control_line` of `syntax.rs`).
ghost use Rattle.std.specs.Prelude.{◌≡◌, length};
ghost use Rattle.definition.specs.Syntax.{directive, unknown, control_line as Syntax·control_line, relexed};
ghost use Rattle.word.specs.Word.{Finds, directive_at};
ghost use Rattle.parser.specs.Rest.{leaf_seen, unread, Held};
ghost use Rattle.parser_run.specs.Parses.{source_of, Parses, Leafs};
ghost use Rattle.syntax.specs.Item.{Closes, hash_front, hash_reader};
ghost use Rattle.syntax.specs.Section.{Hashed, Fronted, Noded, Unended, Worded};

use error::ErrorKind;
use parser::Seen;
use parser::trivia::Trivia;
use parser_run::{Parser, fault};
use syntax_kind::number::Kind;
use word::Word;

// The line of an unknown word, which is seen: an error at the word, and none for what follows it.
fn unknown(p: &mut Parser)
    requires { p.old.state.run.seen.kind ≡ 0 → ⊥ }
    ensures { Parses (unknown (leaf_seen (source_of p.old) p.old.state.run.seen)) p.old p.new }
{
    let x = p.peek();
    line::finish(p, x, false);
    p.push_error(fault::named_error(ErrorKind::UnknownDirective, x.start, x.end, x));
}

// The line of the directive at place w, whose word is seen.
fn directive(p: &mut Parser, w: usize)
    requires { p.old.state.run.seen.kind ≡ 0 → ⊥ }
    ensures { Parses (directive (leaf_seen (source_of p.old) p.old.state.run.seen) (directive_at (length (source_of p.old)) w)) p.old p.new }
{
    let x = p.peek();
    p.bump();
    directives::rest::rest(p, w);
    p.skip_trivia();
    line::finish(p, x, true);
}

// The place of the directive that the leaf's bytes name.
fn word_of(src: &[u8], x: Seen) -> usize
    requires { (Held src.now x) × (x.kind ≡ 0 → ⊥) }
    ensures { Finds (leaf_seen src.now x).bytes result }
{
    let from = x.start as usize;
    let to = x.end as usize;
    word::find_word(&src[from..to])
}

// A directive's line from its word on, in a node that is open, up to the node's end.
fn word_line(p: &mut Parser)
    requires { Worded (source_of p.old) p.old.state.run.seen }
    ensures { Closes (Syntax·control_line (length (source_of p.old)) relexed (unread (source_of p.old) p.old.state.run.seen)) p.old p.new }
{
    let w = word_of(p.source.src, p.peek());
    if w == Word::UNKNOWN {
        unknown(p);
        p.finish_node(Kind::ERROR);
    } else {
        directive(p, w);
        p.finish_node(word::node_kind(w));
    }
}

// A group that does not close, in a node that is open: an error at its LPAREN, which is seen, and the node's end.
fn unended(p: &mut Parser)
    requires { Unended (source_of p.old) p.old.state.run.seen }
    ensures { Closes (Syntax·control_line (length (source_of p.old)) relexed (unread (source_of p.old) p.old.state.run.seen)) p.old p.new }
{
    let x = p.peek();
    group::pp_rs_ident(p);
    p.push_error(fault::end_of_input(x.start, x.end, Kind::RPAREN, 0));
    p.finish_node(Kind::ERROR);
}

// What follows a HASH and its trivia in a node that is open, up to the node's end.
fn control_line(p: &mut Parser)
    requires { Noded (source_of p.old) p.old.state.run.seen }
    ensures { Closes (Syntax·control_line (length (source_of p.old)) relexed (unread (source_of p.old) p.old.state.run.seen)) p.old p.new }
{
    let x = p.peek();
    if x.kind == 0 {
        return p.finish_node(Kind::ERROR);
    }
    if x.kind == Kind::NEWLINE {
        p.bump();
        return p.finish_node(Kind::PP_EMPTY);
    }
    if x.kind == Kind::LPAREN {
        return unended(p);
    }
    word_line(p);
}

// Writes the trivia before a HASH, the HASH and the trivia behind it; what follows is seen.
fn hash(p: &mut Parser, before: Trivia, after: Trivia)
    requires { Fronted (source_of p.old) p.old.state.run.seen before after }
    ensures { Leafs hash_front p.old p.new }
{
    let h = before.next;
    let x = after.next;
    let pen = p.state.run.pen;
    let a = parser::trivia::eat_trivia(p.source, p.table, pen, before.first, h.start);
    let b = parser::leaf(p.table, a, h);
    let c = parser::trivia::eat_trivia(p.source, p.table, b, after.first, x.start);
    p.state.run = parser::run_of(x, c);
}

// A group or a directive; before: the trivia before its HASH, which is passed over.
pub fn if_section_or_control_line(p: &mut Parser, before: Trivia)
    requires { Hashed (source_of p.old) p.old.state.run.seen before }
    ensures { Parses (hash_reader (length (source_of p.old))) p.old p.new }
{
    let h = before.next;
    let after = parser::trivia::behind(p.source, h.end, h.angle);
    let closed = group::is_group(p.source, after.next);
    if closed {
        hash(p, before, after);
        return group::pp_rs_ident(p);
    }
    p.start_node();
    hash(p, before, after);
    control_line(p);
}
