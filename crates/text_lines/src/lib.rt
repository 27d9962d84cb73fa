// Text lines: their leaves go straight from the source into the table, line after line.
#![tactic(auto)]

ghost use Rattle.std.specs.Prelude.{◌≡◌, true, ◌<◌, length, get_or, IfSome};
ghost use Rattle.syntax_kind.specs.Number.{number};
ghost use Rattle.theorems.specs.LeavesFrom.{leaves_from};
ghost use Rattle.pre.specs.Table.{class_number};
ghost use Rattle.parser.specs.Rest.{Sees, Held, unread};
ghost use Rattle.text_lines.specs.Lines.{Alone, Single, Quick, Begins, Shown, Going, Lined};

use parser::source::Source;
use parser::{Run, Seen};
use pre::class::class_of;
use pre::token::Token;
use syntax_kind::kind::SyntaxKind;
use syntax_kind::number::Kind;
use text::newline::{byte_at, newline_at};
use tree::Pen;

// Whether a character of class c is a token alone, whatever follows: [ ] ( ) { } ~ : ; , ? A call of it at each token would be slower.
#[inline(always)]
pub fn single(c: SyntaxKind) -> bool
    ensures { result ≡ true → Single (number c) }
{
    matches!(
        c,
        SyntaxKind::LBRACKET
            | SyntaxKind::RBRACKET
            | SyntaxKind::LPAREN
            | SyntaxKind::RPAREN
            | SyntaxKind::LBRACE
            | SyntaxKind::RBRACE
            | SyntaxKind::TILDE
            | SyntaxKind::COLON
            | SyntaxKind::SEMICOLON
            | SyntaxKind::COMMA
            | SyntaxKind::QUESTION
    )
}

// The same of a class by its number, whatever the number.
#[tactic(auto, using(crate::proofs::Quickly::single_of))]
pub fn single_number(c: u8) -> bool
    ensures { result ≡ true → Single c }
{
    let bracket = Kind::LBRACKET <= c && c <= Kind::RBRACE;
    bracket || c == Kind::TILDE || (Kind::COLON <= c && c <= Kind::QUESTION)
}

// Whether nothing glues to an operator of class c, or a PERIOD, before a character of class d: only `=` and the operator itself may. Not said of `/` and
// `<`, which take more looking.
#[inline(always)]
fn unglued(c: SyntaxKind, d: SyntaxKind) -> bool
    ensures { result ≡ true → Alone (number c) (number d) }
{
    match c {
        SyntaxKind::PERIOD => d != SyntaxKind::DIGITS,
        SyntaxKind::PLUS
        | SyntaxKind::DASH
        | SyntaxKind::ASTERISK
        | SyntaxKind::PERCENT
        | SyntaxKind::RANGLE
        | SyntaxKind::CARET
        | SyntaxKind::BAR
        | SyntaxKind::AMPERSAND
        | SyntaxKind::EQUAL
        | SyntaxKind::BANG
        | SyntaxKind::HASH => d != SyntaxKind::EQUAL && d != c,
        _ => false,
    }
}

// The token at a place that begins with punctuation of class c, where it is one character and that is seen at once.
fn quick_punct(source: Source, at: usize, c: SyntaxKind) -> Option<Token>
    requires within { at < length source.src.now }
    requires class { number c ≡ class_number (get_or source.src.now at 0) }
    ensures { IfSome result (Quick source.entry.src.now at) }
{
    let whole = Token {
        kind: c,
        end: at + 1,
    };
    if single(c) {
        return Some(whole);
    }
    let d = class_of(source.classes, byte_at(source.src, at + 1));
    if unglued(c, d) { Some(whole) } else { None }
}

// The token at a place that begins with a character of class c, where it is seen at once: a word, blanks, a number or one character. It is no
// continuation, and does not change whether an angle string is expected. One test after another: a match on the kind becomes a table of jumps, which is
// slower.
fn quick(source: Source, at: usize, c: SyntaxKind) -> Option<Token>
    requires within { at < length source.src.now }
    requires class { number c ≡ class_number (get_or source.src.now at 0) }
    ensures { IfSome result (Quick source.entry.src.now at) }
{
    if let SyntaxKind::IDENT_KW = c {
        let t = pre::ident::word(source.src, source.classes, at + 1);
        let kind = pre::name::name(source.src, at, t.end, t.kind);
        return Some(Token { kind, end: t.end });
    }
    if let SyntaxKind::WS = c {
        return Some(pre::whitespace::whitespace(source.src, source.classes, at + 1));
    }
    if let SyntaxKind::DIGITS = c {
        return Some(pre::digits::digits(source.src, source.classes, at + 1));
    }
    quick_punct(source, at, c)
}

// Whether a byte, with the one behind it, begins neither HASH nor a comment of several lines nor a continuation.
fn begins_text(b: u8, next: u8) -> bool
    ensures { result ≡ true → Begins b next }
{
    match b {
        b'#' => false,
        b'/' => next != b'*',
        _ => b != b'\\',
    }
}

// Whether the line from a place on is seen to be text, or blank, by its first bytes.
fn shows_text(source: Source, at: usize) -> bool
    ensures { result ≡ true → Shown source.entry.src.now at }
{
    let t = pre::whitespace::whitespace(source.src, source.classes, at);
    let i = t.end;
    i < source.src.len() && begins_text(source.src[i], byte_at(source.src, i + 1))
}

// Whether text goes on behind a leaf of this kind that ends there: in the same line, or in one that is seen to be text.
fn goes_on(source: Source, kind: u8, end: u32) -> bool
    ensures { Going source.entry.src.now kind end result }
{
    if kind == Kind::NEWLINE {
        return shows_text(source, end as usize);
    }
    true
}

// The leaf at a place within the source.
fn leaf_at(source: Source, at: u32, angle: bool) -> Seen
    requires within { at < length source.src.now }
    ensures { Sees source.entry.src.now at angle result }
{
    let place = at as usize;
    let c = class_of(source.classes, source.src[place]);
    if let Some(t) = quick(source, place, c) {
        return Seen {
            kind: t.kind.into(),
            start: at,
            end: t.end as u32,
            angle,
        };
    }
    if let SyntaxKind::NEWLINE = c {
        let end = place + newline_at(source.src, place);
        return Seen {
            kind: Kind::NEWLINE,
            start: at,
            end: end as u32,
            angle: false,
        };
    }
    parser::see(source, at, angle)
}

// Takes the rest of a text line, up to and with its NEWLINE, and the lines behind it while they are seen to be text; at and angle: where the rest
// begins, and whether an angle string is expected there. The place goes on by a leaf.
fn rest_of_lines(source: Source, table: &mut [u32], pen: Pen, at: u32, angle: bool) -> Run
    ensures { Lined source.entry.src.now (leaves_from source.entry.src.now at angle) table.old pen table.new result }
{
    let mut held = pen;
    let mut i = at;
    let mut flag = angle;
    'lines: while (i as usize) < source.src.len() {
        let x = leaf_at(source, i, flag);
        held = parser::leaf(table, held, x);
        if goes_on(source, x.kind, x.end) {
            i = x.end;
            flag = x.angle;
        } else {
            let seen = parser::see(source, x.end, x.angle);
            return Run { seen, pen: held };
        }
    }
    Run {
        seen: Seen {
            kind: 0,
            start: i,
            end: i,
            angle: flag,
        },
        pen: held,
    }
}

// Takes a text line from a leaf on that is seen, and the lines behind it while they are seen to be text.
pub fn text_lines(source: Source, table: &mut [u32], run: Run) -> Run
    requires held { Held source.src.now run.seen }
    requires some { run.seen.kind ≡ 0 → ⊥ }
    ensures { Lined source.entry.src.now (unread source.entry.src.now run.seen) table.old run.pen table.new result }
{
    let x = run.seen;
    let pen = parser::leaf(table, run.pen, x);
    if goes_on(source, x.kind, x.end) {
        return rest_of_lines(source, table, pen, x.end, x.angle);
    }
    let seen = parser::see(source, x.end, x.angle);
    Run { seen, pen }
}
