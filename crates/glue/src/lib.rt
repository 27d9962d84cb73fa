// The glue lexer: operators of several characters (`glue.rs`).
#![tactic(auto)]

ghost use Rattle.std.specs.Prelude.{◌≡◌, false, length};
ghost use Rattle.definition.specs.SyntaxKind.{Kind};
ghost use Rattle.theorems.specs.Step.{Gluing, Stepped};
ghost use Rattle.syntax_kind.specs.Number.{number, maybe};
ghost use Rattle.pre.specs.Table.{class_table};
ghost use Rattle.glue.specs.Next.{Nexts, Operator, peeked, settled};

use pre::PreLexer;
use pre::class::{Classes, class_of};
use pre::digits::digits;
use syntax_kind::kind::SyntaxKind;
use syntax_kind::operators;

// Where the lexer stands, and whether `<` opens a string.
#[derive(Clone, Copy)]
pub struct Lexer {
    pub input: PreLexer,
}

// The kind of a token, and the state behind it, where the token ends.
#[derive(Clone, Copy)]
pub struct Step {
    pub kind: SyntaxKind,
    pub next: Lexer,
}

impl Step {
    // A token that ends there.
    fn new(kind: SyntaxKind, at: usize, angle: bool) -> Self
        ensures { result ≡ record { kind = kind; next = record { input = record { at = at; angle = angle } } } }
    {
        let next = Lexer {
            input: PreLexer { at, angle },
        };
        Self { kind, next }
    }
}

// The kind of an operator together with a token that begins with b, if they glue. Only `=` and the operator
// itself glue to it, so `with_equal` and `doubled` are called, which are inlined here, as `operators::glue` is not.
fn peek(table: &Classes, kind: SyntaxKind, b: u8, angle: bool) -> Option<SyntaxKind>
    requires table { table.now ≡ class_table }
    requires operator { number kind ≡ Kind.PERIOD → ⊥ }
    ensures { maybe result ≡ peeked (number kind) b angle }
{
    if angle && b == b'<' {
        return None;
    }
    let next = class_of(table, b);
    if let SyntaxKind::EQUAL = next {
        operators::with_equal(kind)
    } else if next == kind {
        operators::doubled(kind)
    } else {
        None
    }
}

// The operator of kind `kind` that has been read up to `at`, with what glues to it. Of `start` and `flag`, where the token
// starts and whether an angle string was expected there, only the contract speaks.
fn operator(
    src: &[u8],
    table: &Classes,
    start: usize,
    flag: bool,
    kind: SyntaxKind,
    at: usize,
    angle: bool,
) -> Step
    requires table { table.now ≡ class_table }
    requires operator { Operator src.now start flag (number kind) at angle }
    ensures { Stepped src.now start flag (number result.kind) result.next.input.at result.next.input.angle }
{
    let mut k = kind;
    let mut e = at;
    while e < src.len() {
        let Some(j) = peek(table, k, src[e], angle) else {
            return Step::new(k, e, angle);
        };
        k = j;
        e += 1;
    }
    Step::new(k, e, angle)
}

// A PERIOD that ends at `at`, with the number behind it. Of `start` and `flag` only the contract speaks.
fn period(src: &[u8], table: &Classes, start: usize, flag: bool, at: usize, angle: bool) -> Step
    requires table { table.now ≡ class_table }
    requires period { Gluing src.now start flag Kind.PERIOD at angle }
    ensures { Stepped src.now start flag (number result.kind) result.next.input.at result.next.input.angle }
{
    if src.len() <= at {
        return Step::new(SyntaxKind::PERIOD, at, angle);
    }
    let SyntaxKind::DIGITS = class_of(table, src[at]) else {
        return Step::new(SyntaxKind::PERIOD, at, angle);
    };
    let t = digits(src, table, at + 1);
    match t.kind {
        SyntaxKind::DIGITS => Step::new(SyntaxKind::DIGITS, t.end, angle),
        _ => Step::new(SyntaxKind::PERIOD, at, angle),
    }
}

// Whether nothing glues to a token of this kind: a word, a number, a string, trivia, a NEWLINE or an ERROR.
#[tactic(auto, unfolding(crate::specs::Next::settled))]
fn settles(k: SyntaxKind) -> bool
    ensures { result ≡ settled (number k) }
{
    matches!(
        k,
        SyntaxKind::IDENT_KW
            | SyntaxKind::DEFINED
            | SyntaxKind::DIGITS
            | SyntaxKind::QUOTE_STRING
            | SyntaxKind::ANGLE_STRING
            | SyntaxKind::BACKSLASH
            | SyntaxKind::WS
            | SyntaxKind::NEWLINE
            | SyntaxKind::COMMENT
            | SyntaxKind::LINECONT
            | SyntaxKind::ERROR
    )
}

impl Lexer {
    pub fn new() -> Self
        ensures { (result.input.at ≡ 0) × (result.input.angle ≡ false) }
    {
        let input = PreLexer::new();
        Self { input }
    }

    // The same place, with `<` expected to open a string, or not.
    pub fn set_expect_angle_string(self, angle: bool) -> Self
        ensures { (result.input.at ≡ self.input.at) × (result.input.angle ≡ angle) }
    {
        let p = self.input;
        Self {
            input: PreLexer { at: p.at, angle },
        }
    }

    // The token where the lexer stands, and the state behind it; None at the end of the source.
    pub fn next(self, src: &[u8], table: &Classes) -> Option<Step>
        requires { table.now ≡ class_table }
        ensures { Nexts src.now self result }
    {
        let p = self.input;
        let t = p.next(src, table)?;
        let n = t.next;
        if settles(t.kind) {
            return Some(Step::new(t.kind, n.at, n.angle));
        }
        if let SyntaxKind::PERIOD = t.kind {
            return Some(period(src, table, p.at, p.angle, n.at, n.angle));
        }
        Some(operator(src, table, p.at, p.angle, t.kind, n.at, n.angle))
    }
}
