// The listing of glued tokens: kind, start and end of each, angle strings never expected.
#![tactic(auto)]

ghost use Rattle.std.specs.Prelude.{◌≡◌, false, ◌≤◌, ◌<◌, length, IfSome, IfOk};
ghost use Rattle.definition.specs.Glue.{tokens, token_numbers};
ghost use Rattle.definition.specs.Calls.{longest_source, listing_tokens};
ghost use Rattle.text.specs.Refusal.{code};
ghost use Rattle.pre.specs.Table.{class_table};
ghost use Rattle.text_lines.specs.Lines.{Quick};
ghost use Rattle.table.specs.Fills.{Fills};
ghost use Rattle.table.specs.Row.{page, Laid};
ghost use Rattle.tokens.specs.Listed.{Listed};

use glue::Lexer;
use pre::PreLexer;
use pre::class::{self, Classes, class_of};
use pre::token::Token;
use syntax_kind::kind::SyntaxKind;
use table::row::put_row;
use text::refusal::Refusal;
use text::{Counted, source};

// How many numbers a token has.
const WIDTH: usize = 3;

// The token at a place within the source that is seen at once: a word, blanks, or a character to which nothing glues. For the others the lexer takes
// a step: that is a call, since the reading of a source takes such steps too. Apart from `text_lines::quick`: a listing that looks for a word's end among
// 32 bytes at once is slower where words come again in the same places.
fn quick(src: &[u8], classes: &Classes, at: usize) -> Option<Token>
    requires table { classes.now ≡ class_table }
    requires within { at < length src.now }
    ensures { IfSome result (Quick src.now at) }
{
    let c = class_of(classes, src[at]);
    if let SyntaxKind::IDENT_KW = c {
        let t = pre::ident::ident(src, classes, at + 1);
        let kind = pre::name::name(src, at, t.end, t.kind);
        return Some(Token { kind, end: t.end });
    }
    if let SyntaxKind::WS = c {
        return Some(pre::whitespace::whitespace(src, classes, at + 1));
    }
    if text_lines::single(c) {
        return Some(Token {
            kind: c,
            end: at + 1,
        });
    }
    None
}

// Writes the numbers of the tokens into a table, and gives the place behind them, or a far one if they don't fit. The place goes on by a token.
fn fill(src: &[u8], t: &mut [u32]) -> usize
    requires { length src.now ≤ longest_source }
    ensures { Laid (token_numbers 0 (tokens false src.now)) (page t.old 0) (page t.new result) }
{
    let classes = class::class_table();
    let mut angle = false;
    let mut at: usize = 0;
    let mut n: usize = 0;
    while at < src.len() {
        if let Some(q) = quick(src, &classes, at) {
            n = put_row(t, n, &[q.kind.into(), at as u32, q.end as u32]);
            at = q.end;
            continue;
        }
        let lexer = Lexer {
            input: PreLexer { at, angle },
        };
        let Some(step) = lexer.next(src, &classes) else {
            return n;
        };
        let input = step.next.input;
        let end = input.at;
        n = put_row(t, n, &[step.kind.into(), at as u32, end as u32]);
        angle = input.angle;
        at = end;
    }
    n
}

// Lists the tokens of a source and clears the table behind them, or says why the call is refused.
fn tokens_into(src: &[u8], tokens: &mut [u32]) -> Result<u32, Refusal>
    ensures code { code result ≡ (listing_tokens src.now (length tokens.old)).refused }
    ensures length { length tokens.new ≡ length tokens.old }
    ensures listed { IfOk result (Listed (listing_tokens src.now (length tokens.old)) tokens.new) }
{
    source::check(src)?;
    let n = fill(src, tokens);
    if tokens.len() < n {
        return Err(Refusal::Entries);
    }
    table::clear(&mut tokens[n..]);
    Ok((n / WIDTH) as u32)
}

// The tokens of a source.
pub fn list(src: &[u8], tokens: &mut [u32]) -> Counted
    ensures { Fills (listing_tokens src.now (length tokens.old)) result tokens.new }
{
    let outcome = tokens_into(src, tokens);
    if outcome.is_err() {
        table::clear(tokens);
    }
    outcome.into()
}
