// The value of a conditional expression under a list of names (Req 03).
#![tactic(auto)]

pub mod expression;
pub mod leaf;
pub mod operand;

ghost use Rattle.std.specs.Prelude.{◌≡◌};
ghost use Rattle.definition.specs.Calls.{refusal, source_checks};
ghost use Rattle.definition.specs.Condition.Valuing.{valuing};
ghost use Rattle.arithmetic.specs.Told.{told};
ghost use Rattle.condition.specs.Promise.{Values};

use arithmetic::Value;
use parser::Seen;
use parser::source::Source;
use pre::class;
use text::refusal::Refusal;
use text::source;

// How many brackets and unary signs may be open.
const MOST_OPEN: u32 = 64;

// The kind that is seen where no leaf is left.
const END: u8 = 0;

// A source that is read with the table of classes, and the list of names, which stand in the second text.
#[derive(Clone, Copy)]
pub struct Reader<'a> {
    pub source: Source<'a>,
    pub list: &'a [u32],
    pub text: &'a [u8],
}

// An expression that was read: what it comes to, and the leaf behind it.
#[derive(Clone, Copy)]
pub struct Step {
    pub next: Seen,
    pub value: Result<i32, Refusal>,
}

// What a source that is not refused comes to; nothing may follow the expression.
fn whole<'x>(source: Source<'x>, list: &'x [u32], text: &'x [u8]) -> Result<i32, Refusal>
    requires { 0 ≡ refusal (source_checks source.src.now) }
    ensures { told result ≡ valuing source.entry.src.now list.now text.now }
{
    let reader = Reader { source, list, text };
    let x = reader.first();
    let Some(a) = reader.expression(x, MOST_OPEN, 0) else {
        return Err(Refusal::Expression);
    };
    if !leaf::is(a.next, END) {
        return Err(Refusal::Expression);
    }
    a.value
}

// What the source comes to.
fn outcome(src: &[u8], list: &[u32], text: &[u8]) -> Result<i32, Refusal>
    ensures { told result ≡ valuing src.now list.now text.now }
{
    source::check(src)?;
    let classes = class::class_table();
    let source = Source {
        src,
        classes: &classes,
    };
    whole(source, list, text)
}

// The value of an expression; names stand in the second text, by four numbers each.
pub fn value(src: &[u8], list: &[u32], text: &[u8]) -> Value
    ensures { Values src.now list.now text.now result }
{
    outcome(src, list, text).into()
}
