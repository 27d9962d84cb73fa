// Operands without signs and brackets: literals, names, and `defined` with a name.
ghost use Rattle.std.specs.Prelude.{◌≡◌, Err, Decides};
ghost use Rattle.text.specs.declared.refusal.Refusal.TheVariants.{Expression};
ghost use Rattle.definition.specs.Condition.Expression.{word};
ghost use Rattle.definition.specs.Condition.Meaning.{listed};
ghost use Rattle.definition.specs.Condition.Reader.{asked_in, asked};
ghost use Rattle.arithmetic.specs.Told.{told};
ghost use Rattle.parser.specs.Rest.{leaf_seen, Held};
ghost use Rattle.condition.specs.Steps.{Stands, look_in, worth, left, numbered, simple, Gets};

use crate::{Reader, Step, leaf};
use parser::Seen;
use syntax_kind::number::Kind;
use text::refusal::Refusal;

// Whether a literal was none.
fn no_literal(value: Result<i32, Refusal>) -> bool
    ensures { Decides result (value ≡ Err Expression) }
{
    matches!(value, Err(Refusal::Expression))
}

impl<'a> Reader<'a> {
    // Whether a name is in the list.
    fn listed(&self, x: Seen) -> Result<i32, Refusal>
        requires held { Held self.now.source.src.now x }
        requires some { x.kind ≡ 0 → ⊥ }
        ensures { told result ≡ listed (look_in self.now.list.now self.now.text.now (word (leaf_seen self.now.source.src.now x))) }
    {
        Ok(i32::from(names::is_listed(self.list, self.text, self.bytes(x))))
    }

    // The name behind `defined (`, and the bracket's end.
    fn defined_in(&self, x: Seen) -> Option<Step>
        requires { Stands self.now.source.src.now x }
        ensures { Gets self.now.source.src.now (asked_in (worth self.now.list.now self.now.text.now) (left self.now.source.src.now x)) result }
    {
        if !leaf::is(x, Kind::IDENT_KW) {
            return None;
        }
        let c = self.next(x);
        if !leaf::is(c, Kind::RPAREN) {
            return None;
        }
        let value = self.listed(x);
        let next = self.next(c);
        Some(Step { next, value })
    }

    // What is behind `defined`: a name, in brackets or not.
    fn defined(&self, x: Seen) -> Option<Step>
        requires { Stands self.now.source.src.now x }
        ensures { Gets self.now.source.src.now (asked (worth self.now.list.now self.now.text.now) (left self.now.source.src.now x)) result }
    {
        match x.kind {
            Kind::IDENT_KW => Some(Step {
                next: self.next(x),
                value: self.listed(x),
            }),
            Kind::LPAREN => self.defined_in(self.next(x)),
            _ => None,
        }
    }

    // A DIGITS leaf, which must be a literal.
    fn number(&self, x: Seen) -> Option<Step>
        requires stands { Stands self.now.source.src.now x }
        requires some { x.kind ≡ 0 → ⊥ }
        ensures { Gets self.now.source.src.now (numbered (left self.now.source.src.now x)) result }
    {
        let value = literal::literal(self.bytes(x));
        if no_literal(value) {
            return None;
        }
        let next = self.next(x);
        Some(Step { next, value })
    }

    // An operand without signs and brackets.
    pub fn operand(&self, x: Seen) -> Option<Step>
        requires { Stands self.now.source.src.now x }
        ensures { Gets self.now.source.src.now (simple (worth self.now.list.now self.now.text.now) (left self.now.source.src.now x)) result }
    {
        match x.kind {
            Kind::DIGITS => self.number(x),
            Kind::IDENT_KW => Some(Step {
                next: self.next(x),
                value: names::value_of(self.list, self.text, self.bytes(x)),
            }),
            Kind::DEFINED => self.defined(self.next(x)),
            _ => None,
        }
    }
}
