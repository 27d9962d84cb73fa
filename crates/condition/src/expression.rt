// Expression, unary and bracket readers, which call each other: brackets hold expressions that hold brackets again. The leaves that remain and the
// levels that may still be opened fall.
ghost use Rattle.std.specs.Prelude.{◌<◌};
ghost use Rattle.std.specs.Option.{SomeIff};
ghost use Rattle.definition.specs.Condition.Operators.{binary};
ghost use Rattle.definition.specs.Condition.Reader.{◌▸◌};
ghost use Rattle.theorems.specs.Climbing.{operand_of, expression_of};
ghost use Rattle.arithmetic.specs.Told.{rank_number};
ghost use Rattle.condition.specs.Steps.{Stands, worth, left, shut, Gets};

use crate::{Reader, Step, leaf};
use arithmetic::{binary as operators, rank, unary as signs};
use parser::Seen;
use syntax_kind::number::Kind;

// The rank of the binary operator of a kind, if it is higher than this one.
fn higher(kind: u8, rank: u32) -> Option<u32>
    ensures { SomeIff result (rank < rank_number (binary kind)) (rank_number (binary kind)) }
{
    let above = rank::rank(kind);
    if above <= rank {
        return None;
    }
    Some(above)
}

impl<'a> Reader<'a> {
    // An operand with its signs and brackets.
    #[cycle(bracket_expression_unary)]
    fn unary(&self, x: Seen, depth: u32) -> Option<Step>
        requires { Stands self.now.source.src.now x }
        ensures { Gets self.now.source.src.now (operand_of (worth self.now.list.now self.now.text.now) depth (left self.now.source.src.now x)) result }
    {
        if signs::is_sign(x.kind) {
            if depth == 0 {
                return None;
            }
            let y = self.next(x);
            let a = self.unary(y, depth - 1)?;
            return Some(Step {
                next: a.next,
                value: signs::sign(x.kind, a.value),
            });
        }
        if x.kind == Kind::LPAREN {
            if depth == 0 {
                return None;
            }
            let y = self.next(x);
            return self.bracket(y, depth - 1);
        }
        self.operand(x)
    }

    // What a bracket holds, and its end.
    #[cycle(bracket_expression_unary)]
    fn bracket(&self, x: Seen, depth: u32) -> Option<Step>
        requires { Stands self.now.source.src.now x }
        ensures { Gets self.now.source.src.now (expression_of (worth self.now.list.now self.now.text.now) depth 0 (left self.now.source.src.now x) ▸ shut) result }
    {
        let a = self.expression(x, depth, 0)?;
        if !leaf::is(a.next, Kind::RPAREN) {
            return None;
        }
        let next = self.next(a.next);
        Some(Step { next, ..a })
    }

    // An expression whose operators outside brackets have this rank, counted from 0, or a higher one.
    #[cycle(bracket_expression_unary)]
    pub fn expression(&self, x: Seen, depth: u32, rank: u32) -> Option<Step>
        requires { Stands self.now.source.src.now x }
        ensures { Gets self.now.source.src.now (expression_of (worth self.now.list.now self.now.text.now) depth rank (left self.now.source.src.now x)) result }
    {
        let mut a = self.unary(x, depth)?;
        while let Some(above) = higher(a.next.kind, rank) {
            let y = self.next(a.next);
            let b = self.expression(y, depth, above)?;
            a = Step {
                next: b.next,
                value: operators::join(a.next.kind, a.value, b.value),
            };
        }
        Some(a)
    }
}
