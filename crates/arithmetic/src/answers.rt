// The operators over answers, whose refusals are numbers: whatever number an answer brings, it is handed on.
ghost use Rattle.std.specs.Prelude.{◌≡◌};
ghost use Rattle.arithmetic.specs.Told.{joined, signed_by};
ghost use Rattle.arithmetic.specs.Answers.{outcome_of};

use crate::{Value, binary, unary};
use syntax_kind::number::Kind;

// The number of an answer that nothing refuses.
const NONE: u32 = 0;

// What the operator of a kind makes of its two sides: the first refusal met counts, and the right side of && and || only when it is needed.
pub fn join(kind: u8, a: Value, b: Value) -> Value
    ensures { outcome_of result ≡ joined kind (outcome_of a) (outcome_of b) }
{
    if a.refusal != NONE {
        return a;
    }
    let x = a.value;
    if b.refusal == NONE {
        return binary::join(kind, Ok(x), Ok(b.value)).into();
    }
    if kind == Kind::AND_OP && x == 0 {
        return Ok(0).into();
    }
    if kind == Kind::OR_OP && x != 0 {
        return Ok(1).into();
    }
    b
}

// What the sign of a kind makes of its operand.
pub fn sign(kind: u8, a: Value) -> Value
    ensures { outcome_of result ≡ signed_by kind (outcome_of a) }
{
    if a.refusal != NONE {
        return a;
    }
    unary::sign(kind, Ok(a.value)).into()
}
