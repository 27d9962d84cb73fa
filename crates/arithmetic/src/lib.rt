// Values of 32 bits, and what the operators of an expression do with them (Req 03).
#![tactic(auto)]

pub mod answers;
pub mod binary;
pub mod integer;
pub mod rank;
pub mod unary;

use text::refusal::Refusal;

// The answer of the call that works out a value: the refusal number, 0 if none, and the value, 0 where it is refused.
#[repr(C)]
#[derive(Clone, Copy)]
pub struct Value {
    pub refusal: u32,
    pub value: i32,
}

impl From<Result<i32, Refusal>> for Value {
    ghost use Rattle.arithmetic.specs.Answers.{Answers};

    ghost from_gives = { Answers };

    fn from(outcome: Result<i32, Refusal>) -> Value {
        match outcome {
            Ok(value) => Value { refusal: 0, value },
            Err(refusal) => Value {
                refusal: refusal.into(),
                value: 0,
            },
        }
    }
}
