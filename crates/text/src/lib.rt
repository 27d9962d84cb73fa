// What the calls share: the UTF-8 check, newlines, looks at several bytes together, the refusals of a source, and the answer of a call that fills a table.
#![tactic(auto)]

pub mod newline;
pub mod refusal;
pub mod source;
pub mod stretch;
pub mod utf8;

use crate::refusal::Refusal;

// The answer of a call that fills one table: the refusal number, 0 if none, and how many entries, tokens, lines or bytes it wrote.
#[repr(C)]
#[derive(Clone, Copy)]
pub struct Counted {
    pub refusal: u32,
    pub count: u32,
}

impl From<Result<u32, Refusal>> for Counted {
    ghost use Rattle.text.specs.Answers.{Answers};

    ghost from_gives = { Answers };

    fn from(outcome: Result<u32, Refusal>) -> Counted {
        match outcome {
            Ok(count) => Counted { refusal: 0, count },
            Err(refusal) => Counted {
                refusal: refusal.into(),
                count: 0,
            },
        }
    }
}
