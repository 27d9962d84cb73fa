// The refusals that every call on a source shares: it is too long, not UTF-8, or ends inside a character.
ghost use Rattle.std.specs.Prelude.{◌≡◌};
ghost use Rattle.definition.specs.Calls.{refusal, source_checks};
ghost use Rattle.text.specs.Refusal.{code};

use crate::refusal::Refusal;
use crate::utf8::{self, Utf8Error};

const LONGEST: usize = 16_777_216;

impl From<Utf8Error> for Refusal {
    ghost use Rattle.text.specs.Utf8.{Refuses};

    ghost from_gives = { Refuses };

    fn from(e: Utf8Error) -> Refusal {
        match e {
            Utf8Error::Cut => Refusal::Cut,
            Utf8Error::Broken => Refusal::Utf8,
        }
    }
}

// The first refusal of a source.
pub fn check(src: &[u8]) -> Result<(), Refusal>
    ensures { code result ≡ refusal (source_checks src.now) }
{
    if LONGEST < src.len() {
        return Err(Refusal::Length);
    }
    utf8::check(src)?;
    Ok(())
}
