// The table of a define body as its reading leaves it.
ghost use Rattle.std.specs.Prelude.{◌≡◌, ◌/◌, ◌≤◌, length};
ghost use Rattle.definition.specs.Tree.{Width};
ghost use Rattle.definition.specs.Calls.{refusal};
ghost use Rattle.text.specs.Refusal.{number, code};
ghost use Rattle.tables.specs.Decided.{Countable, body_ended_checks, BodyRefused, BodyFinished};

use crate::{ENTRY, clear_behind};
use text::Counted;
use text::refusal::Refusal;

// The refusal of a body that held too many ##, or not, and ended at n, with a table of this length, if there is one.
#[tactic(auto, unfolding(definition::specs::Calls::refusal))]
pub fn shortage(over: bool, n: usize, entries: usize) -> Result<(), Refusal>
    ensures { code result ≡ refusal (body_ended_checks over n entries) }
{
    if over {
        return Err(Refusal::Concats);
    }
    if entries < n {
        return Err(Refusal::Entries);
    }
    Ok(())
}

// A body refused by a number, that of a `Refusal` or any other: the table is cleared. One table in place of three, which no loop can hold.
pub fn refused_number(entries: &mut [u32], refusal: u32) -> Counted
    ensures { BodyRefused refusal (length entries.old) result entries.new }
{
    table::clear(entries);
    Counted { refusal, count: 0 }
}

// A refused body.
pub fn refused(entries: &mut [u32], refusal: Refusal) -> Counted
    ensures { BodyRefused (number refusal) (length entries.old) result entries.new }
{
    refused_number(entries, refusal.into())
}

// A body that is not refused and ended at n: the table is cleared behind it. It stays lent whole; only its rest is cleared.
pub fn finished(entries: &mut [u32], n: usize) -> Counted
    requires { (n ≤ length entries.old) × Countable (n / Width.entry) }
    ensures { BodyFinished n entries.old result entries.new }
{
    clear_behind(entries, n);
    Counted::from(Ok((n / ENTRY) as u32))
}
