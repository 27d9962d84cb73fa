// The lent list of names, four numbers each: start and end in a second text, a mark and a value as 32 bits (Req 03).
#![tactic(auto)]

ghost use Rattle.std.specs.Prelude.{◌≡◌};
ghost use Rattle.definition.specs.Unescaped.{unescaped};
ghost use Rattle.definition.specs.Condition.Meaning.{names, spells, first, valued, listed};
ghost use Rattle.definition.specs.Condition.Value.{truth};
ghost use Rattle.arithmetic.specs.Told.{told};
ghost use Rattle.names.specs.Named.{named, found};
ghost use Rattle.names.specs.Place.{Finds, Begins};

use text::refusal::Refusal;

// A name of the list.
#[derive(Clone, Copy)]
pub struct Name {
    pub start: u32,
    pub end: u32,
    // 0: it has no value.
    pub mark: u32,
    pub bits: u32,
}

// How many numbers a name has.
const WIDTH: usize = 4;

// Whether a name in a text is a word, both unescaped; it must not be empty, and lie inside the text.
#[tactic(auto, unfolding(definition::specs::Condition::Meaning::spells))]
fn spelt(text: &[u8], name: Name, word: &[u8]) -> bool
    ensures { result ≡ spells text.now (unescaped word.now) (named name) }
{
    let start = name.start as usize;
    let end = name.end as usize;
    start < end && end <= text.len() && unescaped::same_unescaped(&text[start..end], word)
}

// The end of the list that begins with the first name that is a word, unescaped; numbers behind the last four are no name.
fn from_first<'a>(list: &'a [u32], text: &[u8], word: &[u8]) -> &'a [u32]
    ensures { Begins list.now text.now (unescaped word.now) result.now }
{
    let mut rest = list;
    while let [start, end, mark, bits, behind @ ..] = rest {
        let name = Name {
            start: *start,
            end: *end,
            mark: *mark,
            bits: *bits,
        };
        if spelt(text, name, word) {
            return rest;
        }
        rest = behind;
    }
    rest
}

// The first name that is a word, unescaped.
pub fn find(list: &[u32], text: &[u8], word: &[u8]) -> Option<Name>
    ensures { found result ≡ first text.now (unescaped word.now) (names list.now) }
{
    let [start, end, mark, bits, ..] = from_first(list, text, word) else {
        return None;
    };
    Some(Name {
        start: *start,
        end: *end,
        mark: *mark,
        bits: *bits,
    })
}

// The place of the first name that is a word, unescaped; where there is none, a place behind the last.
pub fn place(list: &[u32], text: &[u8], word: &[u8]) -> usize
    ensures { Finds list.now text.now (unescaped word.now) result }
{
    let rest = from_first(list, text, word);
    if rest.len() < WIDTH {
        return list.len();
    }
    list.len() - rest.len()
}

// The value of a word that is a name; it needs one.
#[tactic(auto, unfolding(definition::specs::Condition::Meaning::valued))]
pub fn value_of(list: &[u32], text: &[u8], word: &[u8]) -> Result<i32, Refusal>
    ensures { told result ≡ valued (first text.now (unescaped word.now) (names list.now)) }
{
    match find(list, text, word) {
        Some(name) if name.mark != 0 => Ok(name.bits.cast_signed()),
        _ => Err(Refusal::Name),
    }
}

// Whether the list has a word as a name, whatever its mark.
#[tactic(auto, unfolding(definition::specs::Condition::Meaning::listed))]
pub fn is_listed(list: &[u32], text: &[u8], word: &[u8]) -> bool
    ensures { truth result ≡ listed (first text.now (unescaped word.now) (names list.now)) }
{
    find(list, text, word).is_some()
}
