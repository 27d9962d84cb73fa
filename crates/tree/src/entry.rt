// The entries of a table.
ghost use Rattle.std.specs.Prelude.{◌≡◌};
ghost use Rattle.table.specs.Row.{page};
ghost use Rattle.definition.specs.Tree.{leaf_entry};
ghost use Rattle.tree.specs.Forms.{number, entry_of};
ghost use Rattle.tree.specs.Machine.{open_entry, enter, patched};

use table::row::put_row;

// The forms of an entry, by their numbers.
#[derive(Clone, Copy, PartialEq, Eq, Debug)]
pub enum Form {
    Leaf = 0,
    Node = 1,
}

// The number that stands in the table.
impl From<Form> for u32 {
    ghost from_gives = { λ f n. n ≡ number f };

    fn from(f: Form) -> u32 {
        f as u32
    }
}

// The kind of a node that is still open: a number of the lent table (C interface), which is written over when the node ends.
const OPEN_KIND: u32 = 0;

// How many numbers an entry has, and where its kind and its end stand behind the first, its form.
const WIDTH: usize = 5;

const KIND: usize = 1;

const END: usize = 4;

// An entry, by what its numbers say.
#[derive(Clone, Copy)]
pub struct Entry {
    pub form: Form,
    pub kind: u32,
    pub level: u32,
    pub start: u32,
    pub end: u32,
}

impl Entry {
    // A node that begins.
    pub fn open(level: u32, start: u32) -> Self
        ensures { entry_of result ≡ open_entry level start }
    {
        Self {
            form: Form::Node,
            kind: OPEN_KIND,
            level,
            start,
            end: start,
        }
    }

    pub fn leaf(kind: u32, level: u32, start: u32, end: u32) -> Self
        ensures { entry_of result ≡ leaf_entry kind level start end }
    {
        Self {
            form: Form::Leaf,
            kind,
            level,
            start,
            end,
        }
    }
}

// Writes an entry at n, if it has room, and gives the place of the next.
#[tactic(auto, unfolding(definition::specs::Tree::entry_numbers))]
pub fn put(table: &mut [u32], n: usize, e: Entry) -> usize
    ensures { page table.new result ≡ enter (entry_of e) (page table.old n) }
{
    put_row(table, n, &[e.form.into(), e.kind, e.level, e.start, e.end])
}

// Writes an entry by its numbers, whatever its form, at n, if it has room, and gives the place of the next.
#[tactic(auto, unfolding(definition::specs::Tree::entry_numbers))]
pub fn put_numbers(
    table: &mut [u32],
    n: usize,
    form: u32,
    kind: u32,
    level: u32,
    start: u32,
    end: u32,
) -> usize
    ensures { page table.new result ≡ enter (record { form = form; kind = kind; level = level; start = start; end = end }) (page table.old n) }
{
    put_row(table, n, &[form, kind, level, start, end])
}

// Puts the kind and the end of the entry at n in, if it had room.
#[tactic(auto, unfolding(crate::specs::Machine::patched, table::specs::Row::fits))]
pub fn patch(table: &mut [u32], n: usize, kind: u32, pos: u32)
    ensures { table.new ≡ patched table.old n kind pos }
{
    if WIDTH <= table.len().saturating_sub(n) {
        table[n + KIND] = kind;
        table[n + END] = pos;
    }
}
