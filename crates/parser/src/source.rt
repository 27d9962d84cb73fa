// What is read, and the table that its bytes are told by.
ghost use Rattle.std.specs.Prelude.{◌≡◌, ◌≤◌, length};
ghost use Rattle.definition.specs.Calls.{longest_source};
ghost use Rattle.pre.specs.Table.{class_table};

use pre::class::Classes;

// A source that is not refused for its length, and the table of classes.
#[derive(Clone, Copy)]
pub struct Source<'a> {
    pub src: &'a [u8],
    pub classes: &'a Classes,
    pub ghost table: { classes.now ≡ class_table },
    pub ghost short: { length src.now ≤ longest_source },
}
