// Which directive a word is.
#![tactic(auto)]

ghost use Rattle.std.specs.Prelude.{◌≡◌, ℕ};
ghost use Rattle.definition.specs.Text.{same};
ghost use Rattle.definition.specs.Unescaped.{unescaped};
ghost use Rattle.word.specs.Word.{letters, spelt_as, Finds, directive_at};

use syntax_kind::number::Kind;

// The places of the fourteen words in the table of directives, and what stands for an unknown word.
#[derive(Clone, Copy)]
pub struct Word {
    pub place: usize,
}

impl Word {
    pub const INCLUDE: usize = 0;

    pub const DEFINE: usize = 1;

    pub const UNDEF: usize = 2;

    pub const LINE: usize = 3;

    pub const ERROR: usize = 4;

    pub const PRAGMA: usize = 5;

    pub const VERSION: usize = 6;

    pub const IF: usize = 7;

    pub const IFDEF: usize = 8;

    pub const IFNDEF: usize = 9;

    pub const ELIF: usize = 10;

    pub const ELSE: usize = 11;

    pub const ENDIF: usize = 12;

    pub const EXTENSION: usize = 13;

    pub const UNKNOWN: usize = 14;
}

// Whether the text, unescaped, is one of the words. A literal is made anew in each call of the function that names it, so every word has a function.
fn is_include(text: &[u8]) -> bool
    ensures { result ≡ same (unescaped text.now) (letters "include") }
{
    unescaped::eq(text, b"include")
}

fn is_define(text: &[u8]) -> bool
    ensures { result ≡ same (unescaped text.now) (letters "define") }
{
    unescaped::eq(text, b"define")
}

fn is_undef(text: &[u8]) -> bool
    ensures { result ≡ same (unescaped text.now) (letters "undef") }
{
    unescaped::eq(text, b"undef")
}

fn is_line(text: &[u8]) -> bool
    ensures { result ≡ same (unescaped text.now) (letters "line") }
{
    unescaped::eq(text, b"line")
}

fn is_error(text: &[u8]) -> bool
    ensures { result ≡ same (unescaped text.now) (letters "error") }
{
    unescaped::eq(text, b"error")
}

fn is_pragma(text: &[u8]) -> bool
    ensures { result ≡ same (unescaped text.now) (letters "pragma") }
{
    unescaped::eq(text, b"pragma")
}

fn is_version(text: &[u8]) -> bool
    ensures { result ≡ same (unescaped text.now) (letters "version") }
{
    unescaped::eq(text, b"version")
}

fn is_if(text: &[u8]) -> bool
    ensures { result ≡ same (unescaped text.now) (letters "if") }
{
    unescaped::eq(text, b"if")
}

fn is_ifdef(text: &[u8]) -> bool
    ensures { result ≡ same (unescaped text.now) (letters "ifdef") }
{
    unescaped::eq(text, b"ifdef")
}

fn is_ifndef(text: &[u8]) -> bool
    ensures { result ≡ same (unescaped text.now) (letters "ifndef") }
{
    unescaped::eq(text, b"ifndef")
}

fn is_elif(text: &[u8]) -> bool
    ensures { result ≡ same (unescaped text.now) (letters "elif") }
{
    unescaped::eq(text, b"elif")
}

fn is_else(text: &[u8]) -> bool
    ensures { result ≡ same (unescaped text.now) (letters "else") }
{
    unescaped::eq(text, b"else")
}

fn is_endif(text: &[u8]) -> bool
    ensures { result ≡ same (unescaped text.now) (letters "endif") }
{
    unescaped::eq(text, b"endif")
}

fn is_extension(text: &[u8]) -> bool
    ensures { result ≡ same (unescaped text.now) (letters "extension") }
{
    unescaped::eq(text, b"extension")
}

// Whether the text, unescaped, is the word at a place.
fn spelt(w: usize, text: &[u8]) -> bool
    ensures { result ≡ spelt_as w text.now }
{
    match w {
        Word::INCLUDE => is_include(text),
        Word::DEFINE => is_define(text),
        Word::UNDEF => is_undef(text),
        Word::LINE => is_line(text),
        Word::ERROR => is_error(text),
        Word::PRAGMA => is_pragma(text),
        Word::VERSION => is_version(text),
        Word::IF => is_if(text),
        Word::IFDEF => is_ifdef(text),
        Word::IFNDEF => is_ifndef(text),
        Word::ELIF => is_elif(text),
        Word::ELSE => is_else(text),
        Word::ENDIF => is_endif(text),
        Word::EXTENSION => is_extension(text),
        _ => false,
    }
}

// The place of the word that the text is, unescaped.
pub fn find_word(text: &[u8]) -> usize
    ensures { Finds text.now result }
{
    let mut w: usize = 0;
    'search: loop {
        if Word::UNKNOWN <= w {
            break 'search Word::UNKNOWN;
        }
        if spelt(w, text) {
            break 'search w;
        }
        w += 1;
    }
}

// The kind of the node of the directive at a place.
pub fn node_kind(w: usize) -> u8
    ensures { (n : ℕ) → result ≡ (directive_at n w).node_kind }
{
    match w {
        Word::INCLUDE => Kind::PP_INCLUDE,
        Word::DEFINE => Kind::PP_DEFINE,
        Word::UNDEF => Kind::PP_UNDEF,
        Word::LINE => Kind::PP_LINE,
        Word::ERROR => Kind::PP_ERROR,
        Word::PRAGMA => Kind::PP_PRAGMA,
        Word::VERSION => Kind::PP_VERSION,
        Word::IF => Kind::PP_IF,
        Word::IFDEF => Kind::PP_IFDEF,
        Word::IFNDEF => Kind::PP_IFNDEF,
        Word::ELIF => Kind::PP_ELIF,
        Word::ELSE => Kind::PP_ELSE,
        Word::ENDIF => Kind::PP_ENDIF,
        Word::EXTENSION => Kind::PP_EXTENSION,
        _ => Kind::ERROR,
    }
}
