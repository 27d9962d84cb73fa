// What follows a directive's word.
ghost use Rattle.std.specs.Prelude.{length};
ghost use Rattle.word.specs.Word.{directive_at};
ghost use Rattle.parser_run.specs.Parses.{source_of, Parses};

use crate::{body, define};
use parser_run::Parser;
use syntax_kind::number::Kind;
use word::Word;

// What is read behind the word at a place; nothing behind `else`, `endif` and an unknown word.
#[tactic(auto, unfolding(definition::specs::Syntax::directives, word::specs::Word::row_at, word::specs::Word::directive_at), using(crate::proofs::Parts::word_parses, crate::proofs::Parts::nothing_read))]
pub fn rest(p: &mut Parser, w: usize)
    ensures { Parses (directive_at (length (source_of p.old)) w).reads p.old p.new }
{
    match w {
        Word::INCLUDE => body::pp_include(p),
        Word::DEFINE => define::pp_define(p),
        Word::UNDEF | Word::IFDEF | Word::IFNDEF => crate::pp_if_ident(p),
        Word::LINE => body::pp_body(p, Kind::PP_LINE_BODY),
        Word::ERROR => body::pp_body(p, Kind::PP_ERROR_BODY),
        Word::PRAGMA => body::pp_body(p, Kind::PP_PRAGMA_BODY),
        Word::VERSION => crate::pp_version(p),
        Word::IF | Word::ELIF => body::pp_body(p, Kind::PP_IF_EXPR),
        Word::EXTENSION => crate::pp_extension(p),
        _ => {}
    }
}
