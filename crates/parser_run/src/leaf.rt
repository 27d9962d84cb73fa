// Leaves that are taken.
ghost use Rattle.definition.specs.Parser as reader;
ghost use Rattle.parser.specs.Rest.{Takes};
ghost use Rattle.parser_run.specs.Parses.{source_of, Leafs};

use crate::Parser;

impl<'a> Parser<'a> {
    // Takes the leaf that is seen.
    #[tactic(auto, using(crate::proofs::Laws::took, crate::proofs::Laws::bump_rowed))]
    pub fn bump(&mut self)
        ensures { Leafs reader.bump self.old self.new }
    {
        self.state.run = parser::bump(self.source, self.table, self.state.run);
    }

    // Takes the trivia that comes next.
    #[tactic(auto, using(crate::proofs::Laws::took, crate::proofs::Laws::trivia_rowed))]
    pub fn skip_trivia(&mut self)
        ensures { Leafs reader.skip_trivia self.old self.new }
    {
        self.state.run = parser::skip_trivia(self.source, self.table, self.state.run);
    }

    // Takes the rest of the line, up to its NEWLINE or the end.
    #[tactic(auto, using(crate::proofs::Laws::took, crate::proofs::Laws::skip_rowed))]
    pub fn skip_inline(&mut self)
        ensures leafs { Leafs (reader.skip reader.inline) self.old self.new }
        ensures takes { Takes (source_of self.old) (reader.skip reader.inline) self.old.table.now self.old.state.run self.new.table.now self.new.state.run }
    {
        self.state.run = parser::skip_inline(self.source, self.table, self.state.run);
    }

    // Takes the leaf that is seen, but no NEWLINE.
    #[tactic(auto, using(crate::proofs::Parsing::inline_leafs, crate::proofs::Parsing::inline_stays))]
    pub fn bump_inline(&mut self)
        ensures { Leafs (reader.maybe reader.inline reader.bump) self.old self.new }
    {
        if !parser::ends_row(self.state.run.seen.kind) {
            self.bump();
        }
    }
}
