// The same group over a run that is handed by value: for a caller that has no open levels and no error table to lend, and so no `Parser`.
ghost use Rattle.std.specs.Prelude.{◌≡◌};
ghost use Rattle.definition.specs.SyntaxKind.{Kind as SyntaxKind};
ghost use Rattle.parser.specs.Rest.{Reading, Takes};
ghost use Rattle.group.specs.Group.{group_at};

use parser::Run;
use parser::source::Source;
use pre::class::Classes;

// Takes a group from its LPAREN on, up to the matching RPAREN or the end.
pub fn pp_rs_ident(src: &[u8], classes: &Classes, table: &mut [u32], run: Run) -> Run
    requires { (Reading src.now classes.now run.seen) × (run.seen.kind ≡ SyntaxKind.LPAREN) }
    ensures { Takes src.now (group_at src.now run.seen) table.old run table.new result }
{
    let source = Source { src, classes };
    let mut pen = run.pen;
    let mut x = run.seen;
    let mut count: u32 = 0;
    'leaves: while x.kind != 0 {
        pen = parser::leaf(table, pen, x);
        count = crate::brackets(x.kind, count);
        x = parser::see(source, x.end, x.angle);
        if count == 0 {
            return parser::run_of(x, pen);
        }
    }
    parser::run_of(x, pen)
}
