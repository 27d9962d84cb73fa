// Newlines: 10, 13, and both in either order as one (GLSL 3.1).
ghost use Rattle.std.specs.Prelude.{◌≡◌, drop, get_or};
ghost use Rattle.definition.specs.Newline.{chars};
ghost use Rattle.text.specs.Newline.{newline_pair, newline_len as Newline·newline_len};

// The byte at a place; 0 past the end: no caller looks for byte 0, so that the end needs no case of its own.
pub fn byte_at(src: &[u8], at: usize) -> u8
    ensures { result ≡ get_or src.now at 0 }
{
    src.get(at).copied().unwrap_or(0)
}

// How many bytes the newline has that begins with a, where b follows; 0: a begins none.
fn newline_len(a: u8, b: u8) -> usize
    ensures { result ≡ newline_pair a b }
{
    match a {
        b'\n' => 1 + usize::from(b == b'\r'),
        b'\r' => 1 + usize::from(b == b'\n'),
        _ => 0,
    }
}

// How many bytes the newline at a place has; 0: none stands there. The number is what a reader passes over; an
// Option would be taken apart for the same 0 where nothing is passed over.
pub fn newline_at(src: &[u8], at: usize) -> usize
    ensures { result ≡ Newline·newline_len (chars (drop at src.now)) }
{
    if src.len() <= at {
        return 0;
    }
    newline_len(src[at], byte_at(src, at + 1))
}
