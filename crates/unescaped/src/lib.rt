// Unescaping a text (unescaped.rs): each backslash is dropped with the one newline after it, and all else is kept.
#![tactic(auto)]

ghost use Rattle.std.specs.Prelude.{◌≡◌, ◌≤◌, ◌⊎◌, length, drop, replicate, IfOk, IfErr};
ghost use Rattle.definition.specs.Text.{same};
ghost use Rattle.definition.specs.Unescaped.{unescaped};
ghost use Rattle.definition.specs.Calls.{unescaping};
ghost use Rattle.table.specs.Fills.{Fills, Written};
ghost use Rattle.text.specs.Refusal.{code};
ghost use Rattle.unescaped.specs.Continuation.{continuation};
ghost use Rattle.unescaped.specs.Skips.{Skips};
ghost use Rattle.unescaped.specs.MayBe.{may_be as MayBe·may_be};

use text::refusal::Refusal;
use text::{Counted, newline, source};

// How many bytes the continuation at a place has, a backslash and a newline; 0: none stands there, and nothing is passed over.
#[tactic(auto, using(crate::proofs::Continuations::none_here, crate::proofs::Continuations::alone_here, crate::proofs::Continuations::continuation_here, crate::proofs::Continuations::continuation_fits))]
fn continuation_at(text: &[u8], at: usize) -> usize
    ensures { result ≡ continuation (drop at text.now) }
{
    if newline::byte_at(text, at) != b'\\' {
        return 0;
    }
    match newline::newline_at(text, at + 1) {
        0 => 0,
        w => w + 1,
    }
}

// The first place from a place on at which no continuation stands. Here and below, the place goes on by more than one where one is passed over.
pub fn skip(text: &[u8], at: usize) -> usize
    ensures { Skips text.now at result }
{
    let mut i = at;
    loop {
        match continuation_at(text, i) {
            0 => return i,
            w => i += w,
        }
    }
}

// Whether a text may be a word of so many bytes that begins with this one, unescaped. The word is told in numbers, since a literal would be made
// anew before the test; and its first byte before its length, since most texts begin otherwise, and a processor foresees that.
#[tactic(auto, unfolding(crate::specs::MayBe::may_be))]
pub fn may_be(text: &[u8], size: usize, first: u8) -> bool
    ensures { result ≡ MayBe·may_be text.now size first }
{
    let b = newline::byte_at(text, 0);
    (b == first || b == b'\\') && size <= text.len()
}

// Whether the text, unescaped, is the word, byte by byte.
fn eq_bytes(text: &[u8], word: &[u8]) -> bool
    ensures { result ≡ same (unescaped text.now) word.now }
{
    let mut i = 0;
    let mut k: usize = 0;
    while i < text.len() {
        match continuation_at(text, i) {
            0 => {
                if word.len() <= k || text[i] != word[k] {
                    return false;
                }
                i += 1;
                k += 1;
            }
            w => i += w,
        }
    }
    k == word.len()
}

// Whether the text, unescaped, is the word.
pub fn eq(text: &[u8], word: &[u8]) -> bool
    ensures { result ≡ same (unescaped text.now) word.now }
{
    may_be(text, word.len(), newline::byte_at(word, 0)) && eq_bytes(text, word)
}

// Whether two texts are the same, both unescaped; `eq_bytes` takes its word as it stands, so that the two loops are not one.
pub fn same_unescaped(a: &[u8], b: &[u8]) -> bool
    ensures { result ≡ same (unescaped a.now) (unescaped b.now) }
{
    let mut i = skip(a, 0);
    let mut k = skip(b, 0);
    while i < a.len() {
        if b.len() <= k || a[i] != b[k] {
            return false;
        }
        i = skip(a, i + 1);
        k = skip(b, k + 1);
    }
    b.len() <= k
}

// Writes the unescaped text into the output, as far as it goes, and counts all its bytes.
fn fill(text: &[u8], output: &mut [u8]) -> usize
    ensures { Written (unescaped text.now) output.old result output.new }
{
    let mut n: usize = 0;
    let mut i = 0;
    while i < text.len() {
        match continuation_at(text, i) {
            0 => {
                table::put(output, n, text[i]);
                n += 1;
                i += 1;
            }
            w => i += w,
        }
    }
    n
}

// Writes the unescaped text into a cleared output, or says why the call is refused: the output is then as it came, or cleared again if it was too short.
fn unescaped_into(text: &[u8], output: &mut [u8]) -> Result<u32, Refusal>
    ensures code { code result ≡ (unescaping text.now (length output.old)).refused }
    ensures written { IfOk result (λ n. Written (unescaped text.now) output.old n output.new) }
    ensures fits { IfOk result (λ n. n ≤ length output.new) }
    ensures refused { IfErr result (λ r. (output.new ≡ output.old) ⊎ (output.new ≡ replicate (length output.old) 0)) }
{
    source::check(text)?;
    let n = fill(text, output);
    if output.len() < n {
        output.fill(0);
        return Err(Refusal::Output);
    }
    Ok(n as u32)
}

// The unescaped text.
pub fn unescape(text: &[u8], output: &mut [u8]) -> Counted
    ensures { Fills (unescaping text.now (length output.old)) result output.new }
{
    output.fill(0);
    Counted::from(unescaped_into(text, output))
}
