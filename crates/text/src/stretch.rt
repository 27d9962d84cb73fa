// Looks at several bytes of a source together. Each byte is looked at, and nothing is decided between them: a compiler looks at many at once.
ghost use Rattle.std.specs.Prelude.{◌≡◌, ℕ, Bool, ◌+◌, ◌<◌, ◌≤◌, length, leb, IfSome, MatchOption};
ghost use Rattle.text.specs.Stretch.{Tests, each_passes, nowhere, Passing, Passed, FirstFailing};

// Stands for no place of a look: bytes are looked at together, which an Option for each would stop.
const NOWHERE: u8 = 255;

// Whether n bytes stand at a place.
pub fn stand(src: &[u8], at: usize, n: usize) -> bool
    ensures { result ≡ leb (at + n) (length src.now) }
{
    n <= src.len() && at <= src.len() - n
}

// Whether each of the N bytes at a place passes a test.
fn all_pass<const N: usize, F: Fn(u8) -> bool>(src: &[u8], at: usize, passes: &F) -> bool
    requires callable { F.IsAlwaysCallable passes.now }
    requires within { at + N ≤ length src.now }
    ensures { (test : ℕ → Bool) → Tests (F.post passes.now) test → result ≡ each_passes test N at src.now }
{
    let mut all = true;
    for b in &src[at..at + N] {
        all &= passes(*b);
    }
    all
}

// Behind the bytes at a place that pass a test, as far as they do so in whole steps of N.
pub fn pass_steps<const N: usize, F: Fn(u8) -> bool>(src: &[u8], at: usize, passes: &F) -> usize
    requires callable { F.IsAlwaysCallable passes.now }
    requires some { 0 < N }
    ensures { (test : ℕ → Bool) → Tests (F.post passes.now) test → Passed test src.now at result }
{
    let mut i = at;
    while stand(src, i, N) && all_pass::<N, F>(src, i, passes) {
        i += N;
    }
    i
}

// Behind the bytes at a place that pass a test, up to one that does not.
pub fn pass_each<F: Fn(u8) -> bool>(src: &[u8], at: usize, passes: &F) -> usize
    requires callable { F.IsAlwaysCallable passes.now }
    requires within { at ≤ length src.now }
    ensures { (test : ℕ → Bool) → Tests (F.post passes.now) test → Passing test src.now at result }
{
    for (k, b) in src[at..].iter().enumerate() {
        if !passes(*b) {
            return at + k;
        }
    }
    src.len()
}

// Where the first of the N bytes at a place stands that does not pass a test, counted from there.
pub fn first_failing<const N: usize, F: Fn(u8) -> bool>(
    src: &[u8],
    at: usize,
    passes: &F,
) -> Option<usize>
    requires callable { F.IsAlwaysCallable passes.now }
    requires within { at + N ≤ length src.now }
    requires few { N ≤ nowhere }
    ensures below { IfSome result (λ k. k < N) }
    ensures first { (test : ℕ → Bool) → Tests (F.post passes.now) test → MatchOption result (Passing test src.now at (at + N)) (FirstFailing test N src.now at) }
{
    let mut first = NOWHERE;
    for (k, b) in src[at..at + N].iter().enumerate() {
        let place = if passes(*b) { NOWHERE } else { k as u8 };
        first = first.min(place);
    }
    let k = first as usize;
    if k < N { Some(k) } else { None }
}

// Behind the bytes at a place that pass a test, up to one that does not, or to where fewer than N stand.
pub fn pass_to<const N: usize, F: Fn(u8) -> bool>(src: &[u8], at: usize, passes: &F) -> usize
    requires callable { F.IsAlwaysCallable passes.now }
    requires some { 0 < N }
    requires few { N ≤ nowhere }
    ensures { (test : ℕ → Bool) → Tests (F.post passes.now) test → Passed test src.now at result }
{
    let mut i = at;
    while stand(src, i, N) {
        match first_failing::<N, F>(src, i, passes) {
            Some(k) => return i + k,
            None => i += N,
        }
    }
    i
}
