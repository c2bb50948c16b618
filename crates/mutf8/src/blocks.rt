// Blocks of 64 or 16 bytes that are passed at once: they are plain, or fit behind each other so that both codings read them alike.
// What no block takes is left to be read value by value.
ghost use Rattle.std.specs.Prelude.{◌≡◌, true, ◌+◌, ◌≤◌, ◌<◌, length};
ghost use Rattle.mutf8.specs.Runs.{Passed, Fits, Fitting, Edge};

use plain::raise;

// 1 where a byte that follows a lead byte is due behind p and, before it, q; else 0.
fn due(q: u8, p: u8) -> u8
    ensures { (p < 192 → q < 224 → result ≡ 0) × (192 ≤ p → result ≡ 1) × (224 ≤ q → result ≡ 1) }
{
    if 192 <= p {
        return 1;
    }
    if 224 <= q {
        return 1;
    }
    0
}

// 1 where b is a byte that follows a lead byte; else 0.
fn follows(b: u8) -> u8
    ensures { (b < 128 → result ≡ 0) × (192 ≤ b → result ≡ 0) × (128 ≤ b → b < 192 → result ≡ 1) }
{
    if b < 128 {
        return 0;
    }
    if 192 <= b {
        return 0;
    }
    1
}

// 0 only where the two are the same.
fn differ(x: u8, y: u8) -> u8
    ensures { result ≡ 0 → x ≡ y }
{
    if x == y { 0 } else { 1 }
}

// 0 only where b is no zero byte, begins no overlong form of two bytes and no four bytes.
fn wrong(b: u8) -> u8
    ensures { result ≡ 0 → (0 < b) × (b < 240) × (192 ≤ b → 194 ≤ b) }
{
    if b == 0 {
        return 1;
    }
    if 240 <= b {
        return 1;
    }
    if b == 0xC0 {
        return 1;
    }
    if b == 0xC1 {
        return 1;
    }
    0
}

// 0 only where b behind p makes no overlong form of three bytes and no half of a pair.
fn barred(p: u8, b: u8) -> u8
    ensures { result ≡ 0 → (p ≡ 224 → 160 ≤ b) × (p ≡ 237 → b < 160) }
{
    let lead: u8 = if b < 160 { 0xE0 } else { 0xED };
    if p == lead { 1 } else { 0 }
}

// 0 only where b fits behind p and, before it, q.
fn odd(q: u8, p: u8, b: u8) -> u8
    ensures { result ≡ 0 → Fits q p b }
{
    raise(raise(differ(due(q, p), follows(b)), wrong(b)), barred(p, b))
}

// Whether each of 64 bytes from a place on fits behind the two before it. No branch for each byte, as in all_plain.
fn all_fit(s: &[u8], at: usize) -> bool
    requires { (2 ≤ at) × (at + 64 ≤ length s.now) }
    ensures { result ≡ true → Fitting s.now at (at + 64) }
{
    let mut top: u8 = 0;
    for k in at..at + 64 {
        top = raise(top, odd(s[k - 2], s[k - 1], s[k]));
    }
    top == 0
}

// Whether no sequence that began before a place goes on there.
fn is_edge(s: &[u8], at: usize) -> bool
    requires { (2 ≤ at) × (at ≤ length s.now) }
    ensures { result ≡ true → Edge s.now at }
{
    if 192 <= s[at - 1] {
        return false;
    }
    if 224 <= s[at - 2] {
        return false;
    }
    true
}

// A place at most two before this one, without the lead bytes whose sequences go on behind it.
fn whole(s: &[u8], at: usize) -> usize
    requires { (2 ≤ at) × (at ≤ length s.now) }
    ensures { (result ≤ at) × (at ≤ result + 2) }
{
    if 192 <= s[at - 1] {
        return at - 1;
    }
    if 224 <= s[at - 2] {
        return at - 2;
    }
    at
}

// Goes on by up to eight blocks of sequences that both codings read alike.
fn blocks(s: &[u8], at: usize) -> usize
    requires { Edge s.now at × (at ≤ length s.now) }
    ensures { Passed s.now at result }
{
    let mut i = at;
    for _ in 0..8 {
        if s.len() - i < 64 {
            return i;
        }
        let next = whole(s, i + 64);
        if !is_edge(s, next) {
            return i;
        }
        if !all_fit(s, i) {
            return i;
        }
        i = next;
    }
    i
}

// The same from any place, where a block may begin there.
fn mixed(s: &[u8], at: usize) -> usize
    requires { at ≤ length s.now }
    ensures { Passed s.now at result }
{
    if at < 2 {
        return at;
    }
    if is_edge(s, at) {
        return blocks(s, at);
    }
    at
}

// Goes on by blocks as far as they reach: plain ones, then some that are not, and again; the last bytes by two that overlap.
pub fn pass(s: &[u8], at: usize) -> usize
    requires { at ≤ length s.now }
    ensures { Passed s.now at result }
{
    let mut i = at;
    // A `while`: a turn goes on by one block, or by several that are mixed.
    while 64 <= s.len() - i {
        if plain::all_plain(0, 0, s, i, 64) {
            i = i + 64;
            continue;
        }
        let j = mixed(s, i);
        if j <= i {
            return plain::plain_blocks(0, 0, s, i, s.len());
        }
        i = j;
    }
    if plain::is_plain(0, &s[i..]) {
        return s.len();
    }
    plain::plain_blocks(0, 0, s, i, s.len())
}
