// Runs of plain bytes, 1 to 127 but for two that the caller names: in both codings each is a value by itself (rule 2), and in a token and its
// content it stands for itself where neither is a backslash or the quote (rule 12). Many are told at a time, with no branch for each.
#![tactic(auto)]

ghost use Rattle.std.specs.Prelude.{◌≡◌, ◌+◌, ◌-◌, ◌≤◌, length, nat_lt};
ghost use Rattle.form.specs.Answer.{pick};
ghost use Rattle.plain.specs.Runs.{plain_byte, mark, plain_in, short_plain, Plain};

// 0 where a byte is 1 to 127, and neither p nor q, else 1: one less is then at most 126, and a zero byte wraps to 255.
pub fn unplain(p: u8, q: u8, b: u8) -> u8
    ensures { result ≡ mark (plain_byte p q b) }
{
    if 126 < std::num::wrapping_sub_u8(b, 1) {
        return 1;
    }
    if b == p {
        return 1;
    }
    if b == q {
        return 1;
    }
    0
}

// The greater of the two.
pub fn raise(top: u8, x: u8) -> u8
    ensures { result ≡ pick (nat_lt top x) x top }
{
    if top < x { x } else { top }
}

// Whether n bytes from a place on are plain. No branch for each byte, so that the compiler takes them at once where n is a literal.
pub fn all_plain(p: u8, q: u8, text: &[u8], at: usize, n: usize) -> bool
    requires { at + n ≤ length text.now }
    ensures { result ≡ plain_in p q text.now at n }
{
    let mut top: u8 = 0;
    for k in 0..n {
        top = raise(top, unplain(p, q, text[at + k]));
    }
    top == 0
}

// How far blocks of plain bytes reach from a place on.
pub fn plain_blocks(p: u8, q: u8, text: &[u8], at: usize, end: usize) -> usize
    requires { (at ≤ end) × (end ≤ length text.now) }
    ensures { (at ≤ result) × (result ≤ end) × Plain p q text.now at result }
{
    let mut i = at;
    // A `while`: the blocks end where one is not plain or the bytes left are fewer.
    while 16 <= end - i && all_plain(p, q, text, i, 16) {
        i += 16;
    }
    i
}

// How far plain bytes reach from a place on: by blocks, and then one by one.
fn plain_from(p: u8, q: u8, text: &[u8], at: usize, end: usize) -> usize
    requires { (at ≤ end) × (end ≤ length text.now) }
    ensures { (at ≤ result) × (result ≤ end) × Plain p q text.now at result }
{
    for i in plain_blocks(p, q, text, at, end)..end {
        if unplain(p, q, text[i]) != 0 {
            return i;
        }
    }
    end
}

// The same, with no block tried where the first byte is not plain.
pub fn plain_end(p: u8, q: u8, text: &[u8], at: usize, end: usize) -> usize
    requires { (at ≤ end) × (end ≤ length text.now) }
    ensures { (at ≤ result) × (result ≤ end) × Plain p q text.now at result }
{
    if at == end {
        return at;
    }
    if unplain(p, q, text[at]) == 0 {
        return plain_from(p, q, text, at, end);
    }
    at
}

// Whether a slice is plain, by its first n bytes and its last n, which overlap or meet.
fn both_plain(p: u8, text: &[u8], n: usize) -> bool
    requires { (n ≤ length text.now) × (length text.now ≤ n + n) }
    ensures { result ≡ plain_in p p text.now 0 (length text.now) }
{
    if all_plain(p, p, text, 0, n) {
        return all_plain(p, p, text, text.len() - n, n);
    }
    false
}

// Whether a slice is short and plain, as most are: nothing more is then to be asked of it.
pub fn is_plain(p: u8, text: &[u8]) -> bool
    ensures { result ≡ short_plain p text.now }
{
    let size = text.len();
    if size < 4 {
        return all_plain(p, p, text, 0, size);
    }
    if size < 8 {
        return both_plain(p, text, 4);
    }
    if size < 16 {
        return both_plain(p, text, 8);
    }
    if size < 32 {
        return both_plain(p, text, 16);
    }
    if size < 64 {
        return both_plain(p, text, 32);
    }
    false
}
