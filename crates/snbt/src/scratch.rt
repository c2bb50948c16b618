// A text that was judged, in scratch for its keys that is as large as it needs: an entry of the keys for each three bytes of the text.
ghost use Rattle.std.specs.Prelude.{◌≡◌, [], ◌∷◌, ◌-◌, ◌*◌, ◌≤◌, ◌<◌, length};
ghost use Rattle.form.specs.Answer.{depth_limit};
ghost use Rattle.form.specs.Spans.{over};
ghost use Rattle.snbt_form.specs.Text.{compound_at, value_at};
ghost use Rattle.snbt_key_text.specs.Keys.{KeyRoom};
ghost use Rattle.snbt.specs.Turns.{Ready, root_of};
ghost use Rattle.snbt.specs.Steps.{RootIs};

use crate::values;
use form::kinds;
use form::refusals::{Refusal, Refused};
use snbt_placing::Done;
use snbt_tokens::{Index, Stops, Token};

// The root's id and its empty name.
fn put_root(out: &mut [u8])
    requires { 3 ≤ length out.old }
    ensures { out.new ≡ over out.old 0 (10 ∷ 0 ∷ 0 ∷ []) }
{
    out[0] = kinds::COMPOUND;
    out[1] = 0;
    out[2] = 0;
}

// The root behind its `{`: its entries, then the three bytes before them.
fn rooted(
    text: &[u8],
    brace: Index,
    next: usize,
    out: &mut [u8],
    keys: &mut [u32],
    buffer: &mut [u8],
) -> Result<Done, Refused>
    requires { (Ready text.now keys.old buffer.old) × (next ≤ length text.now) × (1 ≤ next) }
    ensures { RootIs (compound_at text.now (length out.old) depth_limit (value_at text.now (length out.old) (depth_limit - 1)) brace.0 next 3) out.old result out.new }
{
    let done = values::parse_compound_tag(text, brace, next, out, 3, keys, 0, buffer, form::DEPTH)?;
    put_root(out);
    Ok(done)
}

// A text that was judged: its first token must be `{` (19, or 20 if it is blank). The root's id and empty name take 3 bytes.
fn root(text: &[u8], out: &mut [u8], keys: &mut [u32], buffer: &mut [u8]) -> Result<Done, Refused>
    requires { Ready text.now keys.old buffer.old }
    ensures { RootIs (root_of text.now (length out.old)) out.old result out.new }
{
    let due = snbt_due::due_at(text, 0, Stops::Default, Refusal::TextEnds, text.len())?;
    let index = due.td.index;
    match due.td.token {
        Token::OpenCurly => rooted(text, index, due.next, out, keys, buffer),
        _ => Err(Refused {
            refusal: Refusal::UnexpectedToken,
            place: index.0,
        }),
    }
}

// A text that was judged, in so much scratch: an entry of the keys for each three bytes of it, and a buffer for the longest key.
fn within<const KEYS: usize, const BUFFER: usize>(
    text: &[u8],
    out: &mut [u8],
) -> Result<Done, Refused>
    requires { (length text.now ≤ 3 * KEYS) × KeyRoom (length text.now) BUFFER × (KEYS ≤ 349526) × (BUFFER ≤ 65535) × (length text.now ≤ 1048576) }
    ensures { RootIs (root_of text.now (length out.old)) out.old result out.new }
{
    let mut keys: [u32; KEYS] = [0; KEYS];
    let mut buffer: [u8; BUFFER] = [0; BUFFER];
    root(text, out, &mut keys, &mut buffer)
}

// The text in the least scratch that holds it: eight times as much at each step. A compiler keeps the scratch of each step in a frame
// of its own, since it puts none into a function that calls itself.
pub fn stepped(text: &[u8], out: &mut [u8], limit: usize) -> Result<Done, Refused>
    requires { (length text.now ≤ 1048576) × (0 < limit) }
    ensures { RootIs (root_of text.now (length out.old)) out.old result out.new }
{
    if limit < text.len() {
        return stepped(text, out, limit * 8);
    }
    if limit <= 512 {
        return within::<171, 1024>(text, out);
    }
    if limit <= 4096 {
        return within::<1366, 8192>(text, out);
    }
    if limit <= 32768 {
        return within::<10923, 65535>(text, out);
    }
    if limit <= 262144 {
        return within::<87382, 65535>(text, out);
    }
    within::<349526, 65535>(text, out)
}
