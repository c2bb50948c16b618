// The moves of stored lines under the promises of their C names: each fills eight words that the caller lends (include/tikfazrul.h).
#![tactic(auto)]

ghost use Rattle.form.specs.Moved.{eight, nine};
ghost use Rattle.table_stored.specs.Words.{edition_of};
ghost use Rattle.calls.specs.Calls.{MoveCalled};

// Moves lines to the other edition, and gives the words of the answer: how many bytes were written, or the number and the place of the refusal.
fn moved(doc_len: usize, lines: &[u8], nine: bool, out: &mut [u8], answer: &mut [u64; 8])
    ensures { MoveCalled (edition_of nine) doc_len lines.now out.old out.new answer.new }
{
    let given = if nine {
        table_moves::lines_down(doc_len, lines, out)
    } else {
        table_moves::lines_up(doc_len, lines, out)
    };
    *answer = match given {
        Ok(bytes) => [0, 0, bytes as u64, 0, 0, 0, 0, 0],
        Err(refused) => call_words::refusal(refused.refusal, refused.place),
    };
}

// Moves lines of eight words to lines of nine ([8]).
pub fn lines_up(doc_len: usize, lines: &[u8], out: &mut [u8], answer: &mut [u64; 8])
    ensures { MoveCalled eight doc_len lines.now out.old out.new answer.new }
{
    moved(doc_len, lines, false, out, answer);
}

// Moves lines of nine words to lines of eight ([8]).
pub fn lines_down(doc_len: usize, lines: &[u8], out: &mut [u8], answer: &mut [u64; 8])
    ensures { MoveCalled nine doc_len lines.now out.old out.new answer.new }
{
    moved(doc_len, lines, true, out, answer);
}
