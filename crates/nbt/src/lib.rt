// The library to link: every entry point under its C name, each one line over a call that keeps the same promise. include/tikfazrul.h says
// what each word of an answer is, crates/calls/specs defines it.
#![tactic(auto)]

ghost use Rattle.form.specs.Moved.{eight, nine};
ghost use Rattle.form.specs.Answer.{bad_string, bad_text};
ghost use Rattle.form.specs.Form.{modified, utf8, java, form_no, way_from, stays};
ghost use Rattle.calls.specs.Calls.{StringCalled, ReadCalled, TableCalled, WriteCalled, RescueCalled, WriteLinesCalled, ReadLinesCalled, MoveCalled, QueryCalled, TokenCalled, ContentCalled, ParseCalled};

// Whether bytes are modified UTF-8 (rule 2): 4 at the first sequence that can't be read.
#[unsafe(no_mangle)]
pub extern "C" fn tikfazrul_check_mutf8(bytes: &[u8], answer: &mut [u64; 8])
    ensures { StringCalled modified bad_string bytes.now answer.new }
{
    call_strings::check_string(0, bytes, answer);
}

// Whether bytes keep the string rule of a form, 0 for Java's and 2 for the pocket edition's: 4 at the first sequence that can't be read ([2]).
#[unsafe(no_mangle)]
pub extern "C" fn tikfazrul_check_string(form: u32, bytes: &[u8], answer: &mut [u64; 8])
    ensures { StringCalled (form_no form).strings bad_string bytes.now answer.new }
{
    call_strings::check_string(form, bytes, answer);
}

// Whether bytes are UTF-8: 15 at the first sequence that can't be read.
#[unsafe(no_mangle)]
pub extern "C" fn tikfazrul_check_utf8(bytes: &[u8], answer: &mut [u64; 8])
    ensures { StringCalled utf8 bad_text bytes.now answer.new }
{
    call_strings::check_utf8(bytes, answer);
}

// Reads a document into a table of records (rules 3 to 6).
#[unsafe(no_mangle)]
pub extern "C" fn tikfazrul_read(doc: &[u8], table: &mut [u32], answer: &mut [u64; 8])
    ensures { ReadCalled java doc.now table.old table.new answer.new }
{
    call_read::read(0, doc, table, answer);
}

// Reads a document in a form, 0 for Java's and 2 for the pocket edition's ([2]).
#[unsafe(no_mangle)]
pub extern "C" fn tikfazrul_read_in(form: u32, doc: &[u8], table: &mut [u32], answer: &mut [u64; 8])
    ensures { ReadCalled (form_no form) doc.now table.old table.new answer.new }
{
    call_read::read(form, doc, table, answer);
}

// Whether words form a table over a document of doc_len bytes (rule 7).
#[unsafe(no_mangle)]
pub extern "C" fn tikfazrul_is_table(doc_len: usize, table: &[u32], answer: &mut [u64; 8])
    ensures { TableCalled doc_len table.now answer.new }
{
    call_table::is_table(doc_len, table, answer);
}

// Writes the document that a table stands for (rule 8). The table comes back as it was.
#[unsafe(no_mangle)]
pub extern "C" fn tikfazrul_write(
    doc: &[u8],
    table: &mut [u32],
    out: &mut [u8],
    answer: &mut [u64; 8],
)
    ensures { WriteCalled (stays java) doc.now table.old table.new out.old out.new answer.new }
{
    call_write::write(0, doc, table, out, answer);
}

// Writes the document that a table stands for in the form that its bytes have, as tikfazrul_read_in takes it ([2]).
#[unsafe(no_mangle)]
pub extern "C" fn tikfazrul_write_in(
    form: u32,
    doc: &[u8],
    table: &mut [u32],
    out: &mut [u8],
    answer: &mut [u64; 8],
)
    ensures { WriteCalled (stays (form_no form)) doc.now table.old table.new out.old out.new answer.new }
{
    call_write::write(form, doc, table, out, answer);
}

// Writes the document that a table stands for in another form than its own, with all values kept ([2]): `from` is the form that its bytes
// have, `to` the form to be written. The table comes back as it was.
#[unsafe(no_mangle)]
pub extern "C" fn tikfazrul_convert(
    from: u32,
    to: u32,
    doc: &[u8],
    table: &mut [u32],
    out: &mut [u8],
    answer: &mut [u64; 8],
)
    ensures { WriteCalled (way_from (form_no from) (form_no to)) doc.now table.old table.new out.old out.new answer.new }
{
    call_write::convert(from, to, doc, table, out, answer);
}

// Writes a whole document of one that is cut, with every tag that was completely read before the cut ([11]); a line of three words in the
// list of changes for each open container. Refusal 24 comes with the true count of lines.
#[unsafe(no_mangle)]
pub extern "C" fn tikfazrul_rescue(
    form: u32,
    doc: &[u8],
    table: &mut [u32],
    out: &mut [u8],
    changes: &mut [u32],
    answer: &mut [u64; 8],
)
    ensures { RescueCalled (form_no form) doc.now table.old table.new out.old out.new changes.old changes.new answer.new }
{
    call_rescue::rescue(form, doc, table, out, changes, answer);
}

// Writes the lines of a table over a document of doc_len bytes, one record a line ([6]).
#[unsafe(no_mangle)]
pub extern "C" fn tikfazrul_write_lines(
    doc_len: usize,
    table: &[u32],
    out: &mut [u8],
    answer: &mut [u64; 8],
)
    ensures { WriteLinesCalled doc_len table.now out.old out.new answer.new }
{
    call_store::write_lines(doc_len, table, out, answer);
}

// Reads lines back into a table ([6]). Whether the words form one is not asked.
#[unsafe(no_mangle)]
pub extern "C" fn tikfazrul_read_lines(lines: &[u8], table: &mut [u32], answer: &mut [u64; 8])
    ensures { ReadLinesCalled lines.now table.old table.new answer.new }
{
    call_store::read_lines(lines, table, answer);
}

// Moves lines of eight words, as records had in 01, to lines of nine, with the parents worked out, over a document of doc_len bytes ([8]).
#[unsafe(no_mangle)]
pub extern "C" fn tikfazrul_lines_up(
    doc_len: usize,
    lines: &[u8],
    out: &mut [u8],
    answer: &mut [u64; 8],
)
    ensures { MoveCalled eight doc_len lines.now out.old out.new answer.new }
{
    call_moves::lines_up(doc_len, lines, out, answer);
}

// Moves lines of nine words back to lines of eight, which drops the parents ([8]).
#[unsafe(no_mangle)]
pub extern "C" fn tikfazrul_lines_down(
    doc_len: usize,
    lines: &[u8],
    out: &mut [u8],
    answer: &mut [u64; 8],
)
    ensures { MoveCalled nine doc_len lines.now out.old out.new answer.new }
{
    call_moves::lines_down(doc_len, lines, out, answer);
}

// Asks a table which of its tags match a query (rule 9). Refusal 24 comes with the true count.
#[unsafe(no_mangle)]
pub extern "C" fn tikfazrul_query(
    doc: &[u8],
    table: &[u32],
    query: &[u8],
    list: &mut [u32],
    answer: &mut [u64; 8],
)
    ensures { QueryCalled java doc.now table.now query.now list.old list.new answer.new }
{
    call_query::query(0, doc, table, query, list, answer);
}

// Asks a table of a document in a form; names in the query are in that form's strings, its lengths and indices big-endian in every form ([2]).
#[unsafe(no_mangle)]
pub extern "C" fn tikfazrul_query_in(
    form: u32,
    doc: &[u8],
    table: &[u32],
    query: &[u8],
    list: &mut [u32],
    answer: &mut [u64; 8],
)
    ensures { QueryCalled (form_no form) doc.now table.now query.now list.old list.new answer.new }
{
    call_query::query(form, doc, table, query, list, answer);
}

// The next token of a text from a start on (rules 10 to 13).
#[unsafe(no_mangle)]
pub extern "C" fn tikfazrul_token(text: &[u8], start: usize, stops: u32, answer: &mut [u64; 8])
    ensures { TokenCalled text.now start stops answer.new }
{
    call_token::token(text, start, stops, answer);
}

// A string token's content, unescaped, in modified UTF-8 (rule 12).
#[unsafe(no_mangle)]
pub extern "C" fn tikfazrul_content(
    text: &[u8],
    start: usize,
    end: usize,
    quoted: u8,
    out: &mut [u8],
    answer: &mut [u64; 8],
)
    ensures { ContentCalled text.now start end quoted out.old out.new answer.new }
{
    call_content::content(text, start, end, quoted, out, answer);
}

// The document that a text means (rules 14 and 15).
#[unsafe(no_mangle)]
pub extern "C" fn tikfazrul_parse(text: &[u8], out: &mut [u8], answer: &mut [u64; 8])
    ensures { ParseCalled text.now out.old out.new answer.new }
{
    call_parse::parse(text, out, answer);
}
