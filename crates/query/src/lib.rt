// Rule 9 and demand 3: the numbers of the tags of a table that match a query. One walk in file order hands down from each record to those in
// it the set of the steps that may come next, and passes over a record in which nothing can match.
#![tactic(auto)]

ghost use Rattle.std.specs.Prelude.{◌≡◌, ℕ, ◌*◌, ◌≤◌, length};
ghost use Rattle.form.specs.Answer.{got, record_limit, depth_limit, failed};
ghost use Rattle.form.specs.Form.{Form, form_no};
ghost use Rattle.form.specs.Table.{node, none, value_of};
ghost use Rattle.form.specs.Tables.{IsTable};
ghost use Rattle.form.specs.Paths.{matches};
ghost use Rattle.form.specs.Query.{shallow, asked, within, Finds, QueryIs};
ghost use Rattle.query_steps.specs.Steps.{steps_from, QueryIn};
ghost use Rattle.query_reach.specs.Sets.{has as hasIn};
ghost use Rattle.query.specs.Found.{found_count, depth_out, Uncounted, UnansweredAs};
ghost use Rattle.query.specs.Sides.{Side, Walkable};
ghost use Rattle.query.specs.Walks.{Walks, hit, goes_in, Done};

use form::refusals::{Refusal, Refused};
use query_steps::Query;
use table::Unfit;

// A query that is refused: why, the place, and in 24 how many tags match.
#[derive(Clone, Copy, Debug)]
pub struct Unanswered {
    pub refusal: Refusal,
    pub place: usize,
    pub count: usize,
}

impl From<Refused> for Unanswered {
    ghost from_gives = { Uncounted };

    // A refusal that carries no count.
    fn from(refused: Refused) -> Unanswered {
        Unanswered {
            refusal: refused.refusal,
            place: refused.place,
            count: 0,
        }
    }
}

impl From<Unfit> for Unanswered {
    ghost from_gives = { UnansweredAs };

    // Nor does that of a table.
    fn from(unfit: Unfit) -> Unanswered {
        Unanswered::from(Refused::from(unfit))
    }
}

// ---- depth

// Refusal 7: the first container, among the records from `from` up to `end` and those in them, where only `left` may stand within each other.
fn first_deep(table: &[u32], from: usize, end: usize, left: usize) -> Result<(), Refused>
    requires { ((d : ℕ) × (Side d table.now from end)) × (9 * end ≤ length table.now) }
    ensures { (d : ℕ) (g : Side d table.now from end) → depth_out result ≡ shallow left from g.forest }
{
    let mut i = from;
    // A `while`: the next record is where this one ends.
    while i < end {
        let next = table::word(table, i, table::END);
        if table::is_container(table::word(table, i, table::KIND)) {
            if left == 0 {
                return Err(Refused {
                    refusal: Refusal::TooDeep,
                    place: i,
                });
            }
            first_deep(table, i + 1, next, left - 1)?;
        }
        i = next;
    }
    Ok(())
}

// ---- the walk

// A match is counted, and written if there is room for it: record n, where the end is in its set.
fn note(list: &mut [u32], count: usize, set: u32, n: usize) -> usize
    requires { (count ≤ record_limit) × (n ≤ record_limit) }
    ensures { Walks (hit (hasIn set 0) n) count list.old result list.new }
{
    if !query_reach::has(set, 0) {
        return count;
    }
    if count < list.len() {
        list[count] = n as u32;
    }
    count + 1
}

// Whether the records in record n, which ends at `end`, are looked at.
fn goes_in(set: u32, n: usize, end: usize) -> bool
    requires { n ≤ record_limit }
    ensures { result ≡ goes_in set n end }
{
    n + 1 < end && query_reach::goes_on(set)
}

// The records in record n, one after the other, each with those in it, where `set` has the steps that may come next. Nothing in a record is
// looked at where none may.
fn visit_all(
    doc: &[u8],
    table: &[u32],
    q: &[u8],
    plan: &[u32; query_reach::PLAN],
    n: usize,
    set: u32,
    list: &mut [u32],
    count: usize,
) -> usize
    requires { Walkable doc.now table.now q.now plan.now n set count }
    ensures { Done doc.now table.now q.now plan.now n set count list.old result list.new }
{
    let end = table::word(table, n, table::END);
    let mut more = count;
    let mut i = n + 1;
    let mut index: usize = 0;
    // A `while`: the next record is where this one ends.
    while i < end {
        let own = query_reach::next(doc, table, q, plan, set, n, i, index);
        more = note(list, more, own, i);
        let next = table::word(table, i, table::END);
        if goes_in(own, i, next) {
            more = visit_all(doc, table, q, plan, i, own, list, more);
        }
        i = next;
        index += 1;
    }
    more
}

// How many tags of a table match; their numbers are written into the list as far as it has room.
fn walk(doc: &[u8], table: &[u32], q: &[u8], query: Query, list: &mut [u32]) -> usize
    requires { ((i : IsTable (length doc.now) table.now) × (shallow depth_limit 0 (node i.head i.inner none) ≡ got tt)) × (length table.now ≤ 9 * record_limit) × (QueryIn q.now query) }
    ensures { (f : Form) (i : IsTable (length doc.now) table.now) → Walks (matches (value_of f doc.now i.head i.inner) (steps_from q.now query 0)) 0 list.old result list.new }
{
    let mut plan = [0u32; query_reach::PLAN];
    query_reach::lay(query, &mut plan);
    let set = query_reach::start(&plan, query.count);
    let more = note(list, 0, set, 0);
    if goes_in(set, 0, table::word(table, 0, table::END)) {
        return visit_all(doc, table, q, &plan, 0, set, list, more);
    }
    more
}

// ---- the answer

// What asking a table gives: a container too deep (7), then a query that is malformed (14), then more matches than there is room (24), with
// the true count. The list is written only where the count is known to fit: it has a word for every record, or the matches were counted
// before, in a walk whose list is not the caller's.
fn ask(
    doc: &[u8],
    table: &[u32],
    q: &[u8],
    list: &mut [u32],
    form: u32,
) -> Result<usize, Unanswered>
    requires { (IsTable (length doc.now) table.now) × (length table.now ≤ 9 * record_limit) }
    ensures { (i : IsTable (length doc.now) table.now) → Finds (within (length list.old) (asked (form_no form) doc.now q.now i.head i.inner)) list.old (found_count result) list.new }
{
    first_deep(table, 0, table.len() / table::WORDS, form::DEPTH)?;
    let query = query_steps::take_apart(q, form)?;
    if list.len() < table.len() / table::WORDS {
        let mut none = [0u32; 1];
        let count = walk(doc, table, q, query, &mut none);
        if list.len() < count {
            return Err(Unanswered {
                refusal: Refusal::MoreMatches,
                place: 0,
                count,
            });
        }
    }
    Ok(walk(doc, table, q, query, list))
}

// Rule 9 and demand 3: the numbers of the tags that match the query, in file order, from the list's beginning on, and how many they are.
// Order of refusals: 9, 10, 7, 14, 24; a refusal changes nothing.
pub fn query(
    doc: &[u8],
    table: &[u32],
    q: &[u8],
    list: &mut [u32],
    form: u32,
) -> Result<usize, Unanswered>
    ensures { QueryIs (form_no form) doc.now table.now q.now list.old (found_count result) list.new }
{
    table::is_table(doc.len(), table)?;
    ask(doc, table, q, list, form)
}
