// Rule 9 one hop at a time: which steps of a query may come next after the path to a record. A step is known by how many are left from it
// on: the last is step 1, and 0 is the end, past them all. A set of these numbers is a word with a bit for each.
#![tactic(auto)]

ghost use Rattle.std.specs.Prelude.{◌≡◌, List, [], ◌∷◌, ◌++◌, ◌&&◌, ℕ, ◌+◌, ◌≤◌, ◌^◌, length, leb};
ghost use Rattle.form.specs.Answer.{pick};
ghost use Rattle.form.specs.Spans.{part, same};
ghost use Rattle.form.specs.Paths.{Hop, Step as StepOf, takes};
ghost use Rattle.query_reach.specs.Levels.{name_of, hop_to, RecordIn};
ghost use Rattle.query_reach.specs.Sets.{has as hasIn, Bits, Least, goes_on, taken_of, Gathers, gathered};
ghost use Rattle.query_reach.specs.Plans.{words_of, planned, kind_in, Put, Laid, StepsOf, PlanIn, Reaches};
ghost use Rattle.query_steps.specs.Steps.{NameIn};

use query_steps::Query;

// ---- the steps as words

// How many words a step has, at three times its number: its kind, and of a name its span in the query's bytes, of an index its number.
const WORDS: usize = 3;

// Kinds as words.
const NAME: u32 = 1;

const INDEX: u32 = 2;

const DEEP: u32 = 4;

// In the place of step 0: the set of the steps that are 04, and that of those that are asked whether they take a hop, 01 and 02.
const DEEPS: usize = 0;

const ASKS: usize = 1;

// The words of sixteen steps, and of those two sets.
pub const PLAN: usize = WORDS * (form::STEPS + 1);

// The steps of a query as words, which are lent and not copied on the way down.
fn put_steps(query: Query, plan: &mut [u32])
    requires { (query.count ≤ 16) × (length plan.old ≡ 51) }
    ensures { Put query plan.old plan.new }
{
    let count = query.count;
    for s in 0..count {
        let step = query.steps[s];
        let at = WORDS * (count - s);
        plan[at] = step.kind as u32;
        plan[at + 1] = step.at;
        plan[at + 2] = step.len;
    }
}

// The steps of a plan whose kind lies between two.
fn of_kind(plan: &[u32; PLAN], count: usize, low: u32, high: u32) -> u32
    requires { count ≤ 16 }
    ensures { Bits (kind_in plan.now count low high) result }
{
    let mut set: u32 = 0;
    for s in 1..=count {
        set = set | mark(between(plan[WORDS * s], low, high), s);
    }
    set
}

// Whether a word lies between two.
fn between(x: u32, low: u32, high: u32) -> bool
    ensures { result ≡ (leb low x && leb x high) }
{
    low <= x && x <= high
}

// A query as words, with the two sets.
pub fn lay(query: Query, plan: &mut [u32; PLAN])
    requires { query.count ≤ 16 }
    ensures { Laid query plan.old plan.new }
{
    put_steps(query, plan);
    let count = query.count;
    let deeps = of_kind(plan, count, DEEP, DEEP);
    let asks = of_kind(plan, count, NAME, INDEX);
    plan[DEEPS] = deeps;
    plan[ASKS] = asks;
}

// ---- sets

// The set of one number.
fn only(s: usize) -> u32
    requires { s ≤ 16 }
    ensures { result ≡ 2 ^ s }
{
    1u32 << s
}

// Whether a number is in a set.
pub fn has(set: u32, s: usize) -> bool
    requires { s ≤ 16 }
    ensures { result ≡ hasIn set s }
{
    (set >> s) % 2 == 1
}

// The set of a number, or the empty one.
fn mark(b: bool, s: usize) -> u32
    requires { s ≤ 16 }
    ensures { result ≡ pick b (2 ^ s) 0 }
{
    if b { only(s) } else { 0 }
}

// The least number in a set.
fn least(set: u32) -> usize
    requires { set ≡ 0 → ⊥ }
    ensures { Least set result }
{
    set.trailing_zeros() as usize
}

// Whether a path that goes on from one with this set can fit.
pub fn goes_on(set: u32) -> bool
    ensures { result ≡ goes_on set }
{
    2 <= set
}

// ---- whether a step takes a hop

// Whether the n bytes of a from x on are those of b from y on.
fn same_bytes(a: &[u8], x: usize, b: &[u8], y: usize, n: usize) -> bool
    requires { (x + n ≤ length a.now) × (y + n ≤ length b.now) }
    ensures { result ≡ same (part a.now x n) (part b.now y n) }
{
    for i in 0..n {
        if a[x + i] != b[y + i] {
            return false;
        }
    }
    true
}

// Whether a name of the query is that of record c.
fn name_is(doc: &[u8], table: &[u32], q: &[u8], at: usize, len: usize, c: usize) -> bool
    requires { (at + len ≤ length q.now) × (RecordIn doc.now table.now c) }
    ensures { result ≡ same (part q.now at len) (name_of doc.now table.now c) }
{
    table::word(table, c, table::NAME_LENGTH) == len
        && same_bytes(q, at, doc, table::word(table, c, table::NAME), len)
}

// Whether step s takes the hop from a record down to child c, which is number `index` in it.
fn step_takes(
    doc: &[u8],
    table: &[u32],
    q: &[u8],
    plan: &[u32; PLAN],
    s: usize,
    parent: usize,
    c: usize,
    index: usize,
) -> bool
    requires { (s ≤ 16) × (NameIn q.now (words_of plan.now s)) × (RecordIn doc.now table.now parent) × (RecordIn doc.now table.now c) }
    ensures { result ≡ takes (planned q.now plan.now s) (hop_to doc.now table.now parent c index) }
{
    let at = plan[WORDS * s + 1] as usize;
    let len = plan[WORDS * s + 2] as usize;
    let named = table::word(table, parent, table::KIND) == table::kinds::COMPOUND;
    match plan[WORDS * s] {
        NAME => named && name_is(doc, table, q, at, len, c),
        INDEX => !named && at == index,
        _ => true,
    }
}

// The steps of a set that take the hop. Only 01 and 02 are asked: 03 and 04 take any.
fn takers(
    doc: &[u8],
    table: &[u32],
    q: &[u8],
    plan: &[u32; PLAN],
    set: u32,
    parent: usize,
    c: usize,
    index: usize,
) -> u32
    requires { ((n : ℕ) × (PlanIn q.now plan.now n) × StepsOf n set) × (RecordIn doc.now table.now parent) × (RecordIn doc.now table.now c) }
    ensures { Bits (taken_of (planned q.now plan.now) (hop_to doc.now table.now parent c index) set) result }
{
    let mut rest = set & plan[ASKS];
    let mut out = set - rest;
    // A `while`: it goes by the set, and each turn takes the least number out of it.
    while rest != 0 {
        let s = least(rest);
        out = out | mark(step_takes(doc, table, q, plan, s, parent, c, index), s);
        rest = rest - only(s);
    }
    out
}

// ---- the steps that may come next

// Path matching recurses on steps and path left; their sum falls, and step 04 branches twice. The path left is one hop, of which `takers`
// has the steps that take it, or nothing: the walk has passed the rest, and `left` says which. The answer is the set `got` and the steps
// that may come next.
fn reach(deeps: u32, takers: u32, s: usize, left: usize, got: u32) -> u32
    requires { (s ≤ 16) × ((f : ℕ → StepOf) × (h : Hop) × Gathers f h deeps takers s left got) }
    ensures { (f : ℕ → StepOf) (h : Hop) → Gathers f h deeps takers s left got → Bits (gathered f h s left got) result }
{
    if left == 0 {
        if has(got, s) {
            return got;
        }
        let here = only(s);
        if !has(deeps, s) {
            return got | here;
        }
        return reach(deeps, takers, s - 1, 0, got) | here;
    }
    if has(deeps, s) {
        let further = reach(deeps, takers, s - 1, left, got);
        return reach(deeps, takers, s, 0, further);
    }
    if has(takers, s) {
        return reach(deeps, takers, s - 1, 0, got);
    }
    got
}

// The steps that may come first, of so many.
pub fn start(plan: &[u32; PLAN], count: usize) -> u32
    requires { (q : List ℕ) × PlanIn q plan.now count }
    ensures { (q : List ℕ) → PlanIn q plan.now count → Reaches q plan.now count [] result }
{
    reach(plan[DEEPS], 0, count, 0, 0)
}

// The set of child c, which is number `index` in its parent, from the parent's set and the one hop. What an 04 in the set passes on to is
// gathered with that 04, and not again.
pub fn next(
    doc: &[u8],
    table: &[u32],
    q: &[u8],
    plan: &[u32; PLAN],
    set: u32,
    parent: usize,
    c: usize,
    index: usize,
) -> u32
    requires { ((n : ℕ) × (p : List Hop) × Reaches q.now plan.now n p set) × (RecordIn doc.now table.now parent) × (RecordIn doc.now table.now c) }
    ensures { (n : ℕ) (p : List Hop) → Reaches q.now plan.now n p set → Reaches q.now plan.now n (p ++ (hop_to doc.now table.now parent c index ∷ [])) result }
{
    let deeps = plan[DEEPS];
    let taken = takers(doc, table, q, plan, set / 2 * 2, parent, c, index);
    let mut rest = set - (set & deeps) / 2;
    let mut out: u32 = 0;
    // A `while`, as in `takers`.
    while rest != 0 {
        let s = least(rest);
        out = reach(deeps, taken, s, 1, out);
        rest = rest - only(s);
    }
    out
}
