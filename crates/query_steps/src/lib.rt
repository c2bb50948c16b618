// Rule 9's steps: a query's bytes taken apart (refusal 14).
#![tactic(auto)]

ghost use Rattle.std.specs.Prelude.{◌≡◌, ◌≤◌, ◌<◌, length, get_or};
ghost use Rattle.form.specs.Form.{Form, form_no};
ghost use Rattle.form.specs.Query.{blamed, step_by, step_at};
ghost use Rattle.query_steps.specs.Spelling.{no_query, Reads, TakenIs};

use form::refusals::{Refusal, Refused};

// The kinds of step, by their first byte.
const NAME: u8 = 1;

const INDEX: u8 = 2;

const ANY: u8 = 3;

const DEEP: u8 = 4;

// A step: its kind, and of a name its span in the query's bytes, of an index its number in `at`. Words of four bytes keep the query small,
// which is passed by value.
#[derive(Clone, Copy)]
pub struct Step {
    pub kind: u8,
    pub at: u32,
    pub len: u32,
}

// The query taken apart: up to sixteen steps, kept together.
#[derive(Clone, Copy)]
pub struct Query {
    pub steps: [Step; 16],
    pub count: usize,
}

// One step and the place past it.
#[derive(Clone, Copy)]
struct One {
    step: Step,
    next: usize,
}

// ---- the query taken apart

// 01 and a string.
fn name_step(q: &[u8], at: usize, form: u32) -> Option<One>
    requires { (at < length q.now) × (at ≤ 1048608) × (get_or q.now at 0 ≡ 1) }
    ensures { Reads q.now at (blamed at (step_by (form_no form) q.now 1 at)) result }
{
    if q.len() - at < 3 {
        return None;
    }
    let size = raw::u16_at(q, at + 1) as usize;
    let start = at + 3;
    if q.len() - start < size {
        return None;
    }
    let end = start + size;
    if !mutf8::is_well_formed(&q[start..end], form) {
        return None;
    }
    let step = Step {
        kind: NAME,
        at: start as u32,
        len: size as u32,
    };
    Some(One { step, next: end })
}

// 02 and an i32 that is not below 0.
fn index_step(q: &[u8], at: usize) -> Option<One>
    requires { (at < length q.now) × (at ≤ 1048608) × (get_or q.now at 0 ≡ 2) }
    ensures { (f : Form) → Reads q.now at (blamed at (step_by f q.now 2 at)) result }
{
    if q.len() - at < 5 {
        return None;
    }
    let index = raw::u32_at(q, at + 1);
    if 2147483648 <= index {
        return None;
    }
    let step = Step {
        kind: INDEX,
        at: index,
        len: 0,
    };
    Some(One { step, next: at + 5 })
}

// The step at a place.
fn one_step(q: &[u8], at: usize, form: u32) -> Option<One>
    requires { (at < length q.now) × (at ≤ 1048608) }
    ensures { Reads q.now at (step_at (form_no form) q.now at) result }
{
    let kind = q[at];
    match kind {
        NAME => name_step(q, at, form),
        INDEX => index_step(q, at),
        ANY | DEEP => {
            let step = Step {
                kind,
                at: 0,
                len: 0,
            };
            Some(One { step, next: at + 1 })
        }
        _ => None,
    }
}

// No steps.
fn no_query() -> Query
    ensures { result ≡ no_query }
{
    let none = Step {
        kind: 0,
        at: 0,
        len: 0,
    };
    Query {
        steps: [none; 16],
        count: 0,
    }
}

// The query that some bytes spell. A step that can't be read, and a seventeenth whatever it is, are refusal 14 at its first byte.
pub fn take_apart(q: &[u8], form: u32) -> Result<Query, Refused>
    ensures { TakenIs (form_no form) q.now result }
{
    let mut query = no_query();
    let mut at = 0;
    // A `while`: the next step is where this one ends.
    while at < q.len() {
        let count = query.count;
        let bad = Refused {
            refusal: Refusal::BadQuery,
            place: at,
        };
        if form::STEPS <= count {
            return Err(bad);
        }
        let Some(one) = one_step(q, at, form) else {
            return Err(bad);
        };
        query.steps[count] = one.step;
        query.count = count + 1;
        at = one.next;
    }
    Ok(query)
}
