// The form that a document has and the form that it is written in (02, [2]), both in one number, which layers hand on as they do a form.
ghost use Rattle.std.specs.Prelude.{◌≡◌, ◌&&◌, ◌%◌, ◌/◌, ◌<◌};
ghost use Rattle.form.specs.Form.{form_no, way_from, way_no, same_order, same_rule};

use crate::forms::{POCKET, is_pocket};

// A form as it stands in the number of a way: the numbers that name none are Java's.
fn named(form: u32) -> u32
    ensures { (form_no result ≡ form_no form) × (result < 256) }
{
    if is_pocket(form) { POCKET } else { 0 }
}

// The way from one form into another.
pub fn between(from: u32, to: u32) -> u32
    ensures { way_no result ≡ way_from (form_no from) (form_no to) }
{
    named(to) * 256 + named(from)
}

// The form that the document has.
pub fn source(way: u32) -> u32
    ensures { result ≡ way % 256 }
{
    way % 256
}

// The form that it is written in.
pub fn target(way: u32) -> u32
    ensures { result ≡ way / 256 }
{
    way / 256
}

// Whether numbers are written as they stand.
pub fn same_order(way: u32) -> bool
    ensures { result ≡ same_order (way_no way).from.order (way_no way).to.order }
{
    is_pocket(source(way)) == is_pocket(target(way))
}

// Whether strings are written as they stand.
pub fn same_rule(way: u32) -> bool
    ensures { result ≡ same_rule (way_no way).from.strings (way_no way).to.strings }
{
    is_pocket(source(way)) == is_pocket(target(way))
}

// Whether a document is written in its own form.
pub fn stays(way: u32) -> bool
    ensures { result ≡ (same_order (way_no way).from.order (way_no way).to.order && same_rule (way_no way).from.strings (way_no way).to.strings) }
{
    is_pocket(source(way)) == is_pocket(target(way))
}
