// The form that a document is written in (02, [2]), by its number, as a caller in C gives it: the order of a number's bytes, and the rule that
// strings keep. Layers hand it on as it is. It is a number, since an enum is passed in memory.
ghost use Rattle.std.specs.Prelude.{◌≡◌, eqb};

// Document 01's form: big-endian numbers, strings in modified UTF-8. Any number that is not named here means it.
pub const JAVA: u32 = 0;

// The pocket edition's form: little-endian numbers, strings in UTF-8.
pub const POCKET: u32 = 2;

// Whether a form has the bytes of numbers in the other order than rule 1, and strings in UTF-8.
pub fn is_pocket(form: u32) -> bool
    ensures { result ≡ eqb form 2 }
{
    form == POCKET
}
