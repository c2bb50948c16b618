// Tokens by value, in the crate's words: what stands at a place of a text, and the named sets of stop characters (rules 10 and 11).
// A token carries either a whole number or a double, or a span of the text; its index and its width can't serve as each other.
#![tactic(auto)]

ghost use Rattle.std.specs.Prelude.{◌≡◌, ◌+◌, ◌<◌, ◌^◌};

// Where a token begins, in bytes.
#[derive(Clone, Copy)]
pub struct Index(pub usize);

// How many characters a token has.
#[derive(Clone, Copy)]
pub struct Width(pub usize);

#[derive(Clone, Copy)]
pub enum Token {
    OpenCurly,
    ClosedCurly,
    OpenSquare,
    ClosedSquare,
    Comma,
    Colon,
    Semicolon,
    Str {
        quoted: bool,
        start: usize,
        end: usize,
    },
    Byte(i64),
    Short(i64),
    Int(i64),
    Long(i64),
    Float(f64),
    Double(f64),
}

#[derive(Clone, Copy)]
pub struct TokenData {
    pub token: Token,
    pub index: Index,
    pub char_width: Width,
}

// What stands next: a token, with the place behind it, or the end of the text.
#[derive(Clone, Copy)]
pub enum Lexed {
    Found { data: TokenData, next: usize },
    Ended { place: usize },
}

// The sets of characters that stop an unquoted token: by default, and as rule 15 names them.
#[derive(Clone, Copy)]
pub enum Stops {
    Default,
    Key,
    Value,
    First,
    Later,
}

// A width with some characters more.
pub fn wider(width: Width, more: usize) -> Width
    requires { width.0 + more < 2 ^ 64 }
    ensures { result.0 ≡ width.0 + more }
{
    Width(width.0 + more)
}
