// The tokens of a text, by the place where each begins. The meaning stands in specs/Tokens.
#![tactic(auto)]

mod bytes;

ghost use Rattle.std.specs.Prelude.{◌≡◌, List, [], ◌∷◌, ◌++◌, ℕ, ◌≤◌, length, drop};
ghost use Rattle.tokens.specs.Tokens.{skip, comment, bare, quoted, token};
ghost use Rattle.tokens.specs.Places.{LeftFrom, Keeps, ended, TokenEnds};

pub use bytes::{begins, first, is_upper, is_word};
use bytes::{is_blank, is_escaped};
use std::error::Error;
use std::fmt;

// The place of a byte, or the text's end, where a token can't go on.
#[derive(Clone, Copy, Debug, PartialEq, Eq)]
pub struct Broken {
    pub at: usize,
}

impl fmt::Display for Broken {
    fn fmt<W: fmt::Write>(&self, f: &mut fmt::Formatter<W>) -> fmt::Result {
        let at = self.at;
        write!(f, "no token can go on at byte {at}")
    }
}

impl Error for Broken {}

// How a token ended: how many of its bytes are in the buffer, and the place after it.
#[derive(Clone, Copy, Debug, PartialEq, Eq)]
pub struct Ended {
    pub size: usize,
    pub end: Result<usize, Broken>,
}

// Text and place stay apart, as docs/CONTRACTS.md has them for gap and token: a struct of both would be made anew at each step.

// The place of the newline that ends the comment, or the text's end.
fn comment_end(text: &[u8], at: usize) -> usize
    requires { at ≤ length text.now }
    ensures { (at ≤ result) × (result ≤ length text.now) × (skip (drop result text.now) ≡ comment (drop at text.now)) }
{
    for i in at..text.len() {
        if text[i] == b'\n' {
            return i;
        }
    }
    text.len()
}

// The place past space, tab, newline and comments. By an index that a comment moves on: a `for` that asks at each byte whether a comment is
// open takes up to twice the time on long gaps.
pub fn gap(text: &[u8], at: usize) -> usize
    requires { at ≤ length text.now }
    ensures { LeftFrom text.now (skip (drop at text.now)) result }
{
    let mut i = at;
    while i < text.len() {
        let byte = text[i];
        if is_blank(byte) {
            i += 1;
        } else if byte == b'%' {
            i = comment_end(text, i + 1);
        } else {
            return i;
        }
    }
    i
}

// The bytes of a token so far, the first 32 of them in a buffer: a 32nd shows that it is too long for a name.
#[derive(Drop)]
struct Kept<'a> {
    buffer: &'a mut [u8],
    size: usize,
    ghost room: { length buffer.now ≡ 32 },
    ghost few: { size ≤ 32 },
}

impl<'a> Kept<'a> {
    fn put(&mut self, byte: u8)
        ensures is { (bytes : List ℕ) → Keeps self.old.buffer.now self.old.size bytes
            → Keeps self.new.buffer.now self.new.size (bytes ++ byte ∷ []) }
        ensures same_buffer { self.new.buffer.ghost_name ≡ self.old.buffer.ghost_name }
    {
        if self.size < 32 {
            self.buffer[self.size] = byte;
            self.size += 1;
        }
    }
}

// A word.
fn bare(text: &[u8], at: usize, kept: &mut Kept) -> usize
    requires { (at ≤ length text.now) × (kept.old.size ≡ 0) }
    ensures is { TokenEnds text.now kept.new.buffer.now (bare (drop at text.now)) (ended kept.new.size (Ok result)) }
    ensures same_buffer { kept.new.buffer.ghost_name ≡ kept.old.buffer.ghost_name }
{
    for i in at..text.len() {
        let byte = text[i];
        if !is_word(byte) {
            return i;
        }
        kept.put(byte);
    }
    text.len()
}

// A name after its opening quote.
fn quoted(text: &[u8], at: usize, kept: &mut Kept) -> Result<usize, Broken>
    requires { (at ≤ length text.now) × (kept.old.size ≡ 0) }
    ensures is { TokenEnds text.now kept.new.buffer.now (quoted (drop at text.now)) (ended kept.new.size result) }
    ensures same_buffer { kept.new.buffer.ghost_name ≡ kept.old.buffer.ghost_name }
{
    let mut escaped = false;
    for i in at..text.len() {
        let byte = text[i];
        if escaped {
            if !is_escaped(byte) {
                return Err(Broken { at: i });
            }
            kept.put(byte);
            escaped = false;
        } else if byte == b'\'' {
            return Ok(i + 1);
        } else if byte == b'\\' {
            escaped = true;
        } else {
            kept.put(byte);
        }
    }
    Err(Broken { at: text.len() })
}

// A word or a name in quotes, by its first byte.
fn bare_or_quoted(text: &[u8], at: usize, kept: &mut Kept) -> Result<usize, Broken>
    requires { (at ≤ length text.now) × (kept.old.size ≡ 0) }
    ensures is { TokenEnds text.now kept.new.buffer.now (token (drop at text.now)) (ended kept.new.size result) }
    ensures same_buffer { kept.new.buffer.ghost_name ≡ kept.old.buffer.ghost_name }
{
    if first(text, at) == b'\'' {
        quoted(text, at + 1, kept)
    } else {
        Ok(bare(text, at, kept))
    }
}

// A word or a name in quotes.
pub fn token(text: &[u8], at: usize, buffer: &mut [u8]) -> Ended
    requires { (at ≤ length text.now) × (length buffer.old ≡ 32) }
    ensures { TokenEnds text.now buffer.new (token (drop at text.now)) result }
{
    let mut kept = Kept { buffer, size: 0 };
    let end = bare_or_quoted(text, at, &mut kept);
    Ended {
        size: kept.size,
        end,
    }
}
