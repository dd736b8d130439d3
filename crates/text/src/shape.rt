// The tokens of a term: where each begins, where reading goes on after it, and its shape. A term calls for its arguments and they call
// for terms.
ghost use Rattle.std.specs.Prelude.{◌-◌, ◌≤◌, ◌<◌, length, drop, IfOk};
ghost use Rattle.tokens.specs.Tokens.{skip};
ghost use Rattle.text.specs.Term.{start_of, mark};
ghost use Rattle.text.specs.Leaves.{Named, BeginsAt, Follows, TermEnds, ArgumentsEnd};

use crate::notes::{CELLS, Note, Notes};
use crate::refusal::Refusal;

// Text and place stay apart, as gap and token of `tokens` take them: a struct of both would be made anew at each step.

// The shape of a variable, and what each argument adds to the shape of a name.
const VARIABLE: usize = 32768;

const ARGUMENT: usize = 4096;

// How a term begins: its first token has no arguments, and this shape, or a bracket opens some; and the place after token or bracket.
#[derive(Clone, Copy, Debug, PartialEq, Eq)]
pub enum Begun {
    Alone { shape: usize, after: usize },
    Opens { after: usize },
}

// What follows an argument, and the place after it.
#[derive(Clone, Copy, Debug, PartialEq, Eq)]
pub enum Followed {
    Comma(usize),
    Close(usize),
}

// What comes after a name: a bracket is looked for past blanks and comments.
fn opening(text: &[u8], at: usize) -> Begun
    requires { at ≤ length text.now }
    ensures { Named text.now at result }
{
    let open = tokens::gap(text, at);
    if tokens::first(text, open) == b'(' {
        Begun::Opens { after: open + 1 }
    } else {
        Begun::Alone {
            shape: 0,
            after: at,
        }
    }
}

// How a term begins. It is a whole one (0) or an argument (1 to 8), a count as in `start_of` and `term` of specs/Term,
// and `from` cells are before it.
fn start(text: &[u8], at: usize, argument: usize, from: usize) -> Result<Begun, Refusal>
    requires { (at ≤ length text.now) × (argument ≤ 8) × (from ≤ 32) }
    ensures on { IfOk result (λ begun. (argument < 8) × (from < 32)) }
    ensures is { BeginsAt text.now at (start_of argument (32 - from) (drop at text.now)) result }
{
    let byte = tokens::first(text, at);
    if !tokens::begins(byte) {
        return Err(Refusal::NoTerm(at));
    }
    if argument == 8 {
        return Err(Refusal::EighthArgument(at));
    }
    if from == CELLS {
        return Err(Refusal::NoCell(at));
    }
    let mut buffer = [0u8; 32];
    let after = tokens::token(text, at, &mut buffer).end?;
    if tokens::is_upper(byte) {
        return Ok(Begun::Alone {
            shape: VARIABLE,
            after,
        });
    }
    Ok(opening(text, after))
}

// What follows an argument.
fn follow(text: &[u8], at: usize) -> Result<Followed, Refusal>
    requires { at ≤ length text.now }
    ensures { Follows text.now (mark (skip (drop at text.now))) result }
{
    let next = tokens::gap(text, at);
    match tokens::first(text, next) {
        b',' => Ok(Followed::Comma(next + 1)),
        b')' => Ok(Followed::Close(next + 1)),
        _ => Err(Refusal::NoTerm(next)),
    }
}

// A term from its first byte on, with a note for each token behind those that are there: the place after it. `argument` is a count, as
// in `start`.
#[cycle(arguments_term)]
pub fn term(text: &[u8], at: usize, argument: usize, notes: &mut Notes) -> Result<usize, Refusal>
    requires { (at ≤ length text.now) × (argument ≤ 8) }
    ensures on { IfOk result (λ after. (argument < 8) × (notes.old.size < notes.new.size) × (after ≤ length text.now)) }
    ensures is { TermEnds text.now at argument notes.old notes.new result }
{
    let from = notes.size;
    match start(text, at, argument, from)? {
        Begun::Alone { shape, after } => {
            notes.push(Note {
                place: at,
                after,
                shape,
            });
            Ok(after)
        }
        Begun::Opens { after } => {
            notes.push(Note {
                place: at,
                after,
                shape: 0,
            });
            arguments(text, after, 0, from, notes)
        }
    }
}

// The arguments of a noted name, from the byte after a bracket or a comma on, with so many before them: the place after the
// closing bracket.
#[cycle(arguments_term)]
pub fn arguments(
    text: &[u8],
    at: usize,
    before: usize,
    name: usize,
    notes: &mut Notes,
) -> Result<usize, Refusal>
    requires { (at ≤ length text.now) × (before ≤ 7) × (name < notes.old.size) }
    ensures on { IfOk result (λ after. after ≤ length text.now) × (notes.old.size ≤ notes.new.size) }
    ensures is { ArgumentsEnd text.now at before name notes.old notes.new result }
{
    let count = before + 1;
    notes.all[name].shape = count * ARGUMENT;
    let begin = tokens::gap(text, at);
    let end = term(text, begin, count, notes)?;
    match follow(text, end)? {
        Followed::Comma(next) => arguments(text, next, count, name, notes),
        Followed::Close(next) => Ok(next),
    }
}
