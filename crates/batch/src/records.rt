// One command done, and its record written from the front of the output. Each function answers how many cells it wrote, and none
// where the record has no room; then nothing has changed. Book, number, question and flags are lent as docs/CONTRACTS.md names them, so what
// is asked of them stands in each contract; `add` and `remove` differ in the call that they make and in nothing else.
ghost use Rattle.std.specs.Prelude.{◌≡◌, ◌<◌, ◌≤◌, length, ltb};
ghost use Rattle.bits.specs.Numbers.{NumberSet, has};
ghost use Rattle.questions.specs.Asking.{numbers};
ghost use Rattle.book.specs.Rules.{plain};
ghost use Rattle.book.specs.Memory.{Passing, rules_in};
ghost use Rattle.book.specs.Promises.{IsTerm};
ghost use Rattle.batch.specs.Effects.{adds, removes, asks, shows, counts};
ghost use Rattle.commands.specs.Kinds.{mode_of};
ghost use Rattle.commands.specs.Records.{good};
ghost use Rattle.commands.specs.Writing.{Writes};
ghost use Rattle.batch.specs.Promises.{Does, Marked};

use book::{Book, NotHeld};
use commands::records::put_bare;

// Adds a rule. Whether the record has room is known before the book is touched.
pub fn add(book: &mut [u64], number: u16, term: &[u16], out: &mut [u16]) -> Option<usize>
    requires passing { Passing book.old }
    requires number_bound { number < 4096 }
    requires term { IsTerm term.now }
    ensures { Does (adds (rules_in book.old) number (plain term.now)) book.old book.new out.old out.new result }
{
    if out.is_empty() {
        return None;
    }
    let answer = change::add(book, number, term);
    put_bare(answer.err().map_or(0, u64::from), out)
}

// Removes a rule.
pub fn remove(book: &mut [u64], number: u16, out: &mut [u16]) -> Option<usize>
    requires passing { Passing book.old }
    requires number_bound { number < 4096 }
    ensures { Does (removes (rules_in book.old) number) book.old book.new out.old out.new result }
{
    if out.is_empty() {
        return None;
    }
    let answer = change::remove(book, number);
    put_bare(answer.err().map_or(0, u64::from), out)
}

// A record without refusal, with so many cells.
fn put_good(cells: &[u16], out: &mut [u16]) -> Option<usize>
    requires { length cells.now < 4096 }
    ensures { Writes (good cells.now) out.old out.new result }
{
    let end = cells.len() + 1;
    if out.len() < end {
        return None;
    }
    out[0] = cells.len() as u16;
    out[1..end].copy_from_slice(cells);
    Some(end)
}

// Marks the rules that answer a question. What the marks held before goes.
fn mark(book: &[u64], fills_question: bool, fills_rule: bool, question: &[u16], marks: &mut [u64])
    requires passing { Passing book.now }
    requires term { IsTerm question.now }
    requires marks_len { length marks.old ≡ 65 }
    ensures number_set { NumberSet marks.new }
    ensures marked { Marked (rules_in book.now) (mode_of fills_question fills_rule) question.now marks.new }
{
    bits::numbers::empty(marks);
    questions::mark_answers(book, fills_question, fills_rule, question, marks);
}

// Is there room for the list of these marks, and a cell before it? A list never has more numbers than a book has rules, so it is
// only counted where there may be no room for so many.
fn has_room(marks: &[u64], room: usize) -> bool
    requires number_set { NumberSet marks.now }
    requires few { length (numbers (has marks.now) 4096) ≤ 512 }
    ensures { result ≡ ltb (length (numbers (has marks.now) 4096)) room }
{
    Book::RULES < room || questions::listing::count(marks) < room
}

// Lists the rules that answer a question, by whether its own blanks and the rule's may be filled. Whether they have room is known
// before anything is written. The marks are memory to work in: what they hold afterwards is of no matter.
pub fn ask(
    book: &[u64],
    fills_question: bool,
    fills_rule: bool,
    question: &[u16],
    marks: &mut [u64],
    out: &mut [u16],
) -> Option<usize>
    requires passing { Passing book.now }
    requires term { IsTerm question.now }
    requires marks_len { length marks.old ≡ 65 }
    ensures { Writes (asks (rules_in book.now) (mode_of fills_question fills_rule) question.now).answer out.old out.new result }
{
    mark(book, fills_question, fills_rule, question, marks);
    if !has_room(marks, out.len()) {
        return None;
    }
    let count = questions::listing::list(marks, &mut out[1..]);
    out[0] = count as u16;
    Some(count + 1)
}

// Shows the cells of a rule.
pub fn show(book: &[u64], number: u16, out: &mut [u16]) -> Option<usize>
    requires passing { Passing book.now }
    requires number_bound { number < 4096 }
    ensures { Writes (shows (rules_in book.now) number).answer out.old out.new result }
{
    let Some(shown) = book::show(book, number) else {
        return put_bare(u64::from(NotHeld), out);
    };
    let cells = shown.cells;
    put_good(&cells[..shown.size], out)
}

// Tells the rules held and the node count.
pub fn room(book: &[u64], out: &mut [u16]) -> Option<usize>
    requires { Passing book.now }
    ensures { Writes (counts (rules_in book.now)).answer out.old out.new result }
{
    let counted = book::room(book);
    let rules = counted.rules as u16;
    let nodes = counted.nodes as u16;
    put_good(&[rules, nodes], out)
}
