// The rule book in lent memory. The crate `layout` says where its parts stand:
//
//   the tree       the maps, the root and the nodes, and behind them the rules, which hang below the last nodes of their forms
//                  (crate `tree`)
//   the signs      hints for the search, four to a word (`links::signs`)
//   the places     for each rule number the place of its record, four to a word
//   the records    at each place the length of the term, and 8 words with its 32 cells
//
// A place of a number means something only where the rule there has that number, so removing a rule writes neither
// places nor records.
#![tactic(auto)]

pub mod record;

ghost use Rattle.std.specs.Prelude.{◌≡◌, ◌<◌, length, IfSome};
ghost use Rattle.layout.specs.Layout.{rule_numbers, rules_limit, book_words};
ghost use Rattle.book.specs.Rules.{refusal_of_not_added, refusal_of_not_held};
ghost use Rattle.book.specs.Memory.{Passing, view};
ghost use Rattle.book.specs.Promises.{Empties, refusal_of_empty, refusal_of_wrong_length, Shows, Counts, place_of};

use std::error::Error;
use std::fmt;

// Why a rule is not added: its number is held already; 512 rules are held; there would be more than 4,096 nodes.
#[derive(Clone, Copy, Debug, PartialEq, Eq)]
pub enum NotAdded {
    HeldAlready,
    BookFull,
    NoNodes,
}

impl From<NotAdded> for u64 {
    ghost from_gives = { λ why refusal. refusal ≡ refusal_of_not_added why };

    fn from(why: NotAdded) -> u64 {
        match why {
            NotAdded::HeldAlready => 6,
            NotAdded::BookFull => 8,
            NotAdded::NoNodes => 9,
        }
    }
}

impl fmt::Display for NotAdded {
    fn fmt<W: fmt::Write>(&self, f: &mut fmt::Formatter<W>) -> fmt::Result {
        f.write_str(match self {
            NotAdded::HeldAlready => "the number is held already",
            NotAdded::BookFull => "the book is full",
            NotAdded::NoNodes => "there are not enough nodes",
        })
    }
}

impl Error for NotAdded {}

// Why a rule is not removed: its number is not held.
#[derive(Clone, Copy, Debug, PartialEq, Eq)]
pub struct NotHeld;

impl From<NotHeld> for u64 {
    ghost from_gives = { λ why refusal. refusal ≡ refusal_of_not_held why };

    fn from(_why: NotHeld) -> u64 {
        7
    }
}

impl fmt::Display for NotHeld {
    fn fmt<W: fmt::Write>(&self, f: &mut fmt::Formatter<W>) -> fmt::Result {
        f.write_str("the number is not held")
    }
}

impl Error for NotHeld {}

// Memory that is not as long as a book.
#[derive(Clone, Copy, Debug, PartialEq, Eq)]
pub struct WrongLength;

impl From<WrongLength> for u64 {
    ghost from_gives = { λ why refusal. refusal ≡ refusal_of_wrong_length why };

    fn from(_why: WrongLength) -> u64 {
        1
    }
}

impl fmt::Display for WrongLength {
    fn fmt<W: fmt::Write>(&self, f: &mut fmt::Formatter<W>) -> fmt::Result {
        f.write_str("the memory is not as long as a book")
    }
}

impl Error for WrongLength {}

// A rule as it is shown: the length of its term, and its cells, zeros past the term: of one length, since there is no heap.
#[derive(Clone, Copy, Debug, PartialEq, Eq)]
pub struct Shown {
    pub size: usize,
    pub cells: [u16; 32],
}

// Rules held and node count.
#[derive(Clone, Copy, Debug, PartialEq, Eq)]
pub struct Counted {
    pub rules: usize,
    pub nodes: usize,
}

// The book's numbers and how an empty one is made. The memory is lent by each caller, so there is nothing to hold here.
#[derive(Drop)]
pub struct Book;

impl Book {
    // The fixed length of a book's memory, in words.
    pub const WORDS: usize = layout::BOOK_WORDS;
    // How many rules a book holds at the most.
    pub const RULES: usize = layout::RULES_LIMIT;
    // How many nodes.
    pub const NODES: usize = layout::NODES_LIMIT;
    // The mark of a blank.
    pub const MARK: u16 = term::MARK;

    // An empty book.
    pub fn empty(m: &mut [u64]) -> Result<(), WrongLength>
        ensures { Empties m.old m.new (refusal_of_empty result) }
    {
        if m.len() != Book::WORDS {
            return Err(WrongLength);
        }
        m.fill(0);
        Ok(())
    }
}

// The place of a number's record, where the number is held. That memory is as long as a book stands in contracts, here and in the crates
// above, since docs/CONTRACTS.md names the functions that are lent it as words.
pub fn place_of(m: &[u64], number: u16) -> Option<usize>
    requires { (length m.now ≡ book_words) × (number < rule_numbers) }
    ensures place { result ≡ place_of (view m.now) number }
    ensures low { IfSome result (λ r. r < rules_limit) }
{
    let r = usize::from(bits::field(
        &m[layout::PLACES_AT..layout::PLACES_END],
        usize::from(number),
    ));
    let held = r < Book::RULES
        && bits::is_marked(&m[layout::RULE_MAP_AT..layout::MAP_WORDS], r)
        && links::cell_of(m[layout::RULES_AT + r]) == u64::from(number);
    held.then_some(r)
}

// The rule under a number. docs/CONTRACTS.md names it, `change::add` and `change::remove` with plain memory and number, so what these
// ask stands in their contracts and not in types.
pub fn show(m: &[u64], number: u16) -> Option<Shown>
    requires passing { Passing m.now }
    requires number_lt_rule_numbers { number < rule_numbers }
    ensures { Shows m.now number result }
{
    let r = place_of(m, number)?;
    let at = layout::TERMS_AT + layout::RECORD_WORDS * r;
    let end = at + layout::TERM_WORDS;
    let size = m[at - 1] as usize;
    let cells = record::load_term(&m[at..end], size);
    Some(Shown { size, cells })
}

// How full the book is.
pub fn room(m: &[u64]) -> Counted
    requires { Passing m.now }
    ensures { Counts m.now result.rules result.nodes }
{
    let nodes = bits::count(&m[0..layout::NODE_MAP_WORDS]);
    let rules = bits::count(&m[layout::RULE_MAP_AT..layout::MAP_WORDS]);
    Counted { rules, nodes }
}
