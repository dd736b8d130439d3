// A rule's place and record, held against the way that the check has come down: is it right, with a term of the way's form?
#![tactic(auto)]

mod tail;

ghost use Rattle.std.specs.Prelude.{◌≡◌, true, ℕ, ◌+◌, ◌%◌, ◌≤◌, ◌<◌, length, get_or};
ghost use Rattle.deciding.specs.Deciding.{Decides};
ghost use Rattle.layout.specs.Layout.{rules_limit, rules_at, term_words, book_words};
ghost use Rattle.term.specs.Reading.{read_term};
ghost use Rattle.book.specs.Memory.{blank_number};
ghost use Rattle.links.specs.Words.{cell_of};
ghost use Rattle.recorded.specs.Promises.{TermOf, PlainOf, TermDecided, RuleDecided};

use term::reading;

// How many rule numbers there are, as wide as the cell of a word. By `as`, since a constant's value calls no function.
const NUMBERS: u64 = layout::RULE_NUMBERS as u64;

// The way that the check has come down: a word for each beginning, and how many cells it has.
#[derive(Clone, Copy)]
struct Way<'a> {
    words: &'a [u64],
    depth: usize,
    ghost long: { length words.now ≡ 33 },
    ghost short: { depth ≤ 32 },
}

// Do the cells begin with one whole term of this size?
fn is_whole(cells: &[u16], size: usize) -> bool
    ensures { Decides (read_term cells.now ≡ Ok size) result }
{
    reading::read(cells, 0) == Ok(size)
}

// Are the blanks of the cells those of the words' last cells, one by one?
fn same_blanks(cells: &[u16], words: &[u64]) -> bool
    requires { length cells.now ≤ length words.now }
    ensures { Decides ((j : ℕ) → j < length cells.now → blank_number (get_or cells.now j 0) ≡ blank_number (get_or words.now j 0 % 65536)) result }
{
    cells.iter().zip(words).all(|(cell, word)| {
        let last = (*word % 65536) as u16;
        term::blank(*cell) == term::blank(last)
    })
}

// Is the record a term of the way's length, with the blanks of the way?
// A record's words are lent as the part of the memory that they are: an array would be made of each.
fn is_term(words: &[u64], way: Way<'_>) -> bool
    requires { length words.now ≡ term_words }
    ensures { Decides (TermOf words.now way.entry.words.now way.entry.depth) result }
{
    if !tail::zeros_from(words, way.depth) {
        return false;
    }
    let cells = book::record::load_term(words, way.depth);
    is_whole(&cells, way.depth) && same_blanks(&cells[..way.depth], &way.words[1..])
}

// The last six words of a record as one, which is zero exactly if they all are: no test between the words.
fn six(words: &[u64]) -> u64
    requires { length words.now ≡ term_words }
    ensures { result ≡ 0 → (j : ℕ) → 2 ≤ j → get_or words.now j 0 ≡ 0 }
{
    words[2] | words[3] | words[4] | words[5] | words[6] | words[7]
}

// Has the record just the cells of the way, eight at the most? The way has the last four cells of each beginning, the
// latest lowest: the record begins with those of the first four, and the shift puts the last ones where a record has them.
fn is_plain(words: &[u64], way: Way<'_>) -> bool
    requires { length words.now ≡ term_words }
    ensures { result ≡ true → PlainOf words.now way.entry.words.now way.entry.depth }
{
    let depth = way.depth;
    if 8 < depth || six(words) != 0 {
        return false;
    }
    let last = way.words[depth] << ((8 - depth) % 4 * 16);
    if depth <= 4 {
        words[1] == 0 && words[0] == last
    } else {
        words[0] == way.words[4] && words[1] == last
    }
}

// Is the record right below a whole form? A term that has no variable twice is the most general one of its form: where it
// is short it is known by its words, and its cells need no reading.
fn is_record(words: &[u64], way: Way<'_>) -> bool
    requires { length words.now ≡ term_words }
    ensures { TermDecided words.now way.entry.words.now way.entry.depth result }
{
    is_plain(words, way) || is_term(words, way)
}

// Is the rule at the place r right, with a term of the way's form? Way and depth are lent apart, as docs/BOOK.md and docs/CONTRACTS.md
// name `is_rule`.
pub fn is_rule(m: &[u64], way: &[u64], r: usize, number: u64, depth: usize) -> bool
    requires m_len { length m.now ≡ book_words }
    requires way_len { length way.now ≡ 33 }
    requires r_low { r < rules_limit }
    requires depth_low { depth ≤ 32 }
    requires number_value { number ≡ cell_of (get_or m.now (rules_at + r) 0) }
    ensures { RuleDecided m.now way.now r depth result }
{
    if NUMBERS <= number {
        return false;
    }
    let place = bits::field(&m[layout::PLACES_AT..layout::PLACES_END], number as usize);
    let at = layout::TERMS_AT + layout::RECORD_WORDS * r;
    let end = at + layout::TERM_WORDS;
    if usize::from(place) != r || m[at - 1] != depth as u64 {
        return false;
    }
    let way = Way { words: way, depth };
    is_record(&m[at..end], way)
}
