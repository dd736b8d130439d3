// One rule more, one rule less.
#![tactic(auto)]

ghost use Rattle.std.specs.Prelude.{◌≡◌, ◌<◌, ◌≤◌, length};
ghost use Rattle.layout.specs.Layout.{rule_numbers, rules_limit, tree_words, sign_words, book_words};
ghost use Rattle.book.specs.Rules.{plain};
ghost use Rattle.book.specs.Memory.{Passing, view};
ghost use Rattle.book.specs.Promises.{IsTerm};
ghost use Rattle.change.specs.Promises.{Adds, Chooses, Removes, Stores};

use book::{Book, NotAdded, NotHeld};
use links::signs::Key;

// Adds a rule. All refusals are decided before anything is written. Memory and number are plain, as docs/CONTRACTS.md names them.
pub fn add(m: &mut [u64], number: u16, term: &[u16]) -> Result<(), NotAdded>
    requires passing { Passing m.old }
    requires number_lt_rule_numbers { number < rule_numbers }
    requires term { IsTerm term.now }
    ensures { Adds m.old m.new number (plain term.now) result }
{
    let r = free_place(m, number)?;
    let row = book::record::row(term, number);
    let form = &row[..term.len()];
    let down = tree::descend(
        &m[0..layout::TREE_WORDS],
        &m[layout::SIGNS_AT..layout::SIGNS_END],
        form,
    );
    let words = &mut m[0..layout::TREE_WORDS];
    let last = tree::plant(words, form, down).ok_or(NotAdded::NoNodes)?;
    tree::hang(words, last, r, u64::from(number));
    put_record(m, r, number, term);
    let (words, rest) = m.split_at_mut(layout::TREE_WORDS);
    put_signs(words, &mut rest[..layout::SIGN_WORDS], r);
    Ok(())
}

// The place for a rule of a new number.
fn free_place(m: &[u64], number: u16) -> Result<usize, NotAdded>
    requires passing { Passing m.now }
    requires number_lt_rule_numbers { number < rule_numbers }
    ensures { Chooses m.now number result }
{
    if book::place_of(m, number).is_some() {
        return Err(NotAdded::HeldAlready);
    }
    bits::lowest_free(&m[layout::RULE_MAP_AT..layout::MAP_WORDS]).ok_or(NotAdded::BookFull)
}

// Writes the place of a number, and the record there. A place is a number below the limit, here and in `put_signs`, and no more than
// that, so no type says it.
fn put_record(m: &mut [u64], r: usize, number: u16, term: &[u16])
    requires m_len { length m.old ≡ book_words }
    requires r_low { r < rules_limit }
    requires number_lt_rule_numbers { number < rule_numbers }
    requires term_len { length term.now ≤ 32 }
    ensures { Stores (view m.old) (view m.new) number r (plain term.now) }
{
    bits::put_field(
        &mut m[layout::PLACES_AT..layout::PLACES_END],
        usize::from(number),
        r as u16,
    );
    let at = layout::TERMS_AT + layout::RECORD_WORDS * r;
    let end = at + layout::TERM_WORDS;
    m[at - 1] = term.len() as u64;
    book::record::store(&mut m[at..end], term);
}

// Puts the signs to the new rule at the place r. They are hints, and what the book holds does not depend on them.
fn put_signs(words: &[u64], signs: &mut [u64], r: usize)
    requires words_len { length words.now ≡ tree_words }
    requires signs_len { length signs.old ≡ sign_words }
    requires r_low { r < rules_limit }
{
    let at = links::signs::highest(words, layout::FIRST_RULE + r);
    let ended = links::signs::list_ended(words, at);
    bits::put_field(signs, ended, at as u16);
    for key in [Key::Cell, Key::Small, Key::Large] {
        let field = links::signs::field_for(words, signs, at, key);
        bits::put_field(signs, field, at as u16);
    }
}

// Removes the rule of a number, with the nodes that no other rule needs.
pub fn remove(m: &mut [u64], number: u16) -> Result<(), NotHeld>
    requires passing { Passing m.old }
    requires number_lt_rule_numbers { number < rule_numbers }
    ensures { Removes m.old m.new number result }
{
    let place = book::place_of(m, number).ok_or(NotHeld)?;
    tree::trim(&mut m[0..layout::TREE_WORDS], Book::NODES + place);
    Ok(())
}
