// The tokens get their numbers.
ghost use Rattle.std.specs.Prelude.{◌≡◌, ℕ, ◌+◌, ◌≤◌, ◌<◌, length, replicate, IfOk};
ghost use Rattle.names.specs.Name.{IsName};
ghost use Rattle.text.specs.Leaves.{note_at, WordEnds, GoesOnAt, AllGoOn, EntersNames, NumbersNames, NumbersAny, NumbersTokens};

use crate::fresh::Fresh;
use crate::notes::{CELLS, Notes};
use crate::refusal::Refusal;
use crate::variables::Variables;
use names::Lookup;

// A slot is asked for (`count < 32`) and no part of the type: `Fresh` may be full, after the last of 32 names.

// A name that is one: its slot in the lent table, or behind those its slot among the new names, where it is put if it is new.
fn enter_name(lookup: &Lookup, fresh: &mut Fresh, name: &[u8]) -> usize
    requires { (fresh.old.count < 32) × IsName name.now }
    ensures on { (fresh.new.count ≤ fresh.old.count + 1) × (result ≤ lookup.now.held + fresh.old.count) }
    ensures is { EntersNames lookup.now fresh.old name.now fresh.new result }
{
    if let Some(slot) = names::look_up_in(lookup.table, lookup.index, lookup.held, name) {
        return slot;
    }
    if let Some(slot) = names::look_up(&fresh.table, fresh.count, name) {
        return lookup.held + slot;
    }
    let number = lookup.held + fresh.count;
    names::add(&mut fresh.table, fresh.count, name);
    fresh.count += 1;
    number
}

// A name.
fn number_name(lookup: &Lookup, text: &[u8], at: usize, fresh: &mut Fresh) -> Result<usize, Refusal>
    requires { (fresh.old.count < 32) × (at ≤ length text.now) }
    ensures on { (fresh.new.count ≤ fresh.old.count + 1) × IfOk result (λ number. number ≤ lookup.now.held + fresh.old.count) }
    ensures is { NumbersNames text.now at lookup.now fresh.old fresh.new result }
{
    let mut buffer = [0u8; 32];
    let size = tokens::token(text, at, &mut buffer).size;
    let name = &buffer[..size];
    if !names::name::is_name(name) {
        return Err(Refusal::Names(names::refusal::Refusal::NoName));
    }
    Ok(enter_name(lookup, fresh, name))
}

// A token, by its first byte. A variable's word ends where reading went on after it, so it isn't gone over again.
fn number_token<'a>(
    lookup: &Lookup,
    text: &'a [u8],
    at: usize,
    after: usize,
    variables: &mut Variables<'a>,
    fresh: &mut Fresh,
) -> Result<usize, Refusal>
    requires within { (fresh.old.count < 32) × (at ≤ length text.now) }
    requires word_ends { WordEnds text.now at after }
    ensures on { (fresh.new.count ≤ fresh.old.count + 1) × IfOk result (λ number. number ≤ 1056) }
    ensures is { GoesOnAt text.now at after → NumbersAny text.now at lookup.now variables.old fresh.old variables.new fresh.new result }
{
    if tokens::is_upper(tokens::first(text, at)) {
        variables.number(&text[at..after])
    } else {
        number_name(lookup, text, at, fresh)
    }
}

// The cells of all tokens of a reading, up to the first refusal, with the new names in `fresh`.
pub fn number_all(
    lookup: &Lookup,
    text: &[u8],
    notes: &Notes,
    fresh: &mut Fresh,
) -> Result<[u16; CELLS], Refusal>
    requires no_names { (fresh.old.table ≡ replicate 1024 0) × (fresh.old.count ≡ 0) }
    requires noted { (i : ℕ) → i < notes.now.size
        → ((note_at notes.now.all i).place ≤ length text.now) × ((note_at notes.now.all i).shape ≤ 32768) }
    requires words_end { (i : ℕ) → i < notes.now.size → WordEnds text.now (note_at notes.now.all i).place (note_at notes.now.all i).after }
    ensures { AllGoOn text.now notes.now → NumbersTokens text.now lookup.now notes.now fresh.new result }
{
    let mut variables = Variables::none(text);
    let mut cells = [0u16; CELLS];
    for i in 0..notes.size {
        let note = notes.all[i];
        let number = number_token(lookup, text, note.place, note.after, &mut variables, fresh)?;
        cells[i] = (note.shape + number) as u16;
    }
    Ok(cells)
}
