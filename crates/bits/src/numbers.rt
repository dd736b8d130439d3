// A set of numbers below 4,096 in 65 words: a bit for each number, and behind the 64 words of bits a head.
//
//   word 0 .. 63    bit n for the number n
//   word 64         the head: bit q says that word q counts; what stands in any other word is of no matter
//
// So one store empties the set, and the next number is found by the head, whatever words lie between.
// The functions take the words as a slice, under the names that docs/CONTRACTS.md has; an iterator over the numbers carries what is
// known of the words.
ghost use Rattle.std.specs.Prelude.{◌≡◌, ◌+◌, ◌*◌, ◌≤◌, ◌<◌, length};
ghost use Rattle.std.specs.Option.{ForSome};
ghost use Rattle.bits.specs.Numbers.{NumberSet, Emptied, PutsNumber, Member, NextOf, rest_of, NextAndRestOf, members, members_on, IsNext};
ghost use Rattle.std.specs.Iterator.{YieldsFirst, item_count};

// Takes all numbers out, whatever the words hold.
pub fn empty(map: &mut [u64])
    requires { length map.old ≡ 65 }
    ensures { Emptied map.new }
{
    map[64] = 0;
}

// Puts a number in. Its word is cleared where it did not count.
pub fn put(map: &mut [u64], n: usize)
    requires number_set { NumberSet map.old }
    requires n_bound { n < 4096 }
    ensures { PutsNumber map.old map.new n }
{
    if crate::is_marked(map, 4096 + n / 64) {
        crate::mark(map, n);
        return;
    }
    map[n / 64] = 0;
    crate::mark(map, 4096 + n / 64);
    crate::mark(map, n);
}

// The first number of word q at or after its bit `from`.
fn in_word(map: &[u64], q: usize, from: usize) -> Option<usize>
    requires number_set { NumberSet map.now }
    requires q_bound { q < 64 }
    requires from_bound { from < 64 }
    ensures { NextOf map.now (q * 64 + from) (q * 64 + 64) result }
{
    if !crate::is_marked(map, 4096 + q) {
        return None;
    }
    let bit = crate::first_one(map[q], from)?;
    Some(q * 64 + bit)
}

// The first number at or after `from`.
pub fn next(map: &[u64], from: usize) -> Option<usize>
    requires number_set { NumberSet map.now }
    requires from_bound { from ≤ 4096 }
    ensures { NextOf map.now from 4096 result }
{
    if 4096 <= from {
        return None;
    }
    let q = from / 64;
    if let Some(n) = in_word(map, q, from % 64) {
        return Some(n);
    }
    if 63 <= q {
        return None;
    }
    let i = crate::first_one(map[64], q + 1)?;
    in_word(map, i, 0)
}

// A number, and the rest of its word, shifted so that the number's bit comes first.
#[derive(Clone, Copy, Debug, PartialEq, Eq)]
pub struct NumberAndRest {
    pub at: usize,
    pub rest: u64,
}

// The first number at or after `from`.
pub fn first(map: &[u64], from: usize) -> Option<NumberAndRest>
    requires number_set { NumberSet map.now }
    requires from_bound { from ≤ 4096 }
    ensures { NextAndRestOf map.now from result }
{
    let at = next(map, from)?;
    let rest = map[at / 64] << (at % 64);
    Some(NumberAndRest { at, rest })
}

// The next number behind one: as long as its word has one more, neither the head nor the word is looked at again.
pub fn after(map: &[u64], at: usize, rest: u64) -> Option<NumberAndRest>
    requires number_set { NumberSet map.now }
    requires at_bound { (at < 4096) × Member map.now at }
    requires rest_value { rest ≡ rest_of map.now at }
    ensures { NextAndRestOf map.now (at + 1) result }
{
    let left = rest << 1;
    if left == 0 {
        return first(map, at / 64 * 64 + 64);
    }
    let z = left.leading_zeros() as usize;
    Some(NumberAndRest {
        at: at + 1 + z,
        rest: left << z,
    })
}

// The numbers of a set, ascending.
#[derive(Drop)]
pub struct Ascending<'a> {
    map: &'a [u64],
    next: Option<NumberAndRest>,
    ghost is_set: { NumberSet map.now },
    ghost is_next: { ForSome next (λ s. IsNext map.now s) },
}

// From the lowest number on.
pub fn members(map: &[u64]) -> Ascending<'_>
    requires { NumberSet map.now }
    ensures { members_on result.map.now result.next ≡ members map.now 4096 0 }
{
    Ascending {
        map,
        next: first(map, 0),
    }
}

impl<'a> Iterator for Ascending<'a> {
    type Item = usize;

    ghost next_gives = { YieldsFirst (λ s. members_on s.map.now s.next) };

    ghost remaining = { item_count (λ s. members_on s.map.now s.next) };

    // It is called for each number of an answer, from more than one place.
    #[inline(always)]
    fn next(&mut self) -> Option<usize> {
        let number = self.next?;
        self.next = after(self.map, number.at, number.rest);
        Some(number.at)
    }
}
