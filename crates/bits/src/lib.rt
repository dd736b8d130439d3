// Packed words: 16-bit fields and single bits of words of 64 bits, the most significant first.
//
//   field i is field i % 4 of word i / 4:     | 0 | 1 | 2 | 3 |  16 bits each
//   bit n is bit n % 64 of word n / 64:       |0|1|2| .. |63|    so bit 63 - n % 64 by weight
#![tactic(auto)]

pub mod numbers;

ghost use Rattle.std.specs.Prelude.{◌≡◌, ◌+◌, ◌-◌, ◌*◌, ◌%◌, ◌^◌, ◌≤◌, ◌<◌, eqb, length, get_or, set, replicate, true, false};
ghost use Rattle.bits.specs.Packed.{parts, fields, bits, sum, Skipped, FirstOf};

pub fn field(words: &[u64], i: usize) -> u16
    requires { i < 4 * length words.now }
    ensures { result ≡ get_or (fields words.now) i 0 }
{
    ((words[i / 4] >> ((3 - i % 4) * 16)) % 65536) as u16
}

pub fn put_field(words: &mut [u64], i: usize, x: u16)
    requires { i < 4 * length words.old }
    ensures { fields words.new ≡ set (fields words.old) i x }
{
    let s = (3 - i % 4) * 16;
    words[i / 4] = (words[i / 4] & !(65535 << s)) | (u64::from(x) << s);
}

// The bit of place n in its word, by weight.
fn bit_of(n: usize) -> u64
    ensures { result ≡ 2 ^ (63 - n % 64) }
{
    1 << (63 - n % 64)
}

pub fn is_marked(map: &[u64], n: usize) -> bool
    requires { n < 64 * length map.now }
    ensures { result ≡ eqb (get_or (bits map.now) n 0) 1 }
{
    map[n / 64] & bit_of(n) != 0
}

pub fn mark(map: &mut [u64], n: usize)
    requires { n < 64 * length map.old }
    ensures { bits map.new ≡ set (bits map.old) n 1 }
{
    map[n / 64] |= bit_of(n);
}

pub fn clear(map: &mut [u64], n: usize)
    requires { n < 64 * length map.old }
    ensures { bits map.new ≡ set (bits map.old) n 0 }
{
    map[n / 64] &= !bit_of(n);
}

// How many bits are set.
pub fn count(map: &[u64]) -> usize
    requires { length map.now ≤ 65536 }
    ensures { result ≡ sum (bits map.now) }
{
    map.iter().map(|word| word.count_ones() as usize).sum()
}

// Are two maps of one length the same?
pub fn same(a: &[u64], b: &[u64]) -> bool
    requires { length a.now ≡ length b.now }
    ensures yes { result ≡ true → a.now ≡ b.now }
    ensures no { result ≡ false → bits a.now ≡ bits b.now → ⊥ }
{
    a == b
}

// Is no bit of a map set?
pub fn is_zero(map: &[u64]) -> bool
    ensures yes { result ≡ true → map.now ≡ replicate (length map.now) 0 }
    ensures no { result ≡ false → bits map.now ≡ bits (replicate (length map.now) 0) → ⊥ }
{
    map.iter().all(|word| *word == 0)
}

// The first set bit of one word at or after bit `from`.
fn first_one(w: u64, from: usize) -> Option<usize>
    requires { from < 64 }
    ensures { FirstOf 1 (parts 1 64 w) from result }
{
    let x = w << from;
    if x == 0 {
        return None;
    }
    Some(from + x.leading_zeros() as usize)
}

// The lowest clear bit.
pub fn lowest_free(map: &[u64]) -> Option<usize>
    requires { length map.now ≤ 65536 }
    ensures { FirstOf 0 (bits map.now) 0 result }
{
    lowest_free_from(map, 0)
}

// The same where all words before `from` are known to be full: who takes one free bit after the other passes each word once.
pub fn lowest_free_from(map: &[u64], from: usize) -> Option<usize>
    requires map_len_bound { length map.now ≤ 65536 }
    requires from_in_bounds { from ≤ length map.now }
    requires skipped { Skipped 0 (bits map.now) 0 (from * 64) }
    ensures { FirstOf 0 (bits map.now) 0 result }
{
    for i in from..map.len() {
        if let Some(bit) = first_one(!map[i], 0) {
            return Some(i * 64 + bit);
        }
    }
    None
}
