// A term's cells in the 8 words of a record, and its blank form as the tree has it.
ghost use Rattle.std.specs.Prelude.{◌≡◌, ◌++◌, ◌∷◌, [], ℕ, ◌+◌, ◌-◌, ◌≤◌, ◌<◌, length, take, replicate, get_or};
ghost use Rattle.layout.specs.Layout.{term_words};
ghost use Rattle.bits.specs.Packed.{parts, fields};
ghost use Rattle.book.specs.Memory.{form_of};
ghost use Rattle.book.specs.Filling.{Zeros};

// The 32 cells of a record's words, which are zero from `size` on: the words behind a term are not read, so the size is lent beside.
pub fn load_term(words: &[u64], size: usize) -> [u16; 32]
    requires words_len { length words.now ≡ term_words }
    requires size_bound { size ≤ 32 }
    requires zeros { Zeros (fields words.now) size }
    ensures { result ≡ fields words.now }
{
    let mut cells = [0u16; 32];
    for i in (0..size).step_by(4) {
        cells[i] = bits::field(words, i);
        cells[i + 1] = bits::field(words, i + 1);
        cells[i + 2] = bits::field(words, i + 2);
        cells[i + 3] = bits::field(words, i + 3);
    }
    cells
}

fn cell_or_zero(term: &[u16], i: usize) -> u16
    ensures { result ≡ get_or term.now i 0 }
{
    term.get(i).copied().unwrap_or(0)
}

// Four cells from a place on as one word: a word past the end costs one test, and most terms are short.
fn four(term: &[u16], i: usize) -> u64
    requires { i < 32 }
    ensures { (j : ℕ) → j < 4 → get_or (parts 16 4 result) j 0 ≡ get_or term.now (i + j) 0 }
{
    if term.len() <= i {
        return 0;
    }
    let a = u64::from(cell_or_zero(term, i));
    let b = u64::from(cell_or_zero(term, i + 1));
    let c = u64::from(cell_or_zero(term, i + 2));
    let d = u64::from(cell_or_zero(term, i + 3));
    ((a * 65536 + b) * 65536 + c) * 65536 + d
}

// A term's cells, and zeros, into a record's words.
pub fn store(words: &mut [u64], term: &[u16])
    requires { (length words.old ≡ term_words) × (length term.now ≤ 32) }
    ensures { fields words.new ≡ term.now ++ replicate (32 - length term.now) 0 }
{
    for (i, word) in words.iter_mut().enumerate() {
        *word = four(term, 4 * i);
    }
}

// The row of a rule in the tree: its blank form, and behind it its number.
pub fn row(term: &[u16], number: u16) -> [u16; 33]
    requires { length term.now ≤ 32 }
    ensures { take (length term.now + 1) result ≡ form_of term.now ++ (number ∷ []) }
{
    let mut row = [number; 33];
    for (i, cell) in term.iter().enumerate() {
        row[i] = term::blank(*cell);
    }
    row
}
