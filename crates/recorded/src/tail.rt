// The words of a record behind its term: nothing but zeros may stand there. A record is lent as the part of the memory that it is.
ghost use Rattle.std.specs.Prelude.{◌≡◌, length};
ghost use Rattle.deciding.specs.Deciding.{Decides};
ghost use Rattle.layout.specs.Layout.{term_words};
ghost use Rattle.bits.specs.Packed.{fields};
ghost use Rattle.book.specs.Filling.{Zeros};

// Are all cells of a record from `from` on zero? Of the word of `from` the shift drops the cells before it; a word
// behind it is zero as a whole.
pub fn zeros_from(words: &[u64], from: usize) -> bool
    requires { length words.now ≡ term_words }
    ensures { Decides (Zeros (fields words.now) from) result }
{
    let first = from / 4;
    if layout::TERM_WORDS <= first {
        return true;
    }
    words[first] << (from % 4 * 16) == 0 && words[first + 1..].iter().all(|word| *word == 0)
}
