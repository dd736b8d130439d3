// The marked numbers, counted and written. Marks are lent as words, as docs/CONTRACTS.md names `count` and `list`, so that they are a set
// is asked of each caller.
ghost use Rattle.std.specs.Prelude.{◌≡◌, ◌≤◌, length};
ghost use Rattle.layout.specs.Layout.{rule_numbers};
ghost use Rattle.book.specs.Rules.{Rules};
ghost use Rattle.bits.specs.Numbers.{NumberSet, has};
ghost use Rattle.questions.specs.Asking.{numbers};
ghost use Rattle.questions.specs.Promises.{Lists};

// How many numbers are marked.
pub fn count(marks: &[u64]) -> usize
    requires { NumberSet marks.now }
    ensures { result ≡ length (numbers (has marks.now) rule_numbers) }
{
    bits::numbers::members(marks).count()
}

// Writes the marked numbers, ascending, from the front of `out`, and answers how many they are. Ascending is the order of a list,
// whatever the rules.
pub fn list(marks: &[u64], out: &mut [u16]) -> usize
    requires number_set { NumberSet marks.now }
    requires rule_numbers_in_bounds { length (numbers (has marks.now) rule_numbers) ≤ length out.old }
    ensures { (rules : Rules) → Lists rules marks.now out.old out.new result }
{
    // Counted by hand, since how many they are is the answer: `enumerate` leaves no count behind its loop.
    let mut n: usize = 0;
    for number in bits::numbers::members(marks) {
        out[n] = number as u16;
        n += 1;
    }
    n
}
