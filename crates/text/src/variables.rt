// The variables of a term, each by its word in the text.
ghost use Rattle.std.specs.Prelude.{◌≡◌, ◌≤◌, length};

use crate::refusal::Refusal;

// The most variables of a term.
const VARIABLES: usize = 16;

// The words of the variables that are known.
#[derive(Drop)]
pub struct Variables<'a> {
    words: [&'a [u8]; VARIABLES],
    known: usize,
    ghost room: { length words ≡ 16 },
    ghost few: { known ≤ 16 },
}

impl<'a> Variables<'a> {
    ghost use Rattle.std.specs.Prelude.{◌<◌, IfOk, IfSome};
    ghost use Rattle.text.specs.Leaves.{FindsVariable, NumbersVariables};

    pub fn none(text: &'a [u8]) -> Variables<'a>
        ensures { result.known ≡ 0 }
    {
        Variables {
            words: [&text[..0]; VARIABLES],
            known: 0,
        }
    }

    // The number of the variable with a word, among those that are known.
    fn find(&self, word: &[u8]) -> Option<usize>
        ensures within { IfSome result (λ number. number < self.now.known) }
        ensures is { FindsVariable self.now word.now result }
    {
        self.words[..self.known]
            .iter()
            .position(|known| *known == word)
    }

    // The number of the variable with a word, which is entered if it is new; the seventeenth is refused.
    pub fn number(&mut self, word: &'a [u8]) -> Result<usize, Refusal>
        ensures on { IfOk result (λ number. number < 16) }
        ensures is { NumbersVariables word.now self.old self.new result }
    {
        if let Some(number) = self.find(word) {
            return Ok(number);
        }
        let number = self.known;
        if number == VARIABLES {
            return Err(Refusal::SeventeenthVariable);
        }
        self.words[number] = word;
        self.known = number + 1;
        Ok(number)
    }
}
