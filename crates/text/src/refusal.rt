// Why a text is refused.
ghost use Rattle.std.specs.Prelude.{◌≡◌};
ghost use Rattle.text.specs.Refusals.{NoTerm, Names, number_of_refusal, place_of_refusal};

use std::error::Error;
use std::fmt;
use tokens::Broken;

// What the name table refuses; the seventeenth variable; and with the place where the reading stopped: no cell left of the 32, no term
// can go on, an eighth argument.
#[derive(Clone, Copy, Debug, PartialEq, Eq)]
pub enum Refusal {
    Names(names::refusal::Refusal),
    SeventeenthVariable,
    NoCell(usize),
    NoTerm(usize),
    EighthArgument(usize),
}

impl Refusal {
    // The place that is told with the refusal: C is told only that of 20.
    pub fn place(self) -> usize
        ensures { result ≡ place_of_refusal self }
    {
        match self {
            Refusal::NoTerm(place) => place,
            _ => 0,
        }
    }
}

// The reference's number.
impl From<Refusal> for u64 {
    ghost from_gives = { λ refusal number. number ≡ number_of_refusal refusal };

    fn from(refusal: Refusal) -> u64 {
        match refusal {
            Refusal::Names(refusal) => u64::from(refusal),
            Refusal::SeventeenthVariable => 4,
            Refusal::NoCell(_) => 5,
            Refusal::NoTerm(_) => 20,
            Refusal::EighthArgument(_) => 21,
        }
    }
}

impl fmt::Display for Refusal {
    fn fmt<W: fmt::Write>(&self, f: &mut fmt::Formatter<W>) -> fmt::Result {
        match self {
            Refusal::Names(refusal) => write!(f, "{refusal}"),
            Refusal::SeventeenthVariable => f.write_str("a term has at most 16 variables"),
            Refusal::NoCell(_) => f.write_str("a term has at most 32 cells"),
            Refusal::NoTerm(place) => write!(f, "no term can go on at byte {place}"),
            Refusal::EighthArgument(_) => f.write_str("a name has at most 7 arguments"),
        }
    }
}

impl Error for Refusal {}

impl From<names::refusal::Refusal> for Refusal {
    ghost from_gives = { λ refusal r. r ≡ Names refusal };

    fn from(refusal: names::refusal::Refusal) -> Refusal {
        Refusal::Names(refusal)
    }
}

impl From<Broken> for Refusal {
    ghost from_gives = { λ broken r. r ≡ NoTerm broken.at };

    fn from(broken: Broken) -> Refusal {
        Refusal::NoTerm(broken.at)
    }
}
