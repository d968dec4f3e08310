// The conditions that 01 and its later requests refuse, each with the number that it has there. A check answers `Ok` or the refusal, and a
// refusal goes up by `?`. A further refusal is one more line here, in the order of its number; one more line in `number` of specs/Answers.antt
// and in `named` and `named-number` of proofs/Answering.antt. No function has a `requires`.
#![tactic(auto)]

ghost use Rattle.std.specs.Prelude.{◌≡◌, Some};
ghost use Rattle.refusals.specs.Answers.{number};
ghost use Rattle.refusals.specs.Printing.{printed};

use std::error::Error;
use std::fmt;

// The conditions, each with its number.
#[derive(Clone, Copy, Debug, PartialEq, Eq)]
pub enum Refusal {
    FileTooLong = 1,
    NotTheBanner = 2,
    LineTooLong = 3,
    SizeFields = 4,
    SizeRange = 5,
    PairFields = 6,
    PairRange = 7,
    PairRepeated = 8,
    PairCount = 9,
    TableShape = 10,
    TableRows = 11,
    ChainCount = 12,
    ChainPairs = 13,
    NotAChain = 14,
    NotReached = 15,
    BufferTooShort = 16,
    NoSuchComment = 17,
    BudgetTooLarge = 18,
    PairAbsent = 19,
    ReadingRange = 20,
    CutoffRange = 21,
    PairInChain = 22,
    CoverShape = 23,
    TooManyChains = 24,
    NotMaximal = 25,
    OtherProposal = 26,
    NotAnArrangement = 27,
    SampleInput = 28,
}

impl Refusal {
    // The number of a refusal.
    pub fn number(self) -> u64
        ensures { result ≡ number self }
    {
        self as u64
    }
}

// A refusal as the programs print it.
impl fmt::Display for Refusal {
    ghost output = { λ why. Some (printed why) };

    fn fmt<W: fmt::Write>(&self, f: &mut fmt::Formatter<W>) -> fmt::Result {
        write!(f, "refused {}", self.number())
    }
}

impl Error for Refusal {}
