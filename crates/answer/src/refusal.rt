// Why a call is refused. Each refusal has its number; number and sentence are those of RULES 9.3.
ghost use Rattle.std.specs.Prelude.{◌≡◌};
ghost use Rattle.answer.specs.Answer as Spec;
ghost use Rattle.answer.specs.Refusal.{number_of};

use crate::Answer;

// The refusals, by their numbers. 17 is not used.
#[derive(Clone, Copy, Debug, PartialEq, Eq)]
pub enum Refusal {
    TooLarge = 1,
    TooFewBytes = 2,
    MisplacedTag = 3,
    TagOrder = 4,
    UnknownVr = 5,
    ReservedBytes = 6,
    BadLength = 7,
    TooDeep = 8,
    DigestLength = 9,
    ListSize = 10,
    ListOrder = 11,
    BarredTag = 12,
    MissingElement = 13,
    IsUn = 14,
    HoldsUn = 15,
    OutputTooShort = 16,
    NoSignature = 18,
    NoMacId = 19,
    NoParameters = 20,
    TransferSyntax = 21,
    UnknownAlgorithm = 22,
    NoTagList = 23,
    BadFrame = 24,
    BadRunningDigest = 25,
}

impl Refusal {
    // The number of a refusal. (No `From`: README has it by this name.)
    pub fn number(self) -> u8
        ensures { result ≡ number_of self }
    {
        self as u8
    }

    // The answer of a refusal, with the position that goes with it.
    pub fn at(self, position: usize) -> Answer
        ensures { result ≡ Spec.refused (number_of self) position }
    {
        Answer::refused(self.number(), position)
    }
}
