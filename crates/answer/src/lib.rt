#![tactic(auto)]
// The answer that every call gives, and that travels whole from where it is made to the caller.
ghost use Rattle.std.specs.Prelude.{◌≡◌};
ghost use Rattle.answer.specs.Answer as Spec;
ghost use Rattle.answer.specs.Step.{answer_by};

pub mod refusal;

// The number, the position it speaks of, and the length of the stream: RULES 9.1 gives an answer these three, and the theorems and C take
// the number as it stands.
#[derive(Clone, Copy, Debug, PartialEq, Eq)]
pub struct Answer {
    pub number: u8,
    pub position: usize,
    pub length: usize,
}

impl Answer {
    // A call that is accepted, with the length of its stream.
    pub fn accepted(length: usize) -> Self
        ensures { result ≡ Spec.accepted length }
    {
        Self {
            number: 0,
            position: 0,
            length,
        }
    }

    // A refusal by its number, and the position that goes with it. 0 is no refusal: it gives what accepted(0) does. The code asks for one by
    // `Refusal::at`; README has this function, and its clause is the one that `at` has for every number.
    pub fn refused(number: u8, position: usize) -> Self
        ensures { result ≡ Spec.refused number position }
    {
        if number == 0 {
            return Self::accepted(0);
        }
        Self {
            number,
            position,
            length: 0,
        }
    }
}

// The answer of a call by its last step: a refusal, whole, or the length of the stream.
impl From<Result<usize, Answer>> for Answer {
    ghost from_gives = { λ r a. a ≡ answer_by r };

    fn from(step: Result<usize, Answer>) -> Self {
        match step {
            Ok(length) => Self::accepted(length),
            Err(refusal) => refusal,
        }
    }
}
