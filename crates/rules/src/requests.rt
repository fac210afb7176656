// Requests to a book, and its responses.
ghost use Rattle.std.specs.Prelude.{◌≡◌};
ghost use Rattle.rules.specs.declared.requests.RequestFault.TheVariants.{Refused};

use crate::calls::Call;
use crate::questions::{Question, Reply};
use crate::refusals::Refusal;
use thiserror::Error;

/// A call, or a question.
#[derive(Clone, Copy, Debug, PartialEq, Eq)]
pub enum Request {
    Make(Call),
    Ask(Question),
}

/// The two numbers that an accepted call answers; where it has one, the second is 0. Which they are stands at the
/// [`Call`].
#[derive(Clone, Copy, Debug, PartialEq, Eq)]
pub struct Answers {
    pub first: u64,
    pub second: u64,
}

impl From<u64> for Answers {
    ghost use Rattle.rules.specs.Answering.{one};

    ghost from_gives = { λ x r. r ≡ one x };

    fn from(first: u64) -> Answers {
        Answers { first, second: 0 }
    }
}

impl From<(u64, u64)> for Answers {
    ghost use Rattle.rules.specs.Answering.{two};

    ghost from_gives = { λ v r. r ≡ two v.0 v.1 };

    fn from((first, second): (u64, u64)) -> Answers {
        Answers { first, second }
    }
}

/// What a request is answered: a call's numbers, or a question's reply.
#[derive(Clone, Copy, Debug, PartialEq, Eq)]
pub enum Answer {
    Accepted(Answers),
    Replied(Reply),
}

/// Why a request has no answer.
#[derive(Clone, Copy, Debug, PartialEq, Eq, Error)]
pub enum RequestFault {
    #[error(transparent)]
    Refused(Refusal),
    /// This half of the day does not take the call.
    #[error("this half of the day does not take the call")]
    Misplaced,
}

impl From<Refusal> for RequestFault {
    ghost from_gives = { λ e r. r ≡ Refused e };

    fn from(refusal: Refusal) -> RequestFault {
        RequestFault::Refused(refusal)
    }
}

/// What a book responds to a request.
pub type Response = Result<Answer, RequestFault>;
