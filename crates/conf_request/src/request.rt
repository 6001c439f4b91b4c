//! Requests.
ghost use Rattle.std.specs.Prelude.{◌≡◌, IfOk, IfErr, IsSome, IfSome, option_copied};
ghost use Rattle.conf_request.specs.Words.{request, model_file, IsLawful};

use crate::draft::draft_of;
use crate::file_name::FileName;
use crate::options::OrderName;
use crate::paths::Paths;
use std::alloc::{AllocError, Global};

/// What the words ask for. A budget is at most 1,000,000.
#[derive(Debug, Drop)]
pub enum Request {
    /// A best configuration of the model. Its log is written to a file where one is named.
    Solve {
        model: FileName,
        budget: u32,
        log: Option<FileName>,
        order: OrderName,
    },
    /// The best configuration that references nothing failed and differs least from a former one.
    Reconfigure {
        model: FileName,
        former: FileName,
        failed: Paths,
        budget: u32,
        log: Option<FileName>,
        order: OrderName,
    },
    /// What a log shows: of `solve`, or of `reconfigure` where a former configuration is named.
    Check {
        model: FileName,
        log: FileName,
        former: Option<FileName>,
        failed: Paths,
    },
    /// Whether the configuration satisfies the model.
    Verify {
        model: FileName,
        config: FileName,
    },
    /// A best configuration of the model that is made for this number, from 1 to 100.
    Gen {
        n: u32,
    },
    /// What `reconfigure` answers after each of the events.
    Session {
        model: FileName,
        former: FileName,
        events: FileName,
        budget: u32,
        order: OrderName,
    },
    /// Constraints of the model that are to blame where it has no configuration.
    Core {
        model: FileName,
        budget: u32,
        order: OrderName,
    },
}

impl Request {
    /// The file of the model; `gen` makes its own.
    pub fn model(&self) -> Option<&FileName>
        ensures model { option_copied result ≡ model_file self.now }
    {
        match self {
            Request::Solve { model, .. }
            | Request::Reconfigure { model, .. }
            | Request::Check { model, .. }
            | Request::Verify { model, .. }
            | Request::Session { model, .. }
            | Request::Core { model, .. } => Some(model),
            Request::Gen { .. } => None,
        }
    }
}

/// What the words behind the program's name ask for. There is no request where they are anything
/// else; then no memory is wanted either.
#[tactic(auto, using(crate::proofs::Lawful::lawful), unfolding(crate::specs::Words::request))]
pub fn request_of(alloc: Global, words: &[String]) -> Result<Option<Request>, AllocError>
    ensures request { IfOk result (λ found. found ≡ request words.now) }
    ensures memory { IfErr result (λ _. IsSome (request words.now)) }
    ensures lawful { IfOk result (λ found. IfSome found IsLawful) }
{
    match draft_of(words) {
        Some(draft) => Ok(Some(draft.build(alloc)?)),
        None => Ok(None),
    }
}
