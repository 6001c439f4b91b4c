//! An answer, and what is asked of a model.
ghost use Rattle.std.specs.Prelude.{◌≡◌};

use model_reader::Built;
use model_search::Question;
use reconfigure::Repair;
use run_status::Status;

/// A text with the status that it comes with, and the text of the log where one is wanted.
#[derive(Drop)]
pub struct Answer {
    pub status: Status,
    pub text: Vec<u8>,
    pub log: Option<Vec<u8>>,
}

/// What is asked of a model, or of a repair of it.
pub fn question_of<'a>(built: Built<'a>, repair: Option<&'a Repair>) -> Question<'a>
    ensures model { result.model ≡ built.entry.model }
    ensures objects { result.objects ≡ built.entry.objects }
    ensures repair { result.repair ≡ repair.entry }
{
    Question {
        model: built.model,
        objects: built.objects,
        repair,
    }
}
