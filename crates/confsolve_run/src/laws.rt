//! A law: a text has one model, whatever tree of it a clause speaks of.
ghost use Rattle.std.specs.Prelude.{List, Option, ℕ};
ghost use Rattle.branch_choice.specs.declared.split.Order.{Order as AnOrder};
ghost use Rattle.class_table.specs.Worded.{HasWords};
ghost use Rattle.conf_request.specs.declared.request.Request.{Request as ARequest};
ghost use Rattle.conf_syntax.specs.declared.tree.Program.{Program as AProgram};
ghost use Rattle.conf_syntax.specs.OneModel.{AreOneModel};
ghost use Rattle.desk_io.specs.Desk.{Files};
ghost use Rattle.proof_log.specs.Rounds.{Journal as AJournal};
ghost use Rattle.run_status.specs.declared.status.Status.{Status as AStatus};
ghost use Rattle.run_promise.specs.Answer.{IsAnswer, IsAnswerBegun, IsAnswerSearched};
ghost use Rattle.run_promise.specs.Asking.{Asked};
ghost use Rattle.model_reader.specs.TextModel.{IsModelOf, HasModel};
ghost use Rattle.model_reader.specs.Meaning.{IsTyped};
ghost use Rattle.model_reader.specs.Models.{IsWithin, outline_of};
ghost use Rattle.model_reader.specs.ModelRefusal.{IsRefusedAs, IsRefusedFor};
ghost use Rattle.run_promise.specs.Refusal.{IsDeniedOf};

use conf_syntax::Program;

/// It does nothing; its contract is the law. What a clause of `run` says of some tree of a text
/// holds of every tree of it, and a text with a model isn't refused as one that has none. So a
/// model that is typed and within the limits isn't refused for its text.
pub fn text_has_one_model(text: &[u8], model: &Program)
    requires model { IsModelOf text.now model.now }
    // its trees differ in pointers alone
    ensures one { (other : AProgram) → IsModelOf text.now other → AreOneModel model.now other }
    // where it is typed, its names are words
    ensures names { IsTyped model.now → HasWords (outline_of model.now) }
    // a refusal that stands in the text stands in this tree
    ensures refused { (s : AStatus) → IsRefusedAs s text.now → IsRefusedFor s model.now }
    ensures within { IsWithin model.now → (s : AStatus) → IsRefusedAs s text.now → ⊥ }
    // what is asked, answered, begun or searched of some tree of the text is so of this one
    ensures asked { (told : Option Files) (r : ARequest) (journal : AJournal) (s : AStatus)
        → HasModel text.now (λ p. IsWithin p × IsDeniedOf told r journal s p)
        → IsWithin model.now × IsDeniedOf told r journal s model.now }
    ensures answered { (os : List AnOrder) (journal : AJournal) (asked : Asked) (s : AStatus)
        (printed : List ℕ)
        → HasModel text.now (λ p. IsWithin p × IsAnswer os journal asked p s printed)
        → IsWithin model.now × IsAnswer os journal asked model.now s printed }
    ensures begun { (os : List AnOrder) (journal : AJournal) (asked : Asked) (s : AStatus)
        (whole printed : List ℕ)
        → HasModel text.now (λ p. IsWithin p × IsAnswerBegun os journal asked p s whole printed)
        → IsWithin model.now × IsAnswerBegun os journal asked model.now s whole printed }
    ensures searched { (journal : AJournal) (asked : Asked)
        → HasModel text.now (λ p. IsWithin p × IsAnswerSearched journal asked p)
        → IsWithin model.now × IsAnswerSearched journal asked model.now }
{}
