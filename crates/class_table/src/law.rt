//! Laws of models: what a model declares doesn't depend on where its tree lies in memory, and its
//! names are words.
ghost use Rattle.std.specs.Prelude.{◌≡◌, ◌↔◌, ℕ};
ghost use Rattle.conf_syntax.specs.Trees.{program_tokens};
ghost use Rattle.conf_syntax.specs.Words.{AreWords};
ghost use Rattle.conf_syntax.specs.OneModel.{AreOneModel};
ghost use Rattle.class_table.specs.Faults.{Stands};
ghost use Rattle.class_table.specs.Outline.{outline};
ghost use Rattle.class_table.specs.Worded.{HasWords};
ghost use Rattle.class_table.specs.declared.fault.TableFault.{TableFault as AFault};
ghost use Rattle.class_table.specs.declared.fault.TableFault.TheVariants.{Duplicate};

use conf_syntax::Program;

/// It does nothing; its contract is the law. Trees that are one model have one outline, and the
/// same faults stand in their declarations.
#[tactic(auto, using(crate::proofs::BareFaults::one_outline, crate::proofs::BareFaults::one_faults))]
pub fn one_model_declares_the_same(one: &Program, other: &Program)
    requires one_model { AreOneModel one.now other.now }
    ensures outline { outline one.now.items ≡ outline other.now.items }
    ensures faults { (fault : AFault) → Stands one.now.items fault ↔ Stands other.now.items fault }
{}

/// It does nothing; its contract is the law. Where the words of a model are words and no name is
/// declared twice, the names of its outline are words, and the values of each enumeration differ.
#[tactic(auto, using(crate::proofs::WordOutline::outline_worded))]
pub fn names_are_words(program: &Program)
    requires words { AreWords (program_tokens program.now) }
    requires once { (at : ℕ) → Stands program.now.items (Duplicate at) → ⊥ }
    ensures names { HasWords (outline program.now.items) }
{}
