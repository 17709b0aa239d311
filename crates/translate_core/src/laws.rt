//! Laws of answers. Each is the contract of a function that does nothing.
ghost use Rattle.type_tables.specs.Declarations.{Declarations};
ghost use Rattle.type_tables.specs.Known.{IsBuilt};
ghost use Rattle.translate_core.specs.Answers.{DeclaresAnswers};

/// An answer is spelled as any exception is: what is known of its items is what each schema declares of a
/// TApplicationException.
pub fn an_answer_is_a_declared_failure()
    ensures { (d : Declarations) → IsBuilt d → DeclaresAnswers d }
{}
