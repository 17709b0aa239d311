//! What holds of the definitions. Each law is the contract of a function that does nothing.
ghost use Rattle.std.specs.Prelude.{◌≡◌, ℕ, List, Option};
ghost use Rattle.gate_idl.specs.Opening.{IsOpened, Opened};

use idl_consts::one_answer;

/// Files give one answer: no two refusals, no refusal beside declarations, and no other declarations.
pub fn files_give_one_answer()
    ensures { (holds : List ℕ → Option (List ℕ)) (root : List ℕ) (a b : Opened) → IsOpened holds root a → IsOpened holds root b → a ≡ b }
{
    one_answer()
}
