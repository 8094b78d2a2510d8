//! Laws of generated inputs. Their proofs are all that these functions have.

ghost use Rattle.std.specs.Prelude.{◌≡◌, ℕ, Ok, Result};
ghost use Rattle.cj_ir.specs.WellFormed.{IsWellFormed};
ghost use Rattle.cj_ir.specs.declared.script.Input.{Input};
ghost use Rattle.cj_tokens.specs.declared.refusal.Refused.{Refused};
ghost use Rattle.cj_script.specs.Fitting.{FitsScript};
ghost use Rattle.cj_text.specs.Reads.{Reads};
ghost use Rattle.cj_bench.specs.Generated.{generated, generated_text};

/// For each number: its text is read as the input of the number, and as nothing else; the program
/// is well-formed, and the script fits it.
pub fn generated_is_an_input()
    ensures reads { (number : ℕ) → Reads (generated_text number) (Ok (generated number)) }
    ensures only { (number : ℕ) (answer : Result Input Refused) → Reads (generated_text number) answer → answer ≡ Ok (generated number) }
    ensures well_formed { (number : ℕ) → IsWellFormed (generated number).checked }
    ensures fits { (number : ℕ) → FitsScript (generated number).checked (generated number).script }
{}
