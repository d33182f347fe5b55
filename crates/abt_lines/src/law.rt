//! Servers whose answers are a function of the lines.
ghost use Rattle.std.specs.Prelude.{◌≡◌, ℕ, ◌+◌, List, ◌++◌, take, Option};
ghost use Rattle.abt_text.specs.Text.{Text, ◌⋅◌};
ghost use Rattle.abt_lines.specs.Lines.{seen_lines};
ghost use Rattle.abt_lines.specs.Runs.{AnswersFirst, IsAnswering};
ghost use Rattle.abt_lines.specs.Served.{IsServed, IsServedPart, ServesAll, ServesPart};

use crate::server::LineServer;

/// If a function says the answers of a server, what goes out is what it says: all of it, a beginning of it, or exactly its answers to the
/// first lines, behind which it says those of the server then.
pub fn a_function_answers<S: LineServer>()
    ensures all { (answers : S → ℕ → List (Option Text) → Text) → IsAnswering S.steps S.ends answers
        → (first last : S) (left old new : Option Text) → ServesAll S.steps S.ends first last left old new
        → IsServed (λ source. answers first 1 (seen_lines source)) left old new }
    ensures part { (answers : S → ℕ → List (Option Text) → Text) → IsAnswering S.steps S.ends answers
        → (first : S) (left old new : Option Text) → ServesPart S.steps S.ends first left old new
        → IsServedPart (λ source. answers first 1 (seen_lines source)) left old new }
    ensures first { (answers : S → ℕ → List (Option Text) → Text) → IsAnswering S.steps S.ends answers
        → (first : S) (lines : List (Option Text)) (count : ℕ) (text : Text)
        → AnswersFirst S.steps first lines count text
        → (server : S) × ((more : List (Option Text))
        → text ⋅ answers server (count + 1) more ≡ answers first 1 (take count lines ++ more)) }
{}
