//! Laws of words and of what is due. Each function does nothing, and its contract is the law.

ghost use Rattle.std.specs.Prelude.{◌≡◌, ℕ, List};
ghost use Rattle.mpx_words.specs.Commands.{Command as Meant, Means};

/// Words mean at most one command.
pub fn words_mean_one_command()
    ensures { (words : List (List ℕ)) (c d : Meant) → Means words c → Means words d → c ≡ d }
{}
