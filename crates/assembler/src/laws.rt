//! Laws of texts. Each function does nothing, and its contract is the law.

ghost use Rattle.std.specs.Prelude.{◌≡◌, ◌≤◌, ℕ, List, length, Ok};
ghost use Rattle.asm_text.specs.Assembly.{assembled};
ghost use Rattle.assembler.specs.Sound.{most_text};
ghost use Rattle.obj_file.specs.Object.{IsObject};
ghost use Rattle.obj_file.specs.declared.object.Object.{Object as Formed};

/// The object of a text keeps all rules of objects, so it has a spelling.
pub fn objects_of_texts_are_formed()
    ensures { (text : List ℕ) (o : Formed) → length text ≤ most_text → assembled text ≡ Ok o → IsObject o }
{}
