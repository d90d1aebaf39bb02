//! Examples of texts, with their objects and refusals.

ghost use Rattle.std.specs.Prelude.{◌≡◌, Ok};
ghost use Rattle.std.specs.List.{AllByRecursion};
ghost use Rattle.asm_text.specs.Assembly.{assembled};
ghost use Rattle.asm_text.specs.Examples.{Codes, Stores, Refuses, examples_of_bounds_code, examples_of_code, examples_of_data, examples_of_shape, examples_of_refusals, example_text, example_object};

/// The definition gives the code, data and refusals of 73 small texts, among them each form of instruction, each
/// directive and each cause of refusal, and a whole object with symbols, signatures and fix-ups.
pub fn texts_assemble_as_written()
    ensures bounds_code { AllByRecursion Codes examples_of_bounds_code }
    ensures code { AllByRecursion Codes examples_of_code }
    ensures stored { AllByRecursion Stores examples_of_data }
    ensures shapes { AllByRecursion Refuses examples_of_shape }
    ensures refusals { AllByRecursion Refuses examples_of_refusals }
    ensures whole { assembled example_text ≡ Ok example_object }
{}
