//! Laws of the grammar, which hold of its definitions alone. The functions do nothing: their contracts are the laws.

ghost use Rattle.c_grammar.specs.FormedLaw.{ProgramsAreFormed};
ghost use Rattle.c_grammar.specs.SourceLaws.{SourcesHaveLevels, OneTree, SourceOrBad, BadIsNone, OneBad, OneDeep};
ghost use Rattle.c_grammar.specs.WrittenLaws.{AssignmentAsWritten, BaseAsWritten, BinaryAsWritten, ConditionalAsWritten, ExternalAsWritten, ParametersAsWritten, UnaryAsWritten};

/// Tokens are a source with one tree at most.
pub fn a_source_has_one_tree()
    ensures { OneTree }
{}

/// Tokens are a source, or one of them, or their end, is the first that does not fit.
pub fn tokens_are_a_source_or_do_not_fit()
    ensures { SourceOrBad }
{}

/// Tokens of which one does not fit are no source.
pub fn what_does_not_fit_is_no_source()
    ensures { BadIsNone }
{}

/// One token at most is the first that does not fit.
pub fn one_token_is_the_first_that_does_not_fit()
    ensures { OneBad }
{}

/// A source is what has levels of nesting.
pub fn sources_have_levels()
    ensures { SourcesHaveLevels }
{}

/// One token at most is the first that opens one nesting too many.
pub fn one_token_is_the_first_that_is_too_deep()
    ensures { OneDeep }
{}

/// The tree of a program is formed.
pub fn programs_are_formed()
    ensures { ProgramsAreFormed }
{}

/// An assignment is a conditional expression, or one with an operator and an assignment after it.
pub fn assignments_read_as_written()
    ensures { AssignmentAsWritten }
{}

/// A conditional expression is a binary one, or one with `?`, an expression, `:` and a conditional expression after it.
pub fn conditionals_read_as_written()
    ensures { ConditionalAsWritten }
{}

/// An expression of a level of operators is an operand of the level, or an expression of the level with an operator and an
/// operand after it.
pub fn operators_bind_from_the_left()
    ensures { BinaryAsWritten }
{}

/// The parameters of a function are `void`, or one parameter and more.
pub fn parameters_read_as_written()
    ensures { ParametersAsWritten }
{}

/// The first part of a type is `void`, an integer type or a struct.
pub fn bases_read_as_written()
    ensures { BaseAsWritten }
{}

/// A unary expression is one with an operator before it, a cast, `sizeof` of a type or of a unary expression that is no
/// cast, or a primary expression with what stands after it.
pub fn unaries_read_as_written()
    ensures { UnaryAsWritten }
{}

/// What stands at the outermost level is a struct, a global declaration or a function.
pub fn items_read_as_written()
    ensures { ExternalAsWritten }
{}
