//! Laws of the code scheme, each the contract of a function: the sizes of code, and their bounds.
ghost use Rattle.pw_code.specs.Laws.{ExpressionsHaveTheirSize, StatementsHaveTheirSize, FunctionsHaveTheirSize, WellTypedCodeIsShort, ExpressionsAreShort, StatementsAreShort, FunctionsAreShort};

/// The code of an expression is as many words as are computed for it.
pub fn expressions_have_their_size()
    ensures { ExpressionsHaveTheirSize }
{}

/// The code of a statement is as many words as are computed for it.
pub fn statements_have_their_size()
    ensures { StatementsHaveTheirSize }
{}

/// The code of a function is as many words as are computed for it.
pub fn functions_have_their_size()
    ensures { FunctionsHaveTheirSize }
{}

/// The code of a well typed expression is short.
pub fn well_typed_code_is_short()
    ensures { WellTypedCodeIsShort }
{}

/// Short code has fewer than 16 words for each expression.
pub fn expressions_are_short()
    ensures { ExpressionsAreShort }
{}

/// Statements have at most 16 words for each expression and statement.
pub fn statements_are_short()
    ensures { StatementsAreShort }
{}

/// A well typed function has fewer than 2^18 words.
pub fn functions_are_short()
    ensures { FunctionsAreShort }
{}
