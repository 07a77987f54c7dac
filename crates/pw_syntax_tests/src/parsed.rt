//! The unit of a text, or its first fault.
use pw_grammar::SyntaxError;
use pw_lex::tokens;
use pw_parse::parse;
use pw_tree::Unit;
use std::alloc::Global;
use std::process::Abort;
use std::test::Fail;

/// The unit of a text that is a list of tokens, or the list's first fault.
pub(crate) fn parsed(
    rt: &impl Abort,
    alloc: Global,
    text: &[u8],
) -> Result<Result<Unit, SyntaxError>, Fail> {
    assert!(rt; text.len() < 100_000);
    let tokens = tokens(alloc, text)?;
    assert!(rt; tokens.len() < 100_000);
    Ok(parse(alloc, tokens.as_slice()))
}
