//! What messages call each fault.
ghost use Rattle.std.specs.Prelude.{◌≡◌};
ghost use Rattle.pw_front.specs.Messages.{lex_phrase, syntax_phrase};

use pw_grammar::SyntaxError;
use pw_lex::LexError;

/// What is wrong with a text as a list of tokens.
pub fn lex_phrase(fault: LexError) -> &'static str
    ensures { result.now ≡ lex_phrase fault }
{
    match fault {
        LexError::BadByte(_) => "bad byte",
        LexError::OpenComment(_) => "open comment",
        LexError::BadNumber(_) => "bad number",
        LexError::TooWide(_) => "number too wide",
        LexError::LongName(_) => "name too long",
        LexError::NoMemory => "out of memory",
    }
}

/// What is wrong with a list of tokens as a unit.
pub fn syntax_phrase(fault: SyntaxError) -> &'static str
    ensures { result.now ≡ syntax_phrase fault }
{
    match fault {
        SyntaxError::At(_) => "syntax",
        SyntaxError::TooNested(_) => "brackets too deep",
        SyntaxError::TooLong(_) => "function too long",
        SyntaxError::NoMemory => "out of memory",
    }
}
