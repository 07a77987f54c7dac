//! What the grammar asks of a token: its terminal symbol.
ghost use Rattle.std.specs.Prelude.{◌≡◌, true, false, MatchOption};
ghost use Rattle.pw_grammar.specs.Expressions.{name_in};
ghost use Rattle.pw_grammar.specs.Terminals as spec;

use pw_base::Name;
use pw_lex::TokenKind;

/// A terminal symbol of the grammar. What carries a name or a value is one symbol, whatever it carries.
#[derive(Clone, Copy, PartialEq, Eq, Debug)]
pub enum Sort {
    /// A name that is no keyword.
    Name,
    /// An integer constant.
    Number,
    /// A character constant.
    Character,
    Long,
    Unsigned,
    Void,
    Fn0,
    Fn1,
    Fn2,
    Fn3,
    Fn4,
    Fn5,
    Fn6,
    Extern,
    Static,
    If,
    Else,
    While,
    Do,
    For,
    Return,
    Break,
    Continue,
    /// `__in`
    Input,
    /// `__out`
    Output,
    LeftParen,
    RightParen,
    LeftBrace,
    RightBrace,
    LeftBracket,
    RightBracket,
    Semicolon,
    Comma,
    Assign,
    Plus,
    Minus,
    Star,
    Slash,
    Percent,
    Less,
    Greater,
    LessEqual,
    GreaterEqual,
    Equal,
    NotEqual,
    ShiftLeft,
    ShiftRight,
    And,
    Or,
    Xor,
    Tilde,
    Bang,
    AndAnd,
    OrOr,
    Question,
    Colon,
    /// A token with no place in the grammar.
    Other,
    /// The end of the list.
    End,
}

/// The symbols of the keywords, by their numbers.
const KEYWORDS: [Sort; 22] = [
    Sort::Long,
    Sort::Unsigned,
    Sort::Void,
    Sort::Fn0,
    Sort::Fn1,
    Sort::Fn2,
    Sort::Fn3,
    Sort::Fn4,
    Sort::Fn5,
    Sort::Fn6,
    Sort::Extern,
    Sort::Static,
    Sort::If,
    Sort::Else,
    Sort::While,
    Sort::Do,
    Sort::For,
    Sort::Return,
    Sort::Break,
    Sort::Continue,
    Sort::Input,
    Sort::Output,
];

/// The symbols of the punctuators that the grammar has a place for, by their numbers.
const PUNCTUATORS: [Sort; 31] = [
    Sort::LeftParen,
    Sort::RightParen,
    Sort::LeftBrace,
    Sort::RightBrace,
    Sort::LeftBracket,
    Sort::RightBracket,
    Sort::Semicolon,
    Sort::Comma,
    Sort::Assign,
    Sort::Plus,
    Sort::Minus,
    Sort::Star,
    Sort::Slash,
    Sort::Percent,
    Sort::Less,
    Sort::Greater,
    Sort::LessEqual,
    Sort::GreaterEqual,
    Sort::Equal,
    Sort::NotEqual,
    Sort::ShiftLeft,
    Sort::ShiftRight,
    Sort::And,
    Sort::Or,
    Sort::Xor,
    Sort::Tilde,
    Sort::Bang,
    Sort::AndAnd,
    Sort::OrOr,
    Sort::Question,
    Sort::Colon,
];

/// The symbol of this number, or `Other` where the table has none.
fn numbered(table: &[Sort], number: u8) -> Sort
    ensures { result ≡ spec.numbered table.now number }
{
    match table.get(usize::from(number)) {
        Some(sort) => *sort,
        None => Sort::Other,
    }
}

/// The symbol of a token.
#[tactic(auto, unfolding(crate::specs::Terminals::sort_of))]
pub fn sort_of(kind: &TokenKind) -> Sort
    ensures { result ≡ spec.sort_of kind.now }
{
    match kind {
        TokenKind::Word(_) => Sort::Name,
        TokenKind::Number(_, _) => Sort::Number,
        TokenKind::Char(_) => Sort::Character,
        TokenKind::Keyword(number) => numbered(&KEYWORDS, *number),
        TokenKind::Punct(number) => numbered(&PUNCTUATORS, *number),
    }
}

/// Whether they are one symbol.
#[tactic(auto, unfolding(crate::specs::Terminals::is_same))]
pub fn is_same(a: Sort, b: Sort) -> bool
    ensures { result ≡ spec.is_same a b }
{
    a == b
}

/// The name that a token carries, if its symbol is that of a name.
#[tactic(auto, unfolding(crate::specs::Terminals::sort_of, crate::specs::Terminals::is_same))]
pub fn word_of(kind: &TokenKind) -> Option<&Name>
    ensures { MatchOption result (spec.is_same (spec.sort_of kind.now) Sort.Name ≡ false) (λ name. (spec.is_same (spec.sort_of kind.now) Sort.Name ≡ true) × (name_in kind.now ≡ name.now)) }
{
    match kind {
        TokenKind::Word(name) => Some(name),
        TokenKind::Number(_, _)
        | TokenKind::Char(_)
        | TokenKind::Keyword(_)
        | TokenKind::Punct(_) => None,
    }
}
