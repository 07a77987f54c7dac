//! The limits of a token list: how deep brackets nest, and how long functions are.
ghost use Rattle.std.specs.Prelude.{◌≡◌, ◌<◌, ◌≤◌, ◌+◌, ◌^◌, ◌&&◌, nat_le, length, IfSome};
ghost use Rattle.pw_grammar.specs.Terminals.{is_same, sort_of};
ghost use Rattle.pw_grammar.specs.Faults.{opens_bracket, closes_bracket, bracket, token_of};
ghost use Rattle.pw_base.specs.Limits.{open_brackets};
ghost use Rattle.pw_grammar.specs.Reading.Limits as spec;
ghost use Rattle.pw_grammar.specs.Reading.Whole as reading;
ghost use Rattle.pw_parse.specs.Steps.Walk.{walk_of};

use pw_base::Limits;
use pw_grammar::{Sort, SyntaxError, is_same, sort_of};
use pw_lex::Token;

/// Where a walk over declarations stands.
#[derive(Clone, Copy)]
struct Stand {
    /// The next token's number.
    at: usize,
    /// How many brackets are open.
    depth: usize,
    /// The declaration's first token.
    start: usize,
    /// A function's body has begun.
    in_body: bool,
    /// The last token was a `)`, and no bracket is open.
    behind_list: bool,
}

fn opens(token: &Token) -> bool
    ensures { result ≡ opens_bracket token.now }
{
    match sort_of(&token.kind) {
        Sort::LeftParen | Sort::LeftBracket | Sort::LeftBrace => true,
        _ => false,
    }
}

fn closes(token: &Token) -> bool
    ensures { result ≡ closes_bracket token.now }
{
    match sort_of(&token.kind) {
        Sort::RightParen | Sort::RightBracket | Sort::RightBrace => true,
        _ => false,
    }
}

/// How many brackets are open after a token, where `depth` are open before it.
fn bracket(depth: usize, token: &Token) -> usize
    requires { depth < 2 ^ 32 }
    ensures is { result ≡ bracket depth token.now }
    ensures near { result ≤ depth + 1 }
{
    if opens(token) {
        depth + 1
    } else if closes(token) {
        depth.saturating_sub(1)
    } else {
        depth
    }
}

fn is_sort(token: &Token, sort: Sort) -> bool
    ensures { result ≡ is_same (sort_of token.now.kind) sort }
{
    is_same(sort_of(&token.kind), sort)
}

impl Stand {
    /// At the first token.
    fn new() -> Stand
        ensures { walk_of result ≡ spec.anew 0 }
    {
        Stand {
            at: 0,
            depth: 0,
            start: 0,
            in_body: false,
            behind_list: false,
        }
    }

    /// Whether the token stands in a function's body, its braces included.
    fn is_inside(&self, token: &Token) -> bool
        ensures { result ≡ spec.is_inside (walk_of self.now) token.now }
    {
        self.in_body || (is_sort(token, Sort::LeftBrace) && self.depth == 0 && self.behind_list)
    }

    /// Whether it stands there after as many tokens of its function as there may be.
    fn is_late(&self, token: &Token) -> bool
        requires { self.now.start < 2 ^ 32 }
        ensures { result ≡ spec.is_late (walk_of self.now) token.now }
    {
        self.is_inside(token) && self.start + Limits::FUNCTION_TOKENS <= self.at
    }

    /// Whether the declaration ends with the token.
    fn is_last(&self, token: &Token) -> bool
        requires { self.now.depth < 2 ^ 32 }
        ensures { result ≡ spec.is_last (walk_of self.now) token.now }
    {
        bracket(self.depth, token) == 0
            && (is_sort(token, Sort::Semicolon)
                || (is_sort(token, Sort::RightBrace) && self.in_body))
    }

    /// After the token.
    #[tactic(auto, unfolding(pw_grammar::specs::Reading::Limits::step))]
    fn step(&self, token: &Token) -> Stand
        requires at { self.now.at < 2 ^ 32 }
        requires depth { self.now.depth ≤ self.now.at }
        requires start { self.now.start ≤ self.now.at }
        ensures is { walk_of result ≡ spec.step (walk_of self.now) token.now }
        ensures at { result.at ≡ self.now.at + 1 }
        ensures depth { result.depth ≤ result.at }
        ensures start { result.start ≤ result.at }
    {
        let at = self.at + 1;
        if self.is_last(token) {
            return Stand {
                at,
                start: at,
                ..Stand::new()
            };
        }
        let depth = bracket(self.depth, token);
        Stand {
            at,
            depth,
            start: self.start,
            in_body: self.is_inside(token),
            behind_list: is_sort(token, Sort::RightParen) && depth == 0,
        }
    }
}

/// Whether the token opens a bracket where as many are open as may be.
fn is_too_deep(depth: usize, token: &Token) -> bool
    ensures { result ≡ (opens_bracket token.now && nat_le open_brackets depth) }
{
    opens(token) && Limits::OPEN_BRACKETS <= depth
}

/// The first token that opens a bracket where as many are open as may be.
#[tactic(auto, unfolding(pw_grammar::specs::Reading::Limits::first_nested))]
fn first_nested(tokens: &[Token]) -> Option<usize>
    requires { length tokens.now < 2 ^ 32 }
    ensures is { result ≡ spec.first_nested 0 0 tokens.now }
    ensures below { IfSome result (λ at. at < length tokens.now) }
{
    let mut rest = tokens;
    let mut at = 0;
    let mut depth = 0;
    while let [token, more @ ..] = rest {
        if is_too_deep(depth, token) {
            return Some(at);
        }
        depth = bracket(depth, token);
        at += 1;
        rest = more;
    }
    None
}

/// The first token of a function's body that is past the function's limit.
#[tactic(auto, unfolding(pw_grammar::specs::Reading::Limits::first_late))]
fn first_late(tokens: &[Token]) -> Option<usize>
    requires { length tokens.now < 2 ^ 32 }
    ensures is { result ≡ spec.first_late (spec.anew 0) tokens.now }
    ensures below { IfSome result (λ at. at < length tokens.now) }
{
    let mut rest = tokens;
    let mut stand = Stand::new();
    while let [token, more @ ..] = rest {
        if stand.is_late(token) {
            return Some(stand.at);
        }
        stand = stand.step(token);
        rest = more;
    }
    None
}

/// The first token that passes a limit; nesting counts first.
#[tactic(auto, unfolding(pw_grammar::specs::Reading::Whole::first_limit))]
pub(crate) fn first_limit(tokens: &[Token]) -> Option<SyntaxError>
    requires { length tokens.now < 2 ^ 32 }
    ensures is { result ≡ reading.first_limit tokens.now }
    ensures below { IfSome result (λ limit. token_of limit < length tokens.now) }
{
    match (first_nested(tokens), first_late(tokens)) {
        (None, None) => None,
        (Some(nested), None) => Some(SyntaxError::TooNested(nested as u32)),
        (None, Some(late)) => Some(SyntaxError::TooLong(late as u32)),
        (Some(nested), Some(late)) => Some(if nested <= late {
            SyntaxError::TooNested(nested as u32)
        } else {
            SyntaxError::TooLong(late as u32)
        }),
    }
}
