//! Where the parts of an `if` and of a `for` stand after its first part.
#![tactic(auto, unfolding(pw_tree::specs::WellTypedStatements::Everywhere, pw_code::specs::StatementCode::statement_words))]

ghost use Rattle.std.specs.Prelude.{◌≡◌, ◌+◌, option_map};
ghost use Rattle.pw_tree.specs.TypedExpressions.{typed_expression_of};
ghost use Rattle.pw_tree.specs.TypedStatements.{if_else, for_loop, typed_statement_of, optional_typed_statement};
ghost use Rattle.pw_code.specs.ExpressionCode.{expression_words as words_of};
ghost use Rattle.pw_code.specs.StatementCode as code;
ghost use Rattle.pw_gen.specs.Steps.Places.{after};
ghost use Rattle.pw_gen.specs.Steps.Emitting.{CanEmit, CanEmitElse};
ghost use Rattle.pw_gen.specs.Steps.ForPlaces.{AreForPlaces};

use crate::place::Place;
use crate::size::{condition_words, optional_words, statement_words};
use pw_genexpr::expression_words;
use pw_tree::{TExpr, TStmt};
use sqlite_items::Boxed;

/// Where an `else` stands.
pub(crate) fn else_place(
    c: &TExpr,
    a: &Boxed<TStmt>,
    b: &Option<Boxed<TStmt>>,
    place: Place,
) -> Place
    requires { CanEmit place (if_else (typed_expression_of c.now) (typed_statement_of a.now) (optional_typed_statement (option_map typed_statement_of b.now))) }
    ensures place { result ≡ after (after place (words_of (typed_expression_of c.now) + 2)) (code.statement_words (typed_statement_of a.now)) }
    ensures parts { CanEmitElse result (optional_typed_statement (option_map typed_statement_of b.now)) }
{
    let then_place = place.after(expression_words(c) + 2);
    then_place.after(statement_words(a.get()))
}

/// Where the parts of a `for` stand after the first one.
#[derive(Clone, Copy)]
pub(crate) struct ForPlaces {
    /// The condition, to which each iteration goes back.
    pub(crate) top: Place,
    /// The last part.
    pub(crate) last: Place,
    pub(crate) last_words: u32,
}

/// Where the parts of a `for` stand.
pub(crate) fn for_places(
    first: &Option<Boxed<TStmt>>,
    c: &Option<TExpr>,
    last: &Option<Boxed<TStmt>>,
    body: &Boxed<TStmt>,
    place: Place,
) -> ForPlaces
    requires { CanEmit place (for_loop (optional_typed_statement (option_map typed_statement_of first.now)) (option_map typed_expression_of c.now) (optional_typed_statement (option_map typed_statement_of last.now)) (typed_statement_of body.now)) }
    ensures { AreForPlaces place (optional_typed_statement (option_map typed_statement_of first.now)) (option_map typed_expression_of c.now) (optional_typed_statement (option_map typed_statement_of last.now)) (typed_statement_of body.now) result }
{
    let top = place.after(optional_words(first));
    let body_place = top.after(condition_words(c));
    ForPlaces {
        top,
        last: body_place.after(statement_words(body.get())),
        last_words: optional_words(last),
    }
}
