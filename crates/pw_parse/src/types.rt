//! The types that a declaration begins with.
ghost use Rattle.std.specs.Prelude.{◌≡◌};
ghost use Rattle.pw_grammar.specs.Statements as statements;
ghost use Rattle.pw_grammar.specs.Reading.Steps.{Reads};
ghost use Rattle.pw_grammar.specs.Reading.Statements as spec;

use crate::cursor::Cursor;
use pw_grammar::{Sort, SyntaxError, is_same};
use pw_tree::Ty;

/// The type of one word that a symbol is.
fn type_of(sort: Sort) -> Option<Ty>
    ensures { result ≡ statements.type_of_keyword sort }
{
    match sort {
        Sort::Long => Some(Ty::Long),
        Sort::Fn0 => Some(Ty::Fn(0)),
        Sort::Fn1 => Some(Ty::Fn(1)),
        Sort::Fn2 => Some(Ty::Fn(2)),
        Sort::Fn3 => Some(Ty::Fn(3)),
        Sort::Fn4 => Some(Ty::Fn(4)),
        Sort::Fn5 => Some(Ty::Fn(5)),
        Sort::Fn6 => Some(Ty::Fn(6)),
        _ => None,
    }
}

/// Whether a type begins with this symbol.
#[tactic(auto, unfolding(pw_grammar::specs::Reading::Statements::begins_type))]
pub(crate) fn begins_type(sort: Sort) -> bool
    ensures { result ≡ spec.begins_type sort }
{
    match type_of(sort) {
        Some(_) => true,
        None => is_same(sort, Sort::Unsigned),
    }
}

/// `unsigned long`
#[tactic(auto, unfolding(pw_grammar::specs::Reading::Statements::unsigned_long))]
fn unsigned_long(cursor: &mut Cursor<'_>) -> Result<Ty, SyntaxError>
    ensures { Reads (spec.unsigned_long cursor.old) result cursor.new }
{
    cursor.skip()?;
    cursor.expect(Sort::Long)?;
    Ok(Ty::Ulong)
}

/// A type: one word, or `unsigned long`.
#[tactic(auto, unfolding(pw_grammar::specs::Reading::Statements::type_name))]
pub(crate) fn type_name(cursor: &mut Cursor<'_>) -> Result<Ty, SyntaxError>
    ensures { Reads (spec.type_name cursor.old) result cursor.new }
{
    if cursor.sees(Sort::Unsigned) {
        return unsigned_long(cursor);
    }
    match type_of(cursor.peek()) {
        Some(ty) => {
            cursor.skip()?;
            Ok(ty)
        }
        None => Err(cursor.refuse()),
    }
}
