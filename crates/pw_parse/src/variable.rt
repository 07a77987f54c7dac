//! Variables at file level: their size and what they begin with.
ghost use Rattle.std.specs.Prelude.{◌≡◌};
ghost use Rattle.pw_grammar.specs.Reading.Steps.{Reads};
ghost use Rattle.pw_grammar.specs.Reading.Declarations as spec;

use crate::cursor::Cursor;
use crate::initialiser::{initials, number};
use pw_grammar::{Sort, SyntaxError};
use pw_tree::{DeclKind, InitItem, Linkage, Ty};
use sqlite_items::Items;
use std::alloc::Global;

/// Whether it is `extern`.
pub(crate) fn is_extern(linkage: Linkage) -> bool
    ensures { result ≡ spec.is_extern linkage }
{
    match linkage {
        Linkage::Extern => true,
        Linkage::Plain | Linkage::Static => false,
    }
}

/// `[ n ]`
#[tactic(auto, unfolding(pw_grammar::specs::Reading::Declarations::size))]
fn size(cursor: &mut Cursor<'_>) -> Result<Option<u64>, SyntaxError>
    ensures { Reads (spec.size cursor.old) result cursor.new }
{
    cursor.skip()?;
    if !cursor.sees(Sort::Number) {
        return Err(cursor.refuse());
    }
    let count = number(cursor)?;
    cursor.expect(Sort::RightBracket)?;
    Ok(Some(count))
}

/// `[ n ]`, or nothing.
#[tactic(auto, unfolding(pw_grammar::specs::Reading::Declarations::maybe_size))]
fn maybe_size(cursor: &mut Cursor<'_>) -> Result<Option<u64>, SyntaxError>
    ensures { Reads (spec.maybe_size cursor.old) result cursor.new }
{
    if cursor.sees(Sort::LeftBracket) {
        size(cursor)
    } else {
        Ok(None)
    }
}

/// What a variable begins with, or nothing.
#[tactic(auto, unfolding(pw_grammar::specs::Reading::Declarations::maybe_initials))]
fn maybe_initials(
    alloc: Global,
    cursor: &mut Cursor<'_>,
    iterations: usize,
    linkage: Linkage,
    size: Option<u64>,
) -> Result<Option<Items<InitItem>>, SyntaxError>
    ensures { Reads (spec.maybe_initials iterations linkage size cursor.old) result cursor.new }
{
    if cursor.sees(Sort::Assign) && !is_extern(linkage) {
        initials(alloc, cursor, iterations, size)
    } else {
        Ok(None)
    }
}

/// A variable from after its name on: its declarator's last token, and what it is.
#[tactic(auto, unfolding(pw_grammar::specs::Reading::Declarations::variable, pw_grammar::specs::Reading::Declarations::last_taken))]
pub(crate) fn variable(
    alloc: Global,
    cursor: &mut Cursor<'_>,
    iterations: usize,
    linkage: Linkage,
    ty: Ty,
) -> Result<(u32, DeclKind), SyntaxError>
    ensures { Reads (spec.variable iterations linkage ty cursor.old) result cursor.new }
{
    let size = maybe_size(cursor)?;
    let declarator = cursor.last();
    let initials = maybe_initials(alloc, cursor, iterations, linkage, size)?;
    cursor.expect(Sort::Semicolon)?;
    Ok((declarator, DeclKind::Var(ty, size, initials)))
}
