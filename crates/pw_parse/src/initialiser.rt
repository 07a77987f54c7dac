//! The values that variables begin with.
ghost use Rattle.std.specs.Prelude.{◌≡◌};
ghost use Rattle.pw_grammar.specs.Reading.Steps.{Reads};
ghost use Rattle.pw_grammar.specs.Declarations as declarations;
ghost use Rattle.pw_grammar.specs.Reading.Declarations as spec;
ghost use Rattle.pw_parse.specs.Steps.Values.{take_number};

use crate::cursor::Cursor;
use pw_grammar::{Sort, SyntaxError};
use pw_tree::{InitItem, InitKind};
use sqlite_items::Items;
use std::alloc::Global;

/// Takes a token, and answers the value of the constant that it is.
pub(crate) fn number(cursor: &mut Cursor<'_>) -> Result<u64, SyntaxError>
    ensures { Reads (take_number cursor.old) result cursor.new }
{
    let (value, _) = cursor.value()?;
    Ok(value)
}

/// A constant's value.
#[tactic(auto, unfolding(pw_grammar::specs::Reading::Declarations::constant_value))]
fn constant_value(cursor: &mut Cursor<'_>) -> Result<u64, SyntaxError>
    ensures { Reads (spec.constant_value cursor.old) result cursor.new }
{
    if cursor.sees(Sort::Number) || cursor.sees(Sort::Character) {
        number(cursor)
    } else {
        Err(cursor.refuse())
    }
}

/// A number's two's complement.
fn negated(value: u64) -> u64
    ensures { result ≡ declarations.negated value }
{
    value.wrapping_neg()
}

/// The identifier of a function.
#[tactic(auto, unfolding(pw_grammar::specs::Reading::Declarations::element_word))]
fn element_word(alloc: Global, cursor: &mut Cursor<'_>) -> Result<InitKind, SyntaxError>
    ensures { Reads (spec.element_word cursor.old) result cursor.new }
{
    let name = cursor.name(alloc)?;
    Ok(InitKind::Word(name))
}

/// A constant.
#[tactic(auto, unfolding(pw_grammar::specs::Reading::Declarations::element_positive))]
fn element_positive(cursor: &mut Cursor<'_>) -> Result<InitKind, SyntaxError>
    ensures { Reads (spec.element_positive cursor.old) result cursor.new }
{
    let value = constant_value(cursor)?;
    Ok(InitKind::Num(value))
}

/// A minus sign and a constant.
#[tactic(auto, unfolding(pw_grammar::specs::Reading::Declarations::element_negative))]
fn element_negative(cursor: &mut Cursor<'_>) -> Result<InitKind, SyntaxError>
    ensures { Reads (spec.element_negative cursor.old) result cursor.new }
{
    cursor.skip()?;
    let value = constant_value(cursor)?;
    Ok(InitKind::Num(negated(value)))
}

/// What an element is.
#[tactic(auto, unfolding(pw_grammar::specs::Reading::Declarations::element_kind))]
fn element_kind(alloc: Global, cursor: &mut Cursor<'_>) -> Result<InitKind, SyntaxError>
    ensures { Reads (spec.element_kind cursor.old) result cursor.new }
{
    if cursor.sees(Sort::Name) {
        element_word(alloc, cursor)
    } else if cursor.sees(Sort::Minus) {
        element_negative(cursor)
    } else {
        element_positive(cursor)
    }
}

/// An element.
#[tactic(auto, unfolding(pw_grammar::specs::Reading::Declarations::initial))]
fn initial(alloc: Global, cursor: &mut Cursor<'_>) -> Result<InitItem, SyntaxError>
    ensures { Reads (spec.initial cursor.old) result cursor.new }
{
    let first = cursor.at();
    let line = cursor.line();
    let kind = element_kind(alloc, cursor)?;
    Ok(InitItem {
        first,
        last: cursor.last(),
        line,
        kind,
    })
}

/// Further elements, each after its comma; after the last, a comma may stand.
fn more_initials(
    alloc: Global,
    cursor: &mut Cursor<'_>,
    iterations: usize,
    mut found: Items<InitItem>,
) -> Result<Items<InitItem>, SyntaxError>
    ensures { Reads (spec.more_initials iterations found cursor.old) result cursor.new }
{
    for _iteration in 0..iterations {
        if !cursor.sees(Sort::Comma) {
            return Ok(found);
        }
        cursor.skip()?;
        if cursor.sees(Sort::RightBrace) {
            return Ok(found);
        }
        found.push(initial(alloc, cursor)?)?;
    }
    Ok(found)
}

/// `= e`, for a variable that is no array.
#[tactic(auto, unfolding(pw_grammar::specs::Reading::Declarations::one_initial))]
fn one_initial(
    alloc: Global,
    cursor: &mut Cursor<'_>,
) -> Result<Option<Items<InitItem>>, SyntaxError>
    ensures { Reads (spec.one_initial cursor.old) result cursor.new }
{
    cursor.skip()?;
    let mut found = Items::new(alloc);
    found.push(initial(alloc, cursor)?)?;
    Ok(Some(found))
}

/// `= { elements }`, for an array.
#[tactic(auto, unfolding(pw_grammar::specs::Reading::Declarations::listed_initials))]
fn listed_initials(
    alloc: Global,
    cursor: &mut Cursor<'_>,
    iterations: usize,
) -> Result<Option<Items<InitItem>>, SyntaxError>
    ensures { Reads (spec.listed_initials iterations cursor.old) result cursor.new }
{
    cursor.skip()?;
    cursor.expect(Sort::LeftBrace)?;
    let mut found = Items::new(alloc);
    found.push(initial(alloc, cursor)?)?;
    let all = more_initials(alloc, cursor, iterations, found)?;
    cursor.expect(Sort::RightBrace)?;
    Ok(Some(all))
}

/// What a variable of this size begins with.
pub(crate) fn initials(
    alloc: Global,
    cursor: &mut Cursor<'_>,
    iterations: usize,
    size: Option<u64>,
) -> Result<Option<Items<InitItem>>, SyntaxError>
    ensures { Reads (spec.initials_by iterations size cursor.old) result cursor.new }
{
    match size {
        None => one_initial(alloc, cursor),
        Some(_) => listed_initials(alloc, cursor, iterations),
    }
}
