//! The parameters of a function.
ghost use Rattle.std.specs.Prelude.{◌≡◌, [], ◌∷◌};
ghost use Rattle.std.specs.List.{list_all};
ghost use Rattle.pw_grammar.specs.Reading.Steps.{Reads};
ghost use Rattle.pw_grammar.specs.Reading.Declarations as spec;

use crate::cursor::Cursor;
use crate::types::type_name;
use pw_base::Name;
use pw_grammar::{Sort, SyntaxError};
use pw_tree::Param;
use sqlite_items::Items;
use std::alloc::Global;

/// An identifier, or nothing.
#[tactic(auto, unfolding(pw_grammar::specs::Reading::Declarations::maybe_name, pw_grammar::specs::Reading::Statements::some))]
fn maybe_name(alloc: Global, cursor: &mut Cursor<'_>) -> Result<Option<Name>, SyntaxError>
    ensures { Reads (spec.maybe_name cursor.old) result cursor.new }
{
    if !cursor.sees(Sort::Name) {
        return Ok(None);
    }
    let name = cursor.name(alloc)?;
    Ok(Some(name))
}

/// A type, and an identifier or nothing.
#[tactic(auto, unfolding(pw_grammar::specs::Reading::Declarations::parameter))]
fn parameter(alloc: Global, cursor: &mut Cursor<'_>) -> Result<Param, SyntaxError>
    ensures { Reads (spec.parameter cursor.old) result cursor.new }
{
    let first = cursor.at();
    let ty = type_name(cursor)?;
    let name = maybe_name(alloc, cursor)?;
    Ok(Param {
        ty,
        name,
        first,
        last: cursor.last(),
    })
}

/// Further parameters, each after its comma.
fn more_parameters(
    alloc: Global,
    cursor: &mut Cursor<'_>,
    iterations: usize,
    mut found: Items<Param>,
) -> Result<Items<Param>, SyntaxError>
    ensures { Reads (spec.more_parameters iterations found cursor.old) result cursor.new }
{
    for _iteration in 0..iterations {
        if !cursor.sees(Sort::Comma) {
            return Ok(found);
        }
        cursor.skip()?;
        found.push(parameter(alloc, cursor)?)?;
    }
    Ok(found)
}

/// One or more parameters.
#[tactic(auto, unfolding(pw_grammar::specs::Reading::Declarations::some_parameters))]
fn some_parameters(
    alloc: Global,
    cursor: &mut Cursor<'_>,
    iterations: usize,
) -> Result<Items<Param>, SyntaxError>
    ensures { Reads (spec.some_parameters iterations cursor.old) result cursor.new }
{
    let mut found = Items::new(alloc);
    found.push(parameter(alloc, cursor)?)?;
    more_parameters(alloc, cursor, iterations, found)
}

/// `void`, or one or more parameters.
#[tactic(auto, unfolding(pw_grammar::specs::Reading::Declarations::parameters, pw_grammar::specs::Reading::Declarations::given))]
pub(crate) fn parameters(
    alloc: Global,
    cursor: &mut Cursor<'_>,
    iterations: usize,
) -> Result<Items<Param>, SyntaxError>
    ensures { Reads (spec.parameters iterations cursor.old) result cursor.new }
{
    if !cursor.sees(Sort::Void) {
        return some_parameters(alloc, cursor, iterations);
    }
    cursor.skip()?;
    Ok(Items::new(alloc))
}

/// Whether the parameter has a name.
fn is_named(parameter: &Param) -> bool
    ensures { result ≡ spec.is_named parameter.now }
{
    match &parameter.name {
        Some(_) => true,
        None => false,
    }
}

/// Whether each of them has a name.
pub(crate) fn are_named(parameters: &[Param]) -> bool
    ensures { result ≡ list_all spec.is_named parameters.now }
{
    parameters.iter().all(|parameter| is_named(parameter))
}
