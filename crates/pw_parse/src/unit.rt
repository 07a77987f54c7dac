//! Units: declarations up to the end of the list.
ghost use Rattle.pw_grammar.specs.Reading.Steps.{Reads};
ghost use Rattle.std.specs.Prelude.{[]};
ghost use Rattle.pw_grammar.specs.Reading.Expressions as expressions;
ghost use Rattle.pw_grammar.specs.Reading.Statements as statements;
ghost use Rattle.pw_grammar.specs.Reading.Declarations as spec;

use crate::cursor::Cursor;
use crate::declaration::declaration;
use pw_grammar::{Sort, SyntaxError};
use pw_tree::Decl;
use sqlite_items::Items;
use std::alloc::Global;

/// The declarations that stand before the end.
fn declarations(
    alloc: Global,
    cursor: &mut Cursor<'_>,
    depth: usize,
) -> Result<Items<Decl>, SyntaxError>
    ensures { Reads (spec.declarations (spec.declaration (expressions.expression depth) (statements.statement depth) depth) depth [] cursor.old) result cursor.new }
{
    let mut found = Items::new(alloc);
    for _iteration in 0..depth {
        if cursor.sees(Sort::End) {
            return Ok(found);
        }
        found.push(declaration(alloc, cursor, depth)?)?;
    }
    Ok(found)
}

/// The declarations of a whole list of fewer tokens than `depth`.
#[tactic(auto, unfolding(pw_grammar::specs::Reading::Declarations::unit, pw_grammar::specs::Reading::Declarations::all_declarations))]
pub(crate) fn unit(
    alloc: Global,
    cursor: &mut Cursor<'_>,
    depth: usize,
) -> Result<Items<Decl>, SyntaxError>
    ensures { Reads (spec.unit depth cursor.old) result cursor.new }
{
    let found = declarations(alloc, cursor, depth)?;
    if cursor.sees(Sort::End) {
        Ok(found)
    } else {
        Err(cursor.refuse())
    }
}
