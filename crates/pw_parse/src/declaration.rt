//! Declarations at file level.
ghost use Rattle.std.specs.Prelude.{◌≡◌};
ghost use Rattle.pw_grammar.specs.Reading.Steps.{Reads};
ghost use Rattle.pw_grammar.specs.Reading.Expressions as expressions;
ghost use Rattle.pw_grammar.specs.Reading.Statements as statements;
ghost use Rattle.pw_grammar.specs.Reading.Declarations as spec;
ghost use Rattle.pw_tree.specs.Types as types;

use crate::cursor::Cursor;
use crate::parameter::{are_named, parameters};
use crate::statement::inner_statements;
use crate::types::type_name;
use crate::variable::{is_extern, variable};
use pw_grammar::{Sort, SyntaxError};
use pw_tree::{Decl, DeclKind, Linkage, Param, Ty};
use sqlite_items::Items;
use std::alloc::Global;

/// `extern`, `static` or nothing.
#[tactic(auto, unfolding(pw_grammar::specs::Reading::Declarations::storage, pw_grammar::specs::Reading::Declarations::given))]
fn storage(cursor: &mut Cursor<'_>) -> Result<Linkage, SyntaxError>
    ensures { Reads (spec.storage cursor.old) result cursor.new }
{
    if cursor.sees(Sort::Extern) {
        cursor.skip()?;
        return Ok(Linkage::Extern);
    }
    if cursor.sees(Sort::Static) {
        cursor.skip()?;
        return Ok(Linkage::Static);
    }
    Ok(Linkage::Plain)
}

/// What a function gives: `void`, or a type.
#[tactic(auto, unfolding(pw_grammar::specs::Reading::Declarations::result, pw_grammar::specs::Reading::Declarations::given))]
fn gives(cursor: &mut Cursor<'_>) -> Result<Ty, SyntaxError>
    ensures { Reads (spec.result cursor.old) result cursor.new }
{
    if !cursor.sees(Sort::Void) {
        return type_name(cursor);
    }
    cursor.skip()?;
    Ok(Ty::Void)
}

/// Whether a function of this storage class and these parameters may have a body.
#[tactic(auto, unfolding(pw_grammar::specs::Reading::Declarations::may_define))]
fn may_define(linkage: Linkage, parameters: &[Param]) -> bool
    ensures { result ≡ spec.may_define linkage parameters.now }
{
    !is_extern(linkage) && are_named(parameters)
}

/// `;` after a function's declarator.
#[tactic(auto, unfolding(pw_grammar::specs::Reading::Declarations::prototype))]
fn prototype(
    cursor: &mut Cursor<'_>,
    ty: Ty,
    parameters: Items<Param>,
) -> Result<DeclKind, SyntaxError>
    ensures { Reads (spec.prototype ty parameters cursor.old) result cursor.new }
{
    cursor.expect(Sort::Semicolon)?;
    Ok(DeclKind::Proto(ty, parameters))
}

/// A function's body after its declarator.
#[tactic(auto, unfolding(pw_grammar::specs::Reading::Declarations::body))]
fn body(
    alloc: Global,
    cursor: &mut Cursor<'_>,
    depth: usize,
    ty: Ty,
    parameters: Items<Param>,
) -> Result<DeclKind, SyntaxError>
    ensures { Reads (spec.body (expressions.expression depth) (statements.statement depth) depth ty parameters cursor.old) result cursor.new }
{
    cursor.expect(Sort::LeftBrace)?;
    let body = inner_statements(alloc, cursor, depth)?;
    cursor.expect(Sort::RightBrace)?;
    Ok(DeclKind::Fun(ty, parameters, body))
}

/// A function from after its declarator on.
#[tactic(auto, unfolding(pw_grammar::specs::Reading::Declarations::function_end))]
fn function_end(
    alloc: Global,
    cursor: &mut Cursor<'_>,
    depth: usize,
    linkage: Linkage,
    ty: Ty,
    parameters: Items<Param>,
) -> Result<DeclKind, SyntaxError>
    ensures { Reads (spec.function_end (expressions.expression depth) (statements.statement depth) depth linkage ty parameters cursor.old) result cursor.new }
{
    if cursor.sees(Sort::Semicolon) || !may_define(linkage, parameters.as_slice()) {
        prototype(cursor, ty, parameters)
    } else {
        body(alloc, cursor, depth, ty, parameters)
    }
}

/// A function from after its name on: its declarator's last token, and what it is.
#[tactic(auto, unfolding(pw_grammar::specs::Reading::Declarations::function))]
fn function(
    alloc: Global,
    cursor: &mut Cursor<'_>,
    depth: usize,
    linkage: Linkage,
    ty: Ty,
) -> Result<(u32, DeclKind), SyntaxError>
    ensures { Reads (spec.function (expressions.expression depth) (statements.statement depth) depth linkage ty cursor.old) result cursor.new }
{
    cursor.skip()?;
    let parameters = parameters(alloc, cursor, depth)?;
    let declarator = cursor.at();
    cursor.expect(Sort::RightParen)?;
    let kind = function_end(alloc, cursor, depth, linkage, ty, parameters)?;
    Ok((declarator, kind))
}

/// Whether it is `void`.
fn is_void(ty: Ty) -> bool
    ensures { result ≡ types.is_void ty }
{
    match ty {
        Ty::Void => true,
        Ty::Long | Ty::Ulong | Ty::Fn(_) => false,
    }
}

/// What stands after the name: its declarator's last token, and what is declared.
#[tactic(auto, unfolding(pw_grammar::specs::Reading::Declarations::declarator))]
fn declarator(
    alloc: Global,
    cursor: &mut Cursor<'_>,
    depth: usize,
    linkage: Linkage,
    ty: Ty,
) -> Result<(u32, DeclKind), SyntaxError>
    ensures { Reads (spec.declarator (expressions.expression depth) (statements.statement depth) depth linkage ty cursor.old) result cursor.new }
{
    if cursor.sees(Sort::LeftParen) {
        function(alloc, cursor, depth, linkage, ty)
    } else if is_void(ty) {
        Err(cursor.refuse())
    } else {
        variable(alloc, cursor, depth, linkage, ty)
    }
}

/// A declaration.
#[tactic(auto, unfolding(pw_grammar::specs::Reading::Declarations::declaration))]
pub(crate) fn declaration(
    alloc: Global,
    cursor: &mut Cursor<'_>,
    depth: usize,
) -> Result<Decl, SyntaxError>
    ensures { Reads (spec.declaration (expressions.expression depth) (statements.statement depth) depth cursor.old) result cursor.new }
{
    let first = cursor.at();
    let linkage = storage(cursor)?;
    let ty = gives(cursor)?;
    let name_at = cursor.at();
    let line = cursor.line();
    let name = cursor.name(alloc)?;
    let (declarator, kind) = declarator(alloc, cursor, depth, linkage, ty)?;
    Ok(Decl {
        first,
        name_at,
        declarator,
        last: cursor.last(),
        line,
        linkage,
        name,
        kind,
    })
}
