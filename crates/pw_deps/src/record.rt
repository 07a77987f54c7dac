//! One record of each kind, at the start of what is left of a table.
ghost use Rattle.std.specs.Prelude.{◌≡◌, ◌+◌, ◌≤◌, length, IfOk};
ghost use Rattle.pw_module.specs.Answer.{ReadsAs};
ghost use Rattle.pw_module.specs.Reading.{remaining, dependency_at, unit_record_at, function_fields, function_record_at, root_record_at, type_record_at};

use crate::check::{bad_in, function_fault, is_symbol};
use crate::field::{Frame, NO_UNIT, number, sized_string};
use crate::repeat::deps;
use crate::type_texts::type_text;
use pw_base::Name;
use pw_module::{DepError, FunRec, RootRec, TypeRec};
use std::alloc::Global;

/// A unit's name.
#[tactic(auto, unfolding(pw_module::specs::Reading::unit_record_at))]
pub(crate) fn unit(
    alloc: Global,
    total: u64,
    index: u32,
    rest: &[u8],
) -> Result<(Name, &[u8]), DepError>
    requires { length rest.now ≤ total }
    ensures value { ReadsAs (λ x. (x.0, remaining 0 x.1.now)) result (unit_record_at total index (remaining 0 rest.now)) }
    ensures shorter { IfOk result (λ x. length x.1.now ≤ length rest.now) }
{
    let (bytes, rest) = sized_string(total, rest)?;
    match Name::from_bytes(alloc, bytes)? {
        Some(name) => Ok((name, rest)),
        None => Err(DepError::BadName(index)),
    }
}

/// One of the symbols on which a function depends.
#[tactic(auto, unfolding(pw_module::specs::Reading::dependency_at))]
pub(crate) fn dep(total: u64, index: u32, rest: &[u8]) -> Result<(u32, &[u8]), DepError>
    requires { length rest.now ≤ total }
    ensures value { ReadsAs (λ x. (x.0, remaining 0 x.1.now)) result (dependency_at total index (remaining 0 rest.now)) }
    ensures shorter { IfOk result (λ x. length x.1.now ≤ length rest.now) }
{
    number(total, rest)
}

/// The fields of a function.
#[tactic(auto, unfolding(pw_module::specs::Reading::function_fields))]
fn fields(alloc: Global, total: u64, rest: &[u8]) -> Result<(FunRec, &[u8]), DepError>
    requires { length rest.now ≤ total }
    ensures value { ReadsAs (λ x. (x.0, x.1.now)) result (function_fields total rest.now) }
    ensures shorter { IfOk result (λ x. length x.1.now ≤ length rest.now) }
{
    let (sym, rest) = number(total, rest)?;
    let (unit, rest) = number(total, rest)?;
    let (start, rest) = number(total, rest)?;
    let (size, rest) = number(total, rest)?;
    let (count, rest) = number(total, rest)?;
    let (deps, rest) = deps(alloc, total, count, rest)?;
    let unit = if unit == NO_UNIT { None } else { Some(unit) };
    Ok((
        FunRec {
            sym,
            unit,
            start,
            size,
            deps,
        },
        rest,
    ))
}

/// A function after one that ends at `former`.
#[tactic(auto, unfolding(pw_module::specs::Reading::function_record_at))]
pub(crate) fn function(
    alloc: Global,
    frame: Frame,
    units: u32,
    index: u32,
    former: u64,
    rest: &[u8],
) -> Result<(FunRec, &[u8]), DepError>
    requires { length rest.now ≤ frame.total }
    ensures value { ReadsAs (λ x. (x.0, remaining (x.0.start + x.0.size) x.1.now)) result (function_record_at frame.symbols frame.text units frame.total index (remaining former rest.now)) }
    ensures shorter { IfOk result (λ x. length x.1.now ≤ length rest.now) }
{
    let (function, rest) = fields(alloc, frame.total, rest)?;
    if let Some(fault) = function_fault(
        frame.symbols,
        frame.text,
        units,
        former,
        index,
        &function,
    ) {
        return Err(fault);
    }
    Ok((function, rest))
}

/// A root.
#[tactic(auto, unfolding(pw_module::specs::Reading::root_record_at))]
pub(crate) fn root(frame: Frame, index: u32, rest: &[u8]) -> Result<(RootRec, &[u8]), DepError>
    requires { length rest.now ≤ frame.total }
    ensures value { ReadsAs (λ x. (x.0, remaining 0 x.1.now)) result (root_record_at frame.symbols frame.total index (remaining 0 rest.now)) }
    ensures shorter { IfOk result (λ x. length x.1.now ≤ length rest.now) }
{
    let (var, rest) = number(frame.total, rest)?;
    let (fun, rest) = number(frame.total, rest)?;
    if let Some(n) = bad_in(frame.symbols, &[var, fun]) {
        return Err(DepError::BadIndex(index, n));
    }
    Ok((RootRec { var, fun }, rest))
}

/// A type after one of the symbol `former`.
#[tactic(auto, unfolding(pw_module::specs::Reading::type_record_at, pw_module::specs::Reading::type_fault))]
pub(crate) fn type_record(
    alloc: Global,
    frame: Frame,
    index: u32,
    former: u32,
    rest: &[u8],
) -> Result<(TypeRec, &[u8]), DepError>
    requires { length rest.now ≤ frame.total }
    ensures value { ReadsAs (λ x. (x.0, remaining x.0.sym x.1.now)) result (type_record_at frame.symbols frame.total index (remaining former rest.now)) }
    ensures shorter { IfOk result (λ x. length x.1.now ≤ length rest.now) }
{
    let (sym, rest) = number(frame.total, rest)?;
    let (bytes, rest) = sized_string(frame.total, rest)?;
    if !is_symbol(frame.symbols, sym) {
        return Err(DepError::BadIndex(index, sym));
    }
    if sym <= former {
        return Err(DepError::BadIndex(index, sym));
    }
    match type_text(alloc, bytes)? {
        Some(text) => Ok((TypeRec { sym, text }, rest)),
        None => Err(DepError::BadType(index)),
    }
}
