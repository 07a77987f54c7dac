//! The typed unit of a text or its first type fault, in words.
use pw_grammar::{tokens_are_small, trees_are_read};
use pw_lex::tokens;
use pw_parse::parse;
use pw_tree::{Ext, TFun, TUnit, TVar};
use pw_types::{TypeError, check};
use std::alloc::{AllocError, Global};
use std::process::Abort;
use std::test::Fail;

/// The typed unit of a text that is a unit, or its first type fault.
pub(crate) fn typed(
    rt: &impl Abort,
    alloc: Global,
    text: &str,
) -> Result<Result<TUnit, TypeError>, Fail> {
    assert!(rt; text.len() < 10_000);
    let tokens = tokens(alloc, text.as_bytes())?;
    assert!(rt; tokens.len() < 10_000);
    let unit = parse(alloc, tokens.as_slice())?;
    tokens_are_small();
    trees_are_read();
    Ok(check(alloc, &unit))
}

/// The characters of these bytes join a text.
pub(crate) fn push_bytes(out: &mut String, bytes: &[u8]) -> Result<(), AllocError> {
    for byte in bytes {
        out.push(char::from(*byte))?;
    }
    Ok(())
}

/// The linkage in a word.
fn linkage(is_external: bool) -> &'static str {
    if is_external { "external" } else { "internal" }
}

/// A function's definition.
fn push_function(alloc: Global, out: &mut String, f: &TFun) -> Result<(), AllocError> {
    out.push_str("fun ")?;
    push_bytes(out, f.name.bytes())?;
    let (linkage, line, locals, held) = (linkage(f.global), f.line, f.locals, f.held);
    let rest = format!(in alloc; " {linkage} line {line} locals {locals} held {held};")?;
    out.push_str(rest.as_str())
}

/// A variable's definition; 0 is the size of what is no array.
fn push_variable(alloc: Global, out: &mut String, v: &TVar) -> Result<(), AllocError> {
    out.push_str("var ")?;
    push_bytes(out, v.name.bytes())?;
    let size = v.count.unwrap_or(0);
    let values = match &v.init {
        Some(values) => values.len(),
        None => 0,
    };
    let linkage = linkage(v.global);
    let rest = format!(in alloc; " {linkage} size {size} values {values};")?;
    out.push_str(rest.as_str())
}

/// An external name and its type.
fn push_name(out: &mut String, name: &Ext) -> Result<(), AllocError> {
    out.push_str("name ")?;
    push_bytes(out, name.name.bytes())?;
    out.push_str(" ")?;
    push_bytes(out, name.text.bytes())?;
    out.push_str(";")
}

/// The functions of a unit.
fn push_functions(alloc: Global, out: &mut String, unit: &TUnit) -> Result<(), AllocError> {
    for f in unit.funs.as_slice() {
        push_function(alloc, out, f)?;
    }
    Ok(())
}

/// The variables of a unit.
fn push_variables(alloc: Global, out: &mut String, unit: &TUnit) -> Result<(), AllocError> {
    for v in unit.vars.as_slice() {
        push_variable(alloc, out, v)?;
    }
    Ok(())
}

/// The names of a unit.
fn push_names(out: &mut String, unit: &TUnit) -> Result<(), AllocError> {
    for name in unit.names.as_slice() {
        push_name(out, name)?;
    }
    Ok(())
}

/// A unit's functions, variables and names.
fn unit_judged(alloc: Global, unit: &TUnit) -> Result<String, AllocError> {
    let mut out = String::new(alloc);
    push_functions(alloc, &mut out, unit)?;
    push_variables(alloc, &mut out, unit)?;
    push_names(&mut out, unit)?;
    Ok(out)
}

/// A type fault, with the name that it is about.
fn fault_judged(alloc: Global, fault: &TypeError) -> Result<String, AllocError> {
    match fault {
        TypeError::Broken { rule, at, name } => {
            let (line, token) = (at.line, at.token);
            let mut out = format!(in alloc; "{rule} at line {line} token {token}")?;
            if let Some(name) = name {
                out.push_str(" of ")?;
                push_bytes(&mut out, name.bytes())?;
            }
            Ok(out)
        }
        TypeError::NoMemory => format!(in alloc; "out of memory"),
    }
}

/// A text's first type fault, or what its typed unit has.
pub(crate) fn answer(rt: &impl Abort, alloc: Global, text: &str) -> Result<String, Fail> {
    match typed(rt, alloc, text)? {
        Ok(unit) => Ok(unit_judged(alloc, &unit)?),
        Err(fault) => Ok(fault_judged(alloc, &fault)?),
    }
}

/// A text, and its answer in words.
pub(crate) type Row = (&'static str, &'static str);

/// Each text has the answer that stands beside it.
pub(crate) fn agree(rt: &impl Abort, alloc: Global, rows: &[Row]) -> Result<(), Fail> {
    for (text, expected) in rows {
        assert_eq!(rt; answer(rt, alloc, text)?.as_str(), *expected, "in {text:?}");
    }
    Ok(())
}
