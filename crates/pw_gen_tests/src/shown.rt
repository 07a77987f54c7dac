//! The parts of objects as texts.

use pw_code::{FunCode, Item, Object};
use pw_tree::{Ext, Init, Ref, TVar, Ty};
use std::alloc::{AllocError, Global};

/// Bytes as characters.
fn push_bytes(out: &mut String, bytes: &[u8]) -> Result<(), AllocError> {
    for byte in bytes {
        out.push(char::from(*byte))?;
    }
    Ok(())
}

/// A symbol: an external name, or the number of a static definition.
fn push_symbol(alloc: Global, out: &mut String, symbol: &Ref) -> Result<(), AllocError> {
    match symbol {
        Ref::Global(name) => push_bytes(out, name.bytes()),
        Ref::LocalFun(number) => out.push_str(format!(in alloc; "f{number}")?.as_str()),
        Ref::LocalVar(number) => out.push_str(format!(in alloc; "v{number}")?.as_str()),
    }
}

/// An item: an instruction word in hexadecimal, or a register and a symbol.
fn push_item(alloc: Global, out: &mut String, item: &Item) -> Result<(), AllocError> {
    match item {
        Item::Word(word) => out.push_str(format!(in alloc; "{word:08x}")?.as_str()),
        Item::Addr { rd, to } => {
            out.push_str(format!(in alloc; "{rd}=")?.as_str())?;
            push_symbol(alloc, out, to)
        }
    }
}

/// Items, with a blank between any two.
pub(crate) fn items_of(alloc: Global, items: &[Item]) -> Result<String, AllocError> {
    let mut out = String::new(alloc);
    for item in items {
        if !out.is_empty() {
            out.push_str(" ")?;
        }
        push_item(alloc, &mut out, item)?;
    }
    Ok(out)
}

/// Symbols, each after a blank.
fn push_symbols(alloc: Global, out: &mut String, symbols: &[Ref]) -> Result<(), AllocError> {
    for symbol in symbols {
        out.push_str(" ")?;
        push_symbol(alloc, out, symbol)?;
    }
    Ok(())
}

/// What stands before a definition with internal linkage, and before a later part of a list.
fn push_before(out: &mut String, global: bool) -> Result<(), AllocError> {
    if !out.is_empty() {
        out.push_str("; ")?;
    }
    if global {
        return Ok(());
    }
    out.push_str("static ")
}

/// A function: its linkage, its name, its type, its items and its dependencies.
fn push_function(alloc: Global, out: &mut String, f: &FunCode) -> Result<(), AllocError> {
    push_before(out, f.global)?;
    push_bytes(out, f.name.bytes())?;
    out.push_str(" ")?;
    push_bytes(out, f.text.bytes())?;
    out.push_str(": ")?;
    out.push_str(items_of(alloc, f.items.as_slice())?.as_str())?;
    out.push_str(" |")?;
    push_symbols(alloc, out, f.deps.as_slice())
}

/// The functions of an object.
pub(crate) fn functions_of(alloc: Global, object: &Object) -> Result<String, AllocError> {
    let mut out = String::new(alloc);
    for f in object.funs.as_slice() {
        push_function(alloc, &mut out, f)?;
    }
    Ok(out)
}

/// The letter of a type.
fn push_type(alloc: Global, out: &mut String, ty: Ty) -> Result<(), AllocError> {
    match ty {
        Ty::Void => out.push_str("v"),
        Ty::Long => out.push_str("l"),
        Ty::Ulong => out.push_str("u"),
        Ty::Fn(count) => out.push_str(format!(in alloc; "{count}")?.as_str()),
    }
}

/// An element of an initialiser, after a blank.
fn push_element(alloc: Global, out: &mut String, element: &Init) -> Result<(), AllocError> {
    out.push_str(" ")?;
    match element {
        Init::Num(value) => out.push_str(format!(in alloc; "{value}")?.as_str()),
        Init::Fun(f) => push_symbol(alloc, out, f),
    }
}

/// An initialiser, if there is one.
fn push_initialiser(alloc: Global, out: &mut String, x: &TVar) -> Result<(), AllocError> {
    if let Some(elements) = &x.init {
        out.push_str(" =")?;
        for element in elements.as_slice() {
            push_element(alloc, out, element)?;
        }
    }
    Ok(())
}

/// A variable: its linkage, its name, its type, its size and its initialiser.
fn push_variable(alloc: Global, out: &mut String, x: &TVar) -> Result<(), AllocError> {
    push_before(out, x.global)?;
    push_bytes(out, x.name.bytes())?;
    out.push_str(" ")?;
    push_type(alloc, out, x.ty)?;
    if let Some(size) = x.count {
        out.push_str(format!(in alloc; "[{size}]")?.as_str())?;
    }
    push_initialiser(alloc, out, x)
}

/// The variables of an object.
pub(crate) fn variables_of(alloc: Global, object: &Object) -> Result<String, AllocError> {
    let mut out = String::new(alloc);
    for x in object.vars.as_slice() {
        push_variable(alloc, &mut out, x)?;
    }
    Ok(out)
}

/// A name, and the text of its type.
fn push_name(out: &mut String, name: &Ext) -> Result<(), AllocError> {
    push_before(out, true)?;
    push_bytes(out, name.name.bytes())?;
    out.push_str(" ")?;
    push_bytes(out, name.text.bytes())
}

/// The names of an object.
pub(crate) fn names_of(alloc: Global, object: &Object) -> Result<String, AllocError> {
    let mut out = String::new(alloc);
    for name in object.names.as_slice() {
        push_name(&mut out, name)?;
    }
    Ok(out)
}
