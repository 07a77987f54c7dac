//! With ample memory each part of a tree is copied, whole.
use pw_base::{Name, TypeText};
use pw_tree::{Ext, Init, InitItem, InitKind, Param, Ref, Sig, TVar, Ty};
use sqlite_items::{Boxed, Items};
use std::alloc::Global;
use std::test::Fail;

/// The name `f`.
fn name(alloc: Global) -> Result<Name, Fail> {
    Ok(Name::read(alloc, b"f")?)
}

/// Whether it is the name `f`.
fn is_name(name: &Name) -> bool {
    name.bytes() == b"f".as_slice()
}

// ---- signatures and names

/// A signature with a pointer among its parameters.
fn signature(alloc: Global) -> Result<Sig, Fail> {
    let params = Items::from_slice(alloc, &[Ty::Long, Ty::Fn(2)])?;
    Ok(Sig {
        result: Ty::Ulong,
        params,
    })
}

/// Whether it is that signature.
fn is_signature(sig: &Sig) -> bool {
    match sig.params.as_slice() {
        [Ty::Long, Ty::Fn(2)] => sig.result == Ty::Ulong,
        _ => false,
    }
}

/// The name `f` with the text of that signature, if it is the text of a type.
fn external(alloc: Global) -> Result<Option<Ext>, Fail> {
    let name = name(alloc)?;
    match TypeText::read(alloc, b"u(l2)")? {
        Some(text) => {
            let text = text.copy(alloc)?;
            Ok(Some(Ext { name, text }))
        }
        None => Ok(None),
    }
}

/// Whether it is that name.
fn is_external(ext: &Ext) -> bool {
    is_name(&ext.name) && ext.text.bytes() == b"u(l2)".as_slice()
}

/// Whether the copy of the name is that name.
fn external_is_copied(alloc: Global) -> Result<bool, Fail> {
    match external(alloc)? {
        Some(ext) => Ok(is_external(&ext.copy(alloc)?)),
        None => Ok(false),
    }
}

#[test]
fn a_signature_and_a_name_of_a_type_are_copied(rt: HostRuntime) -> Result<(), Fail> {
    let copy = signature(rt.alloc())?.copy(rt.alloc())?;
    assert!(rt; is_signature(&copy));
    assert!(rt; external_is_copied(rt.alloc())?);
    Ok(())
}

// ---- parameters

/// A parameter with a name.
fn parameter(alloc: Global) -> Result<Param, Fail> {
    Ok(Param {
        ty: Ty::Fn(2),
        name: Some(name(alloc)?),
        first: 3,
        last: 4,
    })
}

/// Whether it is that parameter.
fn is_parameter(param: &Param) -> bool {
    match &param.name {
        Some(name) => {
            is_name(name) && param.ty == Ty::Fn(2) && param.first == 3 && param.last == 4
        }
        None => false,
    }
}

#[test]
fn a_parameter_is_copied(rt: HostRuntime) -> Result<(), Fail> {
    let copy = parameter(rt.alloc())?.copy(rt.alloc())?;
    assert!(rt; is_parameter(&copy));
    Ok(())
}

// ---- elements of initialisers

/// An element that is the name `f`.
fn element(alloc: Global) -> Result<InitItem, Fail> {
    Ok(InitItem {
        first: 5,
        last: 6,
        line: 2,
        kind: InitKind::Word(name(alloc)?),
    })
}

/// Whether it is that element.
fn is_element(item: &InitItem) -> bool {
    match &item.kind {
        InitKind::Word(name) => {
            is_name(name) && item.first == 5 && item.last == 6 && item.line == 2
        }
        InitKind::Num(_) => false,
    }
}

#[test]
fn an_element_of_an_initialiser_is_copied(rt: HostRuntime) -> Result<(), Fail> {
    let copy = element(rt.alloc())?.copy(rt.alloc())?;
    assert!(rt; is_element(&copy));
    let kind = InitKind::Num(7).copy(rt.alloc())?;
    assert!(rt; matches!(kind, InitKind::Num(7)));
    Ok(())
}

// ---- variables

/// The function `f`, copied with its name.
fn function(alloc: Global) -> Result<Boxed<Init>, Fail> {
    let reference = Boxed::new(alloc, Ref::Global(name(alloc)?))?;
    let element = Boxed::new(alloc, Init::Fun(reference.get().copy(alloc)?))?;
    Ok(Boxed::new(alloc, element.get().copy(alloc)?)?)
}

/// The function `f`, the unit's function 1 and the number 7.
fn elements(alloc: Global) -> Result<Items<Init>, Fail> {
    let function = function(alloc)?;
    let mut elements = Items::new(alloc);
    elements.push(function.into_inner())?;
    elements.push(Init::Fun(Ref::LocalFun(1)))?;
    elements.push(Init::Num(7))?;
    Ok(elements)
}

/// Whether they are these elements.
fn are_elements(elements: &[Init]) -> bool {
    match elements {
        [
            Init::Fun(Ref::Global(name)),
            Init::Fun(Ref::LocalFun(1)),
            Init::Num(7),
        ] => is_name(name),
        _ => false,
    }
}

/// A variable with these elements.
fn variable(alloc: Global) -> Result<Boxed<TVar>, Fail> {
    let name = Name::read(alloc, b"v")?;
    let elements = elements(alloc)?;
    let variable = TVar {
        name,
        global: true,
        ty: Ty::Fn(1),
        count: Some(3),
        init: Some(elements),
    };
    Ok(Boxed::new(alloc, variable)?)
}

/// Whether it is that variable.
fn is_variable(variable: &TVar) -> bool {
    match &variable.init {
        Some(elements) => {
            are_elements(elements.as_slice())
                && variable.name.bytes() == b"v".as_slice()
                && variable.global
                && variable.ty == Ty::Fn(1)
                && variable.count == Some(3)
        }
        None => false,
    }
}

#[test]
fn a_variable_is_copied_with_its_elements(rt: HostRuntime) -> Result<(), Fail> {
    let variable = variable(rt.alloc())?;
    let copy = Boxed::new(rt.alloc(), variable.get().copy(rt.alloc())?)?;
    assert!(rt; is_variable(copy.get()));
    Ok(())
}
