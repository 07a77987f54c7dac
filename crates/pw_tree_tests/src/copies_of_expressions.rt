//! A deep expression, untyped and typed, is copied and dropped with the stack that every program has.
use pw_base::NoMemory;
use pw_tree::{Expr, ExprKind, TExpr, TKind, Ty, Un};
use sqlite_items::Boxed;
use std::alloc::Global;
use std::test::Fail;

/// How many prefix operators stand before the number 5: none, one, and as many as a body can hold.
const COUNTS: [u32; 3] = [0, 1, 8190];

/// An expression of this form.
fn expression(kind: ExprKind) -> Expr {
    Expr {
        first: 0,
        last: 0,
        line: 1,
        kind,
    }
}

/// The same, typed.
fn typed_expression(kind: TKind) -> TExpr {
    TExpr {
        ty: Ty::Long,
        line: 1,
        kind,
    }
}

/// `- - .. - 5`, with this many operators.
fn negated(alloc: Global, count: u32) -> Result<Boxed<Expr>, NoMemory> {
    let mut e = Boxed::new(alloc, expression(ExprKind::Num(5, false)))?;
    for _ in 0..count {
        e = Boxed::new(alloc, expression(ExprKind::Unary(Un::Neg, e)))?;
    }
    Ok(e)
}

/// The same, typed.
fn typed_negated(alloc: Global, count: u32) -> Result<Boxed<TExpr>, NoMemory> {
    let mut e = Boxed::new(alloc, typed_expression(TKind::Num(5)))?;
    for _ in 0..count {
        e = Boxed::new(alloc, typed_expression(TKind::Unary(Un::Neg, e)))?;
    }
    Ok(e)
}

/// The number after this many minus signs, if there are as many.
fn operand(kind: &ExprKind, count: u32) -> Option<u64> {
    let mut inner = kind;
    for _ in 0..count {
        match inner {
            ExprKind::Unary(Un::Neg, e) => inner = &e.get().kind,
            _ => return None,
        }
    }
    match inner {
        ExprKind::Num(value, _) => Some(*value),
        _ => None,
    }
}

/// The same, typed.
fn typed_operand(kind: &TKind, count: u32) -> Option<u64> {
    let mut inner = kind;
    for _ in 0..count {
        match inner {
            TKind::Unary(Un::Neg, e) => inner = &e.get().kind,
            _ => return None,
        }
    }
    match inner {
        TKind::Num(value) => Some(*value),
        _ => None,
    }
}

/// The number in a copy of the expression, and in a copy of its form.
fn copied(alloc: Global, count: u32) -> Result<(Option<u64>, Option<u64>), NoMemory> {
    let e = negated(alloc, count)?;
    let copy = Boxed::new(alloc, e.get().copy(alloc)?)?;
    let form = Boxed::new(alloc, e.get().kind.copy(alloc)?)?;
    Ok((operand(&copy.get().kind, count), operand(form.get(), count)))
}

/// The same, typed.
fn typed_copied(alloc: Global, count: u32) -> Result<(Option<u64>, Option<u64>), NoMemory> {
    let e = typed_negated(alloc, count)?;
    let copy = Boxed::new(alloc, e.get().copy(alloc)?)?;
    let form = Boxed::new(alloc, e.get().kind.copy(alloc)?)?;
    Ok((
        typed_operand(&copy.get().kind, count),
        typed_operand(form.get(), count),
    ))
}

#[test]
fn a_deep_expression_is_copied_and_dropped(rt: HostRuntime) -> Result<(), Fail> {
    for count in COUNTS {
        assert_eq!(rt;
            copied(rt.alloc(), count)?,
            (Some(5), Some(5)),
            "{count} operators"
        );
    }
    Ok(())
}

#[test]
fn a_deep_typed_expression_is_copied_and_dropped(rt: HostRuntime) -> Result<(), Fail> {
    for count in COUNTS {
        assert_eq!(rt;
            typed_copied(rt.alloc(), count)?,
            (Some(5), Some(5)),
            "{count} operators"
        );
    }
    Ok(())
}
