//! The forms of expressions whose parts are judged (C17, 6.5).
ghost use Rattle.std.specs.Prelude.{◌≡◌, ◌+◌};
ghost use Rattle.pw_tree.specs.TypedExpressions.{typed_expression_form_of};
ghost use Rattle.pw_tree.specs.Held as held;
ghost use Rattle.pw_types.specs.Steps.CheckingExpressions as spec;
ghost use Rattle.pw_types.specs.Steps.ResumingExpressions.{valued, plain_array, Gives};

use crate::expression_node::{fault, finish, node, type_of};
use crate::expression_step::{Array, Head};
use crate::fault::Refusal;
use crate::rule::Rule;
use crate::typed::Typed;
use crate::types::{Operation, binary_type, choice_type, is_number, unary_type};
use pw_base::Limits;
use pw_tree::{Bin, TKind, Ty, Un};
use std::alloc::Global;

/// How many values are counted: one more than may be held. A greater number counts as this.
pub(crate) const CAP: u32 = Limits::HELD_VALUES + 1;

/// So many values and so many more, or one more than the limit where these are more.
pub(crate) fn more(n: u32, values: u32) -> u32
    ensures { result ≡ spec.capped (n + values) }
{
    n.saturating_add(values).min(CAP)
}

/// An expression with no parts.
pub(crate) fn leaf(alloc: Global, head: Head, ty: Ty, kind: TKind) -> Result<Typed, Refusal>
    ensures { Gives (spec.leaf head (typed_expression_form_of kind (spec.mark_under head ty))) result }
{
    finish(head, false, node(alloc, head, ty, kind, 0)?)
}

/// A constant (C17, 6.4.4), and whether it is unsigned.
#[tactic(auto, using(crate::proofs::Trees::constant))]
pub(crate) fn constant(
    alloc: Global,
    head: Head,
    value: u64,
    unsigned: bool,
) -> Result<Typed, Refusal>
    ensures { Gives (spec.constant_value head value unsigned) result }
{
    let ty = if unsigned { Ty::Ulong } else { Ty::Long };
    leaf(alloc, head, ty, TKind::Num(value))
}

/// `__in()`.
#[tactic(auto, using(crate::proofs::Trees::input))]
pub(crate) fn input(alloc: Global, head: Head) -> Result<Typed, Refusal>
    ensures { Gives (spec.input_value head) result }
{
    leaf(alloc, head, Ty::Long, TKind::Input)
}

/// A unary operator and its operand (C17, 6.5.3.3).
#[tactic(auto, using(crate::proofs::Trees::unary))]
pub(crate) fn unary(alloc: Global, head: Head, op: Un, e: Typed) -> Result<Typed, Refusal>
    ensures { Gives (spec.unary_operation_value head op (valued e)) result }
{
    match unary_type(op, type_of(&e)) {
        None => Err(fault(head, Rule::Operands)),
        Some(ty) => {
            let kind = TKind::Unary(op, e.tree);
            finish(head, false, node(alloc, head, ty, kind, e.held)?)
        }
    }
}

/// Whether the left operand is kept while the right one is evaluated.
fn holds_left(op: Bin) -> bool
    ensures { result ≡ held.holds_left op }
{
    match op {
        Bin::AndAnd | Bin::OrOr => false,
        Bin::Mul
        | Bin::Div
        | Bin::Rem
        | Bin::Add
        | Bin::Sub
        | Bin::Shl
        | Bin::Shr
        | Bin::Lt
        | Bin::Gt
        | Bin::Le
        | Bin::Ge
        | Bin::Eq
        | Bin::Ne
        | Bin::And
        | Bin::Xor
        | Bin::Or => true,
    }
}

/// How many values both operands hold.
fn held_both(op: Bin, l: u32, r: u32) -> u32
    ensures { result ≡ spec.capped (held.held_both (held.holds_left op) l r) }
{
    let right = if holds_left(op) { more(1, r) } else { r };
    l.max(right).min(CAP)
}

/// A binary operator and its operands (C17, 6.5.5 to 6.5.14).
#[tactic(auto, using(crate::proofs::Trees::binary))]
pub(crate) fn binary(
    alloc: Global,
    head: Head,
    op: Bin,
    l: Typed,
    r: Typed,
) -> Result<Typed, Refusal>
    ensures { Gives (spec.binary_operation_value head op (valued l) (valued r)) result }
{
    match binary_type(op, type_of(&l), type_of(&r)) {
        None => Err(fault(head, Rule::Operands)),
        Some(Operation { ty, unsigned }) => {
            let held = held_both(op, l.held, r.held);
            let kind = TKind::Binary(op, unsigned, l.tree, r.tree);
            finish(head, false, node(alloc, head, ty, kind, held)?)
        }
    }
}

/// A choice (C17, 6.5.15): its condition and its values.
#[tactic(auto, using(crate::proofs::Trees::choice))]
pub(crate) fn choice(
    alloc: Global,
    head: Head,
    c: Typed,
    a: Typed,
    b: Typed,
) -> Result<Typed, Refusal>
    ensures { Gives (spec.choice_value head (valued c) (valued a) (valued b)) result }
{
    match choice_type(type_of(&a), type_of(&b)) {
        None => Err(fault(head, Rule::Operands)),
        Some(ty) => {
            let held = c.held.max(a.held.max(b.held));
            let kind = TKind::Cond(c.tree, a.tree, b.tree);
            finish(head, false, node(alloc, head, ty, kind, held)?)
        }
    }
}

/// An element of an array (C17, 6.5.2.1), by its index.
#[tactic(auto, using(crate::proofs::Trees::element))]
pub(crate) fn element(alloc: Global, head: Head, a: Array, i: Typed) -> Result<Typed, Refusal>
    ensures { Gives (spec.element_value head (plain_array a) (valued i)) result }
{
    if !is_number(type_of(&i)) {
        return Err(fault(head, Rule::Operands));
    }
    let kind = TKind::Elem(a.reference, a.size, i.tree);
    finish(head, false, node(alloc, head, a.ty, kind, i.held)?)
}

/// `__out(e)`.
#[tactic(auto, using(crate::proofs::Trees::output))]
pub(crate) fn output(alloc: Global, head: Head, e: Typed) -> Result<Typed, Refusal>
    ensures { Gives (spec.output_value head (valued e)) result }
{
    let kind = TKind::Output(e.tree);
    finish(head, false, node(alloc, head, Ty::Void, kind, e.held)?)
}
