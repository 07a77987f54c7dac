//! The code of the expression that a unit evaluates first.
ghost use Rattle.pw_tree.specs.Units.{unit_of};
ghost use Rattle.pw_tree.specs.WellTypedUnits.{IsWellTyped};

use pw_base::NoMemory;
use pw_code::{Frame, Item};
use pw_genexpr::emit_expr;
use pw_tree::{TStmt, TUnit};
use std::alloc::Global;

/// The items of the expression that is a unit's first function's first statement; none where it has no such.
pub fn first_code(alloc: Global, unit: &TUnit) -> Result<Vec<Item>, NoMemory>
    requires { IsWellTyped (unit_of unit.now) }
{
    let mut items = Vec::new(alloc);
    if let Some(function) = unit.funs.get(0) {
        if let Some(TStmt::Eval(e)) = function.body.get(0) {
            let frame = Frame {
                locals: function.locals,
                held: function.held,
            };
            emit_expr(e, &frame, 0, &mut items)?;
        }
    }
    Ok(items)
}
