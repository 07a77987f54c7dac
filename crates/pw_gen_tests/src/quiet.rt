//! A unit that is made by hand.
ghost use Rattle.std.specs.Prelude.{IfOk};
ghost use Rattle.pw_tree.specs.Units.{unit_of};
ghost use Rattle.pw_tree.specs.WellTypedUnits.{IsWellTyped};

use pw_base::{Name, NoMemory};
use pw_tree::{Sig, TFun, TUnit, Ty};
use sqlite_items::Items;
use std::alloc::Global;

/// A unit of one static function, which does nothing: its name stands in this line.
pub fn quiet_unit(alloc: Global, name: &Name, line: u32) -> Result<TUnit, NoMemory>
    ensures { IfOk result (λ unit. IsWellTyped (unit_of unit)) }
{
    let function = TFun {
        name: name.copy(alloc)?,
        global: false,
        sig: Sig {
            result: Ty::Void,
            params: Items::new(alloc),
        },
        line,
        locals: 0,
        held: 0,
        body: Items::new(alloc),
    };
    let mut funs = Items::new(alloc);
    funs.push(function)?;
    Ok(TUnit {
        funs,
        vars: Items::new(alloc),
        names: Items::new(alloc),
    })
}
