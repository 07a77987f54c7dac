//! Parts of code put after others: instructions and addresses.
ghost use Rattle.std.specs.Prelude.{◌≡◌, ◌<◌, [], ◌∷◌, ◌++◌, map, All, OnOk, OnErr};
ghost use Rattle.pw_isa.specs.Encoding.{IsEncodable};
ghost use Rattle.pw_code.specs.Items.{instruction, address};
ghost use Rattle.pw_genexpr.specs.Appends.{Appends};

use pw_base::NoMemory;
use pw_code::Item;
use pw_isa::{Inst, encode};
use pw_tree::Ref;

/// Appends an item.
fn put_item(item: Item, to: &mut Vec<Item>) -> Result<(), NoMemory>
    ensures ok { OnOk result (to.new.items ≡ to.old.items ++ item ∷ []) }
    ensures err { OnErr result (to.new.items ≡ to.old.items) }
{
    to.push(item).map_err(|_| NoMemory)
}

/// Appends an instruction.
pub fn put_instruction(inst: &Inst, to: &mut Vec<Item>) -> Result<(), NoMemory>
    requires { IsEncodable inst.now }
    ensures { Appends (instruction inst.now ∷ []) to.old.items to.new.items result }
{
    put_item(Item::Word(encode(inst)), to)
}

/// Appends these instructions.
pub fn put_instructions(insts: &[Inst], to: &mut Vec<Item>) -> Result<(), NoMemory>
    requires { All IsEncodable insts.now }
    ensures { Appends (map instruction insts.now) to.old.items to.new.items result }
{
    for inst in insts {
        put_item(Item::Word(encode(inst)), to)?;
    }
    Ok(())
}

/// Appends the pair of instructions that puts the address of a function or a variable into a register.
pub fn put_address(rd: u8, symbol: &Ref, to: &mut Vec<Item>) -> Result<(), NoMemory>
    requires { rd < 32 }
    ensures { Appends (address rd symbol.now ∷ []) to.old.items to.new.items result }
{
    let symbol = symbol.copy(*to.allocator())?;
    put_item(Item::Addr { rd, to: symbol }, to)
}
