//! What instructions name in the pool.

ghost use Rattle.std.specs.Prelude.{◌≡◌, [], OnOk};
ghost use Rattle.scw_core.specs.Program.{text_at};
ghost use Rattle.scw_gen.specs.Around.{around_of};
ghost use Rattle.scw_gen.specs.Named as spec;
ghost use Rattle.scw_gen.specs.Outcome.{Gives};

use crate::around::Around;
use crate::encode::encoded;
use crate::failure::Failure;
use crate::instr::{Constant, Instr};
use crate::name::{built_in_name, method_name, object_init, this_init, units_of_name};
use crate::operator::member_in;
use crate::pool::{
    MethodName, add_class, add_integer, add_long, add_method, add_string, class_index, found,
    integer_index, long_index, method_index, string_index,
};
use scw_classfile::{Pool, PoolEntry};
use scw_code::Instrs;
use scw_core::TextId;
use scw_text::{SymId, Units};
use sqlite_items::Items;
use std::alloc::{AllocError, Global};

/// What an instruction names in the pool.
#[derive(Drop)]
pub enum Named {
    Nothing,
    Integer(u32),
    Long(u64),
    Text(Units),
    Class(Units),
    Method(MethodName),
}

#[tactic(auto, unfolding(scw_core::specs::Program::text_at))]
fn named_text(g: &Around<'_>, t: TextId) -> Result<Named, Failure>
    ensures { Gives (λ n. n) result (spec.named_text (around_of g.now) t) }
{
    match g.table.texts.as_slice().get(t.0 as usize) {
        None => Err(Failure::Other),
        Some(text) => Ok(Named::Text(Units::from_slice(g.alloc, text.as_slice())?)),
    }
}

fn named_constant(g: &Around<'_>, c: Constant) -> Result<Named, Failure>
    ensures { Gives (λ n. n) result (spec.named_constant (around_of g.now) c) }
{
    match c {
        Constant::Int(n) => Ok(Named::Integer(n)),
        Constant::Text(t) => named_text(g, t),
    }
}

fn named_method(g: &Around<'_>, m: SymId) -> Result<Named, Failure>
    ensures { Gives (λ n. n) result (spec.named_method (around_of g.now) m) }
{
    match member_in(g.class.members.as_slice(), m) {
        None => Err(Failure::Other),
        Some(member) => Ok(Named::Method(method_name(g, member)?)),
    }
}

/// What the instruction names in the pool.
fn named_by(g: &Around<'_>, instr: Instr) -> Result<Named, Failure>
    ensures { Gives (λ n. n) result (spec.named_by (around_of g.now) instr) }
{
    match instr {
        Instr::Constant(c) | Instr::WideConstant(c) => named_constant(g, c),
        Instr::LongConstant(n) => Ok(Named::Long(n)),
        Instr::Call(m) => named_method(g, m),
        Instr::CallBuiltIn(m) => Ok(Named::Method(built_in_name(g.alloc, m)?)),
        Instr::InitObject => Ok(Named::Method(object_init(g.alloc)?)),
        Instr::InitThis => Ok(Named::Method(this_init(g)?)),
        Instr::New => Ok(Named::Class(units_of_name(g.alloc, g.class.binary_name.as_slice())?)),
        Instr::Number(_) | Instr::LongBit(_) | Instr::Load(..) | Instr::Store(..) => {
            Ok(Named::Nothing)
        }
        Instr::Arithmetic(..) | Instr::Division(..) | Instr::CompareLongs => Ok(Named::Nothing),
        Instr::Pop | Instr::PopTwo | Instr::Dup | Instr::Branch(..) => Ok(Named::Nothing),
        Instr::Goto(_) | Instr::FarGoto(_) | Instr::Back(_) | Instr::FarBack(_) => Ok(
            Named::Nothing,
        ),
        Instr::Return(_) | Instr::ReturnNothing => Ok(Named::Nothing),
    }
}

/// Where it stands in the pool; what is nothing has the index 0.
fn index_of_named(pool: &[PoolEntry], named: &Named) -> Option<u16>
    ensures { result ≡ spec.index_of_named pool.now named.now }
{
    match named {
        Named::Nothing => Some(0),
        Named::Integer(n) => found(integer_index(pool, *n)),
        Named::Long(n) => found(long_index(pool, *n)),
        Named::Text(text) => found(string_index(pool, text.as_slice())),
        Named::Class(name) => found(class_index(pool, name.as_slice())),
        Named::Method(m) => found(method_index(pool, m)),
    }
}

fn add_named(alloc: Global, pool: &mut Pool, named: &Named) -> Result<(), AllocError>
    ensures { OnOk result (pool.new ≡ spec.with_named pool.old named.now) }
{
    match named {
        Named::Nothing => Ok(()),
        Named::Integer(n) => add_integer(pool, *n),
        Named::Long(n) => add_long(pool, *n),
        Named::Text(text) => add_string(alloc, pool, text.as_slice()),
        Named::Class(name) => add_class(alloc, pool, name.as_slice()),
        Named::Method(m) => add_method(alloc, pool, m),
    }
}

/// The pool with what the instructions name.
#[tactic(auto, unfolding(crate::specs::Named::with_instrs))]
pub(crate) fn with_instrs(g: &Around<'_>, pool: Pool, instrs: &[Instr]) -> Result<Pool, Failure>
    ensures { Gives (λ p. p) result (spec.with_instrs (around_of g.now) pool instrs.now) }
{
    let mut pool = pool;
    for instr in instrs {
        let named = named_by(g, *instr)?;
        add_named(g.alloc, &mut pool, &named)?;
    }
    Ok(pool)
}

/// The instructions with their opcodes and operands.
#[tactic(auto, unfolding(crate::specs::Named::encoded_from))]
pub(crate) fn encoded_all(g: &Around<'_>, instrs: &[Instr]) -> Result<Instrs, Failure>
    ensures { Gives (λ c. c) result (spec.encoded_from (around_of g.now) [] instrs.now) }
{
    let mut code = Items::new(g.alloc);
    for instr in instrs {
        let named = named_by(g, *instr)?;
        match index_of_named(g.pool, &named) {
            None => return Err(Failure::Other),
            Some(index) => code.push(encoded(*instr, index))?,
        }
    }
    Ok(code)
}
