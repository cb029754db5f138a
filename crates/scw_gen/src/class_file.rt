//! The class file of a class.

ghost use Rattle.std.specs.Prelude.{◌≡◌, [], map, IfOk, codes};
ghost use Rattle.scw_classfile.specs.ReadClass.{IsWritable};
ghost use Rattle.scw_core.specs.ProgramOf.{program_of};
ghost use Rattle.scw_core.specs.Text.{units_of_name};
ghost use Rattle.scw_gen.specs.Around.{around_of};
ghost use Rattle.scw_gen.specs.Generate as spec;
ghost use Rattle.scw_gen.specs.Method.{method_of_rust};
ghost use Rattle.scw_gen.specs.Outcome.{Gives};
ghost use Rattle.scw_gen.specs.Pool.{class_index, found};

use crate::around::Around;
use crate::built::{around, is_built};
use crate::excess::excess_of;
use crate::failure::Failure;
use crate::fault::{GenFault, Large};
use crate::method::{Method, methods_of};
use crate::name::{units_of, units_of_name};
use crate::named::{encoded_all, with_instrs};
use crate::pool::{add_class, add_utf8, all_fit, class_index, found, utf8_index};
use scw_classfile::{
    AccessFlags, AttrBody, Attribute, ClassFile, Code, MemberInfo, MemberInfos, Pool, PoolEntry,
};
use scw_code::Instrs;
use scw_core::{CoreClass, Program};
use scw_text::Text;
use sqlite_items::Items;
use std::alloc::{AllocError, Global};

/// The pool with the names of the class, of its superclass and of the attribute `Code`.
fn first_pool(g: &Around<'_>) -> Result<Pool, AllocError>
    ensures { IfOk result (λ p. p ≡ spec.first_pool (around_of g.now)) }
{
    let mut pool = Items::new(g.alloc);
    let own = units_of_name(g.alloc, g.class.binary_name.as_slice())?;
    let parent = units_of(g.alloc, b"java/lang/Object")?;
    let code = units_of(g.alloc, b"Code")?;
    add_class(g.alloc, &mut pool, own.as_slice())?;
    add_class(g.alloc, &mut pool, parent.as_slice())?;
    add_utf8(g.alloc, &mut pool, code.as_slice())?;
    Ok(pool)
}

/// The pool with what a method needs.
fn with_method(g: &Around<'_>, pool: Pool, m: &Method) -> Result<Pool, Failure>
    ensures { Gives (λ p. p) result (spec.with_method (around_of g.now) pool (method_of_rust m.now)) }
{
    let mut pool = pool;
    add_utf8(g.alloc, &mut pool, m.name.as_slice())?;
    add_utf8(g.alloc, &mut pool, m.descriptor.as_slice())?;
    with_instrs(g, pool, &m.instrs)
}

/// The pool that methods need.
#[tactic(auto, unfolding(crate::specs::Generate::with_methods))]
fn pool_of(g: &Around<'_>, methods: &[Method]) -> Result<Pool, Failure>
    ensures { Gives (λ p. p) result (spec.with_methods (around_of g.now) (spec.first_pool (around_of g.now)) (map method_of_rust methods.now)) }
{
    let mut pool = first_pool(g)?;
    for m in methods {
        pool = with_method(g, pool, m)?;
    }
    Ok(pool)
}

/// The number, or the largest of 16 bits.
fn short(n: u64) -> u16
    ensures { result ≡ spec.short n }
{
    if n < 65_535 { n as u16 } else { 65_535 }
}

/// The attribute `Code` (JVMS 4.7.3), whose name stands at the index.
fn code_attribute(alloc: Global, name: u16, m: &Method, code: Instrs) -> Attribute
    ensures { result ≡ spec.code_attribute name (method_of_rust m.now) code }
{
    Attribute {
        name,
        body: AttrBody::Code(Code {
            stack: short(m.stack),
            locals: short(m.locals),
            code,
            handlers: Items::new(alloc),
            attributes: Items::new(alloc),
        }),
    }
}

/// The indices of the name and the descriptor of a method, and of the name of its attribute.
#[derive(Clone, Copy, Debug, PartialEq, Eq)]
pub(crate) struct Names {
    pub name: u16,
    pub descriptor: u16,
    pub code: u16,
}

/// The index, where there is one.
fn there(index: Option<u16>) -> Result<u16, Failure>
    ensures { Gives (λ n. n) result index }
{
    match index {
        None => Err(Failure::Other),
        Some(n) => Ok(n),
    }
}

fn names_of(alloc: Global, pool: &[PoolEntry], m: &Method) -> Result<Names, Failure>
    ensures { Gives spec.names_of_rust result (spec.names_of pool.now (method_of_rust m.now)) }
{
    let name = there(found(utf8_index(pool, m.name.as_slice())))?;
    let descriptor = there(found(utf8_index(pool, m.descriptor.as_slice())))?;
    let text = units_of(alloc, b"Code")?;
    let code = there(found(utf8_index(pool, text.as_slice())))?;
    Ok(Names {
        name,
        descriptor,
        code,
    })
}

/// A method whose names stand at these indices.
fn info_with(
    alloc: Global,
    names: Names,
    m: &Method,
    code: Instrs,
) -> Result<MemberInfo, AllocError>
    ensures { IfOk result (λ x. x ≡ spec.info_with (spec.names_of_rust names) (method_of_rust m.now) code) }
{
    let mut attributes = Items::new(alloc);
    attributes.push(code_attribute(alloc, names.code, m, code))?;
    Ok(MemberInfo {
        flags: AccessFlags(m.flags),
        name: names.name,
        descriptor: names.descriptor,
        attributes,
    })
}

/// A method (JVMS 4.6).
fn member_info(g: &Around<'_>, m: &Method) -> Result<MemberInfo, Failure>
    ensures { Gives (λ x. x) result (spec.member_info (around_of g.now) (method_of_rust m.now)) }
{
    let code = encoded_all(g, &m.instrs)?;
    let names = names_of(g.alloc, g.pool, m)?;
    Ok(info_with(g.alloc, names, m, code)?)
}

#[tactic(auto, unfolding(crate::specs::Generate::member_infos))]
fn member_infos(g: &Around<'_>, methods: &[Method]) -> Result<MemberInfos, Failure>
    ensures { Gives (λ xs. xs) result (spec.member_infos (around_of g.now) [] (map method_of_rust methods.now)) }
{
    let mut infos = Items::new(g.alloc);
    for m in methods {
        infos.push(member_info(g, m)?)?;
    }
    Ok(infos)
}

/// The pool and the methods of a class file.
#[derive(Drop)]
struct Made {
    pool: Pool,
    methods: Vec<Method>,
}

/// The pool that the code of the class needs, which doesn't depend on where its entries stand.
fn needed(alloc: Global, program: &Program, class: &CoreClass) -> Result<Pool, Failure>
    ensures { Gives (λ p. p) result (spec.needed (program_of program.now) class.now) }
{
    let g = around(alloc, program, class, &[]);
    let methods = methods_of(&g, program.bodies.as_slice())?;
    pool_of(&g, &methods)
}

/// A method has the name and the descriptor of another one (JVMS 4.6).
fn is_same(m: &Method, n: &Method) -> bool
    ensures { result ≡ spec.is_same (method_of_rust m.now) (method_of_rust n.now) }
{
    m.name.as_slice() == n.name.as_slice() && m.descriptor.as_slice() == n.descriptor.as_slice()
}

#[tactic(auto, unfolding(crate::specs::Generate::is_among))]
fn is_among(m: &Method, methods: &[Method]) -> bool
    ensures { result ≡ spec.is_among (method_of_rust m.now) (map method_of_rust methods.now) }
{
    for n in methods {
        if is_same(m, n) {
            return true;
        }
    }
    false
}

/// No two methods have one name and one descriptor.
#[tactic(auto, unfolding(crate::specs::Generate::are_distinct))]
fn are_distinct(methods: &[Method]) -> bool
    ensures { result ≡ spec.are_distinct (map method_of_rust methods.now) }
{
    let mut rest = methods;
    while let [m, after @ ..] = rest {
        if is_among(m, after) {
            return false;
        }
        rest = after;
    }
    true
}

fn made_with(pool: Pool, methods: Vec<Method>) -> Result<Made, Failure>
    ensures { Gives spec.made_of_rust result (spec.made_with pool (map method_of_rust methods.items)) }
{
    if !are_distinct(&methods) || !all_fit(pool.as_slice()) {
        return Err(Failure::Other);
    }
    Ok(Made { pool, methods })
}

/// The pool and the methods, whose code has the indices of this pool.
fn make(alloc: Global, program: &Program, class: &CoreClass) -> Result<Made, Failure>
    ensures { Gives spec.made_of_rust result (spec.made (program_of program.now) class.now) }
{
    if !is_built(alloc, program, class)? {
        return Err(Failure::Other);
    }
    let pool = needed(alloc, program, class)?;
    let g = around(alloc, program, class, pool.as_slice());
    let methods = methods_of(&g, program.bodies.as_slice())?;
    made_with(pool, methods)
}

/// The class file with these methods (JVMS 4.1), and the indices of the class and of its superclass.
fn file_with(alloc: Global, pool: Pool, methods: MemberInfos, this: u16, parent: u16) -> ClassFile
    ensures { result ≡ spec.file_with pool methods this parent }
{
    ClassFile {
        minor: 0,
        major: 52,
        pool,
        flags: AccessFlags(0x21),
        this,
        parent,
        interfaces: Items::new(alloc),
        fields: Items::new(alloc),
        methods,
        attributes: Items::new(alloc),
    }
}

/// The index of the class itself.
fn own_index(alloc: Global, class: &CoreClass, pool: &[PoolEntry]) -> Result<u16, Failure>
    ensures { Gives (λ n. n) result (found (class_index pool.now (units_of_name class.now.binary_name))) }
{
    let name = units_of_name(alloc, class.binary_name.as_slice())?;
    there(found(class_index(pool, name.as_slice())))
}

/// The index of the superclass.
fn parent_index(alloc: Global, pool: &[PoolEntry]) -> Result<u16, Failure>
    ensures { Gives (λ n. n) result (found (class_index pool.now (codes "java/lang/Object"))) }
{
    let name = units_of(alloc, b"java/lang/Object")?;
    there(found(class_index(pool, name.as_slice())))
}

/// The class file with these methods.
fn file_by(
    alloc: Global,
    class: &CoreClass,
    pool: Pool,
    methods: MemberInfos,
) -> Result<ClassFile, Failure>
    ensures { Gives (λ c. c) result (spec.file_by class.now pool methods) }
{
    let this = own_index(alloc, class, pool.as_slice())?;
    let parent = parent_index(alloc, pool.as_slice())?;
    Ok(file_with(alloc, pool, methods, this, parent))
}

/// The class file of what was made.
fn file(
    alloc: Global,
    program: &Program,
    class: &CoreClass,
    made: Made,
) -> Result<ClassFile, Failure>
    ensures { Gives (λ c. c) result (spec.file (program_of program.now) class.now (spec.made_of_rust made)) }
{
    let Made { pool, methods } = made;
    let infos = member_infos(&around(alloc, program, class, pool.as_slice()), &methods)?;
    file_by(alloc, class, pool, infos)
}

/// The class file of a class, or why there is none, by the definition.
#[tactic(auto, unfolding(crate::specs::Generate::file_of))]
fn answered(alloc: Global, program: &Program, class: &CoreClass) -> Result<ClassFile, GenFault>
    ensures { spec.Answers result (spec.file_of (program_of program.now) class.now) }
{
    let made = make(alloc, program, class)?;
    match excess_of(alloc, made.pool.as_slice(), &made.methods)? {
        Some(excess) => Err(GenFault::TooLarge(Large {
            class: Text::from_slice(alloc, class.binary_name.as_slice())?,
            kind: excess.kind,
            number: excess.number,
        })),
        None => Ok(file(alloc, program, class, made)?),
    }
}

/// The class file of a class of the program. It can be written.
///
/// # Errors
///
/// `TooLarge` where a part of the class doesn't fit a class file, `NotBuilt` where the class or a tree of it is of a form
/// that has no code yet, and `NoMemory` where memory runs out.
pub fn generate(alloc: Global, program: &Program, class: &CoreClass) -> Result<ClassFile, GenFault>
    ensures answer { spec.Answers result (spec.file_of (program_of program.now) class.now) }
    ensures writable { IfOk result (λ file. IsWritable file) }
{
    answered(alloc, program, class)
}
