//! Which classes have code: an object at the top, alone in its program, whose methods are well typed.

ghost use Rattle.std.specs.Prelude.{◌≡◌, ◌&&◌, map, option_copied, Option, IfOk};
ghost use Rattle.scw_classfile.specs.Descriptor.{is_array};
ghost use Rattle.scw_core.specs.Entry as entry;
ghost use Rattle.scw_core.specs.Program.{head_of, look};
ghost use Rattle.scw_core.specs.ProgramOf.{program_of, table_of, template_of};
ghost use Rattle.scw_core.specs.TreeOf.{trees_view};
ghost use Rattle.scw_gen.specs.Around.{around_of};
ghost use Rattle.scw_gen.specs.Generate as spec;

use crate::around::Around;
use crate::name::{get_name, units_of_name};
use crate::typed::is_well_typed;
use scw_classfile::{PoolEntry, is_method};
use scw_core::symbol::{ANY, ANY_REF};
use scw_core::{ClassKind, CoreClass, Head, Program, Table, Template, Tree};
use scw_text::SymId;
use std::alloc::{AllocError, Global};

/// Ends the name of the class of an object.
const DOLLAR: u16 = b'$' as u16;

/// Begins the descriptor of an array type (JVMS 4.3.2).
const ARRAY: u16 = b'[' as u16;

/// What code depends on, with near jumps.
pub(crate) fn around<'a>(
    alloc: Global,
    program: &'a Program,
    class: &'a CoreClass,
    pool: &'a [PoolEntry],
) -> Around<'a>
    ensures { around_of result ≡ spec.around (program_of program.now) class.now pool.now }
{
    Around {
        alloc,
        table: &program.table,
        class,
        pool,
        is_far: false,
    }
}

fn is_object_kind(kind: ClassKind) -> bool
    ensures { result ≡ entry.is_object_kind kind }
{
    match kind {
        ClassKind::Class | ClassKind::Trait => false,
        ClassKind::Object => true,
    }
}

#[tactic(auto, unfolding(scw_core::specs::Program::head_of))]
fn head_of(table: &Table, s: SymId) -> Option<&Head>
    ensures { option_copied result ≡ head_of (table_of table.now) s }
{
    table.heads.as_slice().iter().find(|h| h.symbol.0 == s.0)
}

fn is_top_symbol(table: &Table, s: SymId) -> bool
    ensures { result ≡ entry.is_top_head (head_of (table_of table.now) s) }
{
    match head_of(table, s) {
        None => false,
        Some(h) => h.owner.is_none(),
    }
}

/// An object at the top.
fn is_top_object(table: &Table, k: &CoreClass) -> bool
    ensures { result ≡ entry.is_top_object (table_of table.now) k.now }
{
    is_object_kind(k.kind) && k.block.is_none() && is_top_symbol(table, k.symbol)
}

/// A linearisation without classes of the program but the first.
fn is_plain_line(own: SymId, line: &[SymId]) -> bool
    ensures { result ≡ spec.is_plain_line own line.now }
{
    match line {
        [a, b, c] => a.0 == own.0 && b.0 == ANY_REF.0 && c.0 == ANY.0,
        _ => false,
    }
}

/// A template that does nothing.
fn is_empty_template(template: &Template) -> bool
    ensures { result ≡ spec.is_empty_template (template_of template.now).1 }
{
    template.prefixes.as_slice().is_empty()
        && no_trees(template.arguments.as_slice())
        && no_trees(template.statements.as_slice())
}

fn no_trees(trees: &[Tree]) -> bool
    ensures { result ≡ spec.no_trees (trees_view trees.now) }
{
    match trees {
        [] => true,
        [_t, ..] => false,
    }
}

/// No template of the class does anything.
#[tactic(auto, unfolding(scw_core::specs::Program::look))]
fn has_empty_template(templates: &[Template], c: SymId) -> bool
    ensures { result ≡ spec.has_empty_template (look (map template_of templates.now) c) }
{
    for template in templates {
        if template.class.0 == c.0 {
            return is_empty_template(template);
        }
    }
    true
}

/// The program has one class, and nothing overrides in it.
fn is_only(k: &CoreClass, classes: &[CoreClass]) -> bool
    ensures { result ≡ spec.is_only k.now classes.now }
{
    match classes {
        [c] => c.symbol.0 == k.symbol.0 && k.override_pairs.as_slice().is_empty(),
        _ => false,
    }
}

/// The last unit is `$`.
fn ends_in_dollar(units: &[u16]) -> bool
    ensures { result ≡ spec.ends_in_dollar units.now }
{
    match units {
        [] => false,
        [.., last] => *last == DOLLAR,
    }
}

/// The text begins as the descriptor of an array type does (JVMS 4.3.2).
fn is_array(units: &[u16]) -> bool
    ensures { result ≡ is_array units.now }
{
    match units {
        [] => false,
        [first, ..] => *first == ARRAY,
    }
}

/// The name can be that of a class of an object.
fn is_class_name(g: &Around<'_>, own: &[u16]) -> Result<bool, AllocError>
    ensures { IfOk result (λ b. b ≡ spec.is_class_name (around_of g.now) own.now) }
{
    let getter = get_name(g)?;
    Ok(!is_array(own) && is_method(getter.descriptor.as_slice()) && ends_in_dollar(own))
}

/// The class has the name of one, and its methods are well typed.
fn is_fitting(g: &Around<'_>, program: &Program, k: &CoreClass) -> Result<bool, AllocError>
    ensures { IfOk result (λ b. b ≡ spec.is_fitting (around_of g.now) (program_of program.now) k.now) }
{
    let own = units_of_name(g.alloc, k.binary_name.as_slice())?;
    if !is_class_name(g, own.as_slice())? {
        return Ok(false);
    }
    is_well_typed(g, program.bodies.as_slice(), k.members.as_slice())
}

/// The form of the class has code: an object at the top, alone in its program, whose template does nothing.
fn has_form(program: &Program, k: &CoreClass) -> bool
    ensures { result ≡ (entry.is_top_object (program_of program.now).table k.now && spec.is_plain_line k.now.symbol k.now.linearisation && spec.has_empty_template (look (program_of program.now).templates k.now.symbol) && spec.is_only k.now (program_of program.now).table.classes) }
{
    is_top_object(&program.table, k)
        && is_plain_line(k.symbol, k.linearisation.as_slice())
        && has_empty_template(program.templates.as_slice(), k.symbol)
        && is_only(k, program.table.classes.as_slice())
}

/// A class that has code: its form has, and its methods are well typed.
pub(crate) fn is_built(alloc: Global, program: &Program, k: &CoreClass) -> Result<bool, AllocError>
    ensures { IfOk result (λ b. b ≡ spec.is_built (program_of program.now) k.now) }
{
    if !has_form(program, k) {
        return Ok(false);
    }
    is_fitting(&around(alloc, program, k, &[]), program, k)
}
