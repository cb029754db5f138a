//! How a run of a program of one object begins: which programs have a class file that the proofs know about.

ghost use Rattle.std.specs.Prelude.{◌≡◌, map, is_some};
ghost use Rattle.scw_core.specs.Program.{look};
ghost use Rattle.scw_core.specs.ProgramOf.{entry_of, program_of, template_of};
ghost use Rattle.scw_core.specs.TreeOf.{tree_of, trees_view};
ghost use Rattle.scw_back.specs.Back as spec;

use scw_core::symbol::{ANY_REF, ARITHMETIC_EXCEPTION};
use scw_core::{CoreClass, EntryTree, Literal, Op, Program, Template, Tree};
use scw_text::SymId;

/// `()`
fn is_unit_op(op: Op) -> bool
    ensures { result ≡ spec.is_unit_op op }
{
    matches!(op, Op::Literal(Literal::Unit))
}

fn has_none(trees: &[Tree]) -> bool
    ensures { result ≡ spec.has_none (trees_view trees.now) }
{
    match trees {
        [] => true,
        [_t, ..] => false,
    }
}

fn is_unit_tree(tree: &Tree) -> bool
    ensures { result ≡ spec.is_unit_tree (tree_of tree.now) }
{
    match tree {
        Tree::Strict(_, op, operands) => is_unit_op(*op) && has_none(operands.as_slice()),
        Tree::Block(..) | Tree::AndAlso(..) | Tree::OrElse(..) | Tree::If(..) => false,
        Tree::While(..) | Tree::Function(..) | Tree::Thunk(..) | Tree::Match(..) => false,
        Tree::Try(..) | Tree::Label(..) | Tree::Switch(..) => false,
    }
}

/// The operator that gives the object.
fn is_module_of(s: SymId, op: Op) -> bool
    ensures { result ≡ spec.is_module_of s op }
{
    match op {
        Op::Module(o) => o.0 == s.0,
        Op::Literal(_) | Op::Local(_) | Op::SetLocal(_) => false,
        Op::Call(_) | Op::Primitive(_) | Op::Run(_) => false,
        Op::Get(_) | Op::Set(_) | Op::LazyGet(_) => false,
        Op::New(_) | Op::NewInner(_) | Op::Super(..) | Op::Direct(_) => false,
        Op::Static(..) | Op::GetStatic(..) | Op::SetStatic(..) => false,
        Op::Force | Op::Throw | Op::Exit(_) => false,
        Op::IsA(_) | Op::Cast(_) | Op::Coerce(_) | Op::Box | Op::Unbox(_) => false,
        Op::ArrayNew(_) | Op::ArrayGet | Op::ArraySet | Op::ArrayLength => false,
        Op::Cell | Op::CellGet | Op::CellSet => false,
    }
}

fn is_one_unit(trees: &[Tree]) -> bool
    ensures { result ≡ spec.is_one_unit (trees_view trees.now) }
{
    match trees {
        [] => false,
        [t, rest @ ..] => is_unit_tree(t) && has_none(rest),
    }
}

/// The tree gives the object at the top.
fn gives_object(s: SymId, tree: &Tree) -> bool
    ensures { result ≡ spec.gives_object s (tree_of tree.now) }
{
    match tree {
        Tree::Strict(_, op, operands) => is_module_of(s, *op) && is_one_unit(operands.as_slice()),
        Tree::Block(..) | Tree::AndAlso(..) | Tree::OrElse(..) | Tree::If(..) => false,
        Tree::While(..) | Tree::Function(..) | Tree::Thunk(..) | Tree::Match(..) => false,
        Tree::Try(..) | Tree::Label(..) | Tree::Switch(..) => false,
    }
}

/// The object is reached by its own tree.
#[tactic(auto, unfolding(scw_core::specs::Program::look))]
fn is_reached(entries: &[EntryTree], s: SymId) -> bool
    ensures { result ≡ spec.gives_object_if_some s (look (map entry_of entries.now) s) }
{
    for entry in entries {
        if entry.class.0 == s.0 {
            return gives_object(s, &entry.tree);
        }
    }
    false
}

#[tactic(auto, unfolding(scw_core::specs::Program::look))]
fn has_template(templates: &[Template], s: SymId) -> bool
    ensures { result ≡ is_some (look (map template_of templates.now) s) }
{
    for template in templates {
        if template.class.0 == s.0 {
            return true;
        }
    }
    false
}

/// The object is reached by its own tree, its class has a template, and its symbol is neither of two built-in classes
/// that are named in every run.
pub(crate) fn can_begin(program: &Program, class: &CoreClass) -> bool
    ensures { result ≡ spec.can_begin (program_of program.now) class.now }
{
    is_reached(program.entries.as_slice(), class.symbol)
        && has_template(program.templates.as_slice(), class.symbol)
        && class.symbol.0 != ANY_REF.0
        && class.symbol.0 != ARITHMETIC_EXCEPTION.0
}
