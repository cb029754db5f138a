//! The program of a source: SLS 5.4, 9.5.

ghost use Rattle.std.specs.Prelude.{◌≡◌, Some, IfOk, IfSome, IfNone, IsSome, map, option_map, codes};
ghost use Rattle.scw_core.specs.Entry.{main_method};
ghost use Rattle.scw_core.specs.Program as core;
ghost use Rattle.scw_core.specs.ProgramOf.{program_of, table_of, template_of, entry_of};
ghost use Rattle.scw_core.specs.TypesOf.{core_type_of};
ghost use Rattle.scw_core.specs.TreeOf.{tree_of};
ghost use Rattle.scw_reader.specs.Outcome.{Gives};
ghost use Rattle.scw_reader.specs.View.{source_of};
ghost use Rattle.scw_small.specs.Step.{Steps};
ghost use Rattle.scw_small.specs.NameView.{names_of};
ghost use Rattle.scw_small.specs.Whole as spec;
ghost use Rattle.scw_small.specs.Says.{SaysProgram};
ghost use Rattle.scw_small.specs.View.{state_of, made_of};

use crate::method::{Made, add_signatures, nothing_made, unmodified};
use crate::names::Names;
use crate::state::State;
use crate::symbol::{
    ANY_REF_ID, FIRST_OTHER, MAIN_ID, MAIN_OBJECT, MAIN_THIS, first_types, nowhere, text_of,
};
use crate::typed::leaf;
use crate::typing::Typer;
use scw_core::symbol::{ANY, ANY_REF};
use scw_core::{
    ClassKind, CoreClass, CoreType, EntryTree, Head, Literal, Member, NodeInfo, Op, PreludeSymbols,
    Program, SymKind, Table, Template, Tree,
};
use scw_reader::{Failure, Source, TypeName, read_small};
use scw_text::{NoMemory, SymId, Units};
use sqlite_items::Items;
use std::alloc::{AllocError, Global};

/// The binary name of the object's class: JVMS 4.2.1.
const MAIN_CLASS: [u8; 5] = [b'M', b'a', b'i', b'n', b'$'];

/// The name of the object.
const MAIN_NAME: [u8; 4] = [b'M', b'a', b'i', b'n'];

/// A line feed.
const LINE_FEED: [u16; 1] = [10];

fn main_class(alloc: Global, members: Items<Member>) -> Result<CoreClass, AllocError>
    ensures { IfOk result (λ k. k ≡ spec.main_class members) }
{
    let mut parents = Items::new(alloc);
    parents.push(ANY_REF_ID)?;
    let line = [MAIN_OBJECT, ANY_REF, ANY];
    Ok(CoreClass {
        symbol: MAIN_OBJECT,
        name_span: nowhere(),
        binary_name: text_of(alloc, MAIN_CLASS.as_slice())?,
        kind: ClassKind::Object,
        modifiers: unmodified(),
        block: None,
        this: MAIN_THIS,
        type_parameters: Items::new(alloc),
        parameters: Items::new(alloc),
        parents,
        linearisation: Items::from_slice(alloc, line.as_slice())?,
        override_pairs: Items::new(alloc),
        members,
    })
}

fn main_head(alloc: Global) -> Result<Head, AllocError>
    ensures { IfOk result (λ h. h ≡ spec.main_head) }
{
    Ok(Head {
        symbol: MAIN_OBJECT,
        name: text_of(alloc, MAIN_NAME.as_slice())?,
        kind: SymKind::Object,
        owner: None,
        upper: MAIN_ID,
    })
}

/// All of the program but its trees.
fn table(
    alloc: Global,
    members: Items<Member>,
    types: Items<CoreType>,
    texts: Items<Units>,
) -> Result<Table, AllocError>
    ensures { IfOk result (λ t. table_of t ≡ spec.table members (map core_type_of types) texts) }
{
    let mut classes = Items::new(alloc);
    classes.push(main_class(alloc, members)?)?;
    let mut heads = Items::new(alloc);
    heads.push(main_head(alloc)?)?;
    Ok(Table {
        classes,
        heads,
        types,
        texts,
        prelude: PreludeSymbols {
            functions: Items::new(alloc),
            some_value: None,
        },
    })
}

fn templates(alloc: Global) -> Result<Items<Template>, AllocError>
    ensures { IfOk result (λ ts. map template_of ts ≡ spec.templates) }
{
    let mut templates = Items::new(alloc);
    templates.push(Template {
        class: MAIN_OBJECT,
        prefixes: Items::new(alloc),
        arguments: Items::new(alloc),
        statements: Items::new(alloc),
    })?;
    Ok(templates)
}

/// The object, which is made at first use.
fn main_object(alloc: Global) -> Result<Tree, AllocError>
    ensures { IfOk result (λ t. tree_of t ≡ spec.main_object) }
{
    let info = NodeInfo {
        span: nowhere(),
        type_id: MAIN_ID,
    };
    let unit = leaf(alloc, TypeName::Unit, Op::Literal(Literal::Unit));
    let mut operands = Vec::new(alloc);
    operands.push(unit.tree)?;
    Ok(Tree::Strict(info, Op::Module(MAIN_OBJECT), operands))
}

fn entries(alloc: Global) -> Result<Items<EntryTree>, AllocError>
    ensures { IfOk result (λ es. map entry_of es ≡ spec.entries) }
{
    let mut entries = Items::new(alloc);
    entries.push(EntryTree {
        class: MAIN_OBJECT,
        tree: main_object(alloc)?,
    })?;
    Ok(entries)
}

fn program(alloc: Global, made: Made, state: State) -> Result<Program, AllocError>
    ensures { IfOk result (λ p. program_of p ≡ spec.program (made_of made) (state_of state)) }
{
    Ok(Program {
        table: table(alloc, made.members, state.types, state.texts)?,
        bodies: made.bodies,
        templates: templates(alloc)?,
        entries: entries(alloc)?,
        implicits: Items::new(alloc),
    })
}

/// What is known before anything is typed.
fn beginning(alloc: Global) -> Result<State, AllocError>
    ensures { IfOk result (λ s. state_of s ≡ spec.beginning) }
{
    let mut texts = Items::new(alloc);
    texts.push(Items::new(alloc))?;
    texts.push(Items::from_slice(alloc, LINE_FEED.as_slice())?)?;
    Ok(State {
        next: FIRST_OTHER,
        types: first_types(alloc)?,
        texts,
        names: Names::new(alloc),
        scope: Names::new(alloc),
    })
}

/// The members of the object, where these methods can be called.
#[tactic(auto, unfolding(crate::specs::Whole::members))]
fn members(typer: &Typer, state: &mut State, source: &Source, main: SymId) -> Result<Made, Failure>
    ensures { Steps made_of (spec.members (names_of typer.now.methods.now) (source_of source.now) main (state_of state.old)) result (state_of state.new) }
{
    let made = nothing_made(typer.alloc);
    let before = typer.methods(state, made, &source.before)?;
    let with_main = typer.main_method(state, before, &source.main, main)?;
    typer.methods(state, with_main, &source.after)
}

#[tactic(auto, unfolding(crate::specs::Whole::object))]
fn object(alloc: Global, state: &mut State, source: &Source) -> Result<Made, Failure>
    ensures { Steps made_of (spec.object (source_of source.now) (state_of state.old)) result (state_of state.new) }
{
    let mut methods = Names::new(alloc);
    add_signatures(alloc, state, &mut methods, &source.before)?;
    let main = state.fresh()?;
    add_signatures(alloc, state, &mut methods, &source.after)?;
    let typer = Typer {
        alloc,
        methods: &methods,
    };
    members(&typer, state, source, main)
}

#[tactic(auto, unfolding(crate::specs::Whole::typed))]
fn typed_source(alloc: Global, source: &Source) -> Result<Program, Failure>
    ensures { Gives program_of result (spec.typed (source_of source.now)) }
{
    let mut state = beginning(alloc)?;
    let made = object(alloc, &mut state, source)?;
    Ok(program(alloc, made, state)?)
}

/// The core program of a syntax tree, if its names, types and scopes are right.
///
/// # Errors
///
/// `NoMemory` where memory runs out.
pub fn typed_program(alloc: Global, source: &Source) -> Result<Option<Program>, NoMemory>
    ensures typed { IfOk result (λ p. option_map program_of p ≡ spec.typed (source_of source.now)) }

    // The program has a `main` to begin with.
    ensures main { IfOk result (λ p. IfSome p (λ p. IsSome (main_method (table_of p.table) (codes "Main")))) }
{
    match typed_source(alloc, source) {
        Ok(program) => Ok(Some(program)),
        Err(Failure::Other) => Ok(None),
        Err(Failure::NoMemory) => Err(NoMemory),
    }
}

/// The core program of a source of the small language, if the bytes are one.
///
/// # Errors
///
/// `NoMemory` where memory runs out.
pub fn read_program(alloc: Global, bytes: &[u8]) -> Result<Option<Program>, NoMemory>
    ensures ok { IfOk result (λ read. IfSome read (λ p. SaysProgram bytes.now (program_of p))) }
    ensures only { IfOk result (λ read. IfSome read (λ p. (other : core.Program) → SaysProgram bytes.now other → other ≡ program_of p)) }
    ensures none { IfOk result (λ read. IfNone read ((other : core.Program) → SaysProgram bytes.now other → ⊥)) }
    ensures main { IfOk result (λ read. IfSome read (λ p. IsSome (main_method (table_of p.table) (codes "Main")))) }
{
    match read_small(alloc, bytes)? {
        Some(source) => typed_program(alloc, &source),
        None => Ok(None),
    }
}
