//! A core program.

ghost use Rattle.std.specs.Prelude.{◌≡◌};

use crate::class::Classes;
use crate::core_type::CoreType;
use crate::tree::Tree;
use scw_text::{Span, SymId, Text, TypeId, Units};
use sqlite_items::Items;

/// What a symbol stands for.
#[derive(Clone, Copy, Debug, PartialEq, Eq)]
pub enum SymKind {
    Class,
    Trait,
    Object,
    Val,
    Var,
    LazyVal,
    Def,
    Param,
    TypeParam,
    TypeMember,
    Alias,
}

/// What types need of a symbol that they name.
#[derive(Drop)]
pub struct Head {
    pub symbol: SymId,
    /// The qualified name of a class, trait or object, and the name alone of any other symbol.
    pub name: Text,
    pub kind: SymKind,
    /// The class or method in which it stands, or none at the top.
    pub owner: Option<SymId>,
    /// The upper bound of a type parameter or type member, and the type of a value.
    pub upper: TypeId,
}

/// The class of functions with so many parameters as its place in the list, and its `apply`.
#[derive(Clone, Copy, Debug, PartialEq, Eq)]
pub struct FunctionClass {
    pub class: SymId,
    pub apply: SymId,
}

/// Symbols of the prelude that the meaning names.
#[derive(Drop)]
pub struct PreludeSymbols {
    /// `Function0`, `Function1` and so on.
    pub functions: Items<FunctionClass>,
    /// The field of `Some`.
    pub some_value: Option<SymId>,
}

/// All of a program but its trees.
#[derive(Drop)]
pub struct Table {
    /// The classes with code. The built-in ones aren't among them.
    pub classes: Classes,
    pub heads: Items<Head>,
    /// The types, which nodes name by their places.
    pub types: Items<CoreType>,
    /// The texts of literals, which nodes name by their places.
    pub texts: Items<Units>,
    pub prelude: PreludeSymbols,
}

/// The body of a member.
#[derive(Drop)]
pub struct Body {
    pub member: SymId,
    pub tree: Tree,
}

/// The instance through which a parent is named that stands in a class.
#[derive(Drop)]
pub struct Prefix {
    pub class: SymId,
    pub tree: Tree,
}

/// What a class does when an object is made (SLS 5.1).
#[derive(Drop)]
pub struct Template {
    pub class: SymId,
    pub prefixes: Items<Prefix>,
    /// The arguments of the superclass's constructor.
    pub arguments: Items<Tree>,
    /// The class's own statements.
    pub statements: Items<Tree>,
}

/// How an object or a class that a run can begin with is reached: the tree gives the object, or a new one.
#[derive(Drop)]
pub struct EntryTree {
    pub class: SymId,
    pub tree: Tree,
}

/// What an implicit argument or a view is.
#[derive(Drop)]
pub struct ImplicitTree {
    pub symbol: SymId,
    pub types: Vec<TypeId>,
    pub arguments: Vec<ImplicitTree>,
}

/// An implicit argument or a view that the source has not written (SLS 7.2, 7.3).
#[derive(Drop)]
pub struct Implicit {
    pub span: Span,
    /// The type that was sought.
    pub type_id: TypeId,
    pub tree: ImplicitTree,
}

/// A core program.
#[derive(Drop)]
pub struct Program {
    pub table: Table,
    pub bodies: Items<Body>,
    pub templates: Items<Template>,
    pub entries: Items<EntryTree>,
    pub implicits: Items<Implicit>,
}

impl Program {
    /// The classes with code, in order.
    pub fn classes(&self) -> &Classes
        ensures { result.now ≡ self.now.table.classes }
    {
        &self.table.classes
    }
}

/// Where a method stands that an object has: the place of the object's class, that of the class that defines the
/// method, and that of the method there.
#[derive(Clone, Copy, Debug, PartialEq, Eq)]
pub struct MethodId {
    pub object: u64,
    pub class: u64,
    pub member: u64,
}
