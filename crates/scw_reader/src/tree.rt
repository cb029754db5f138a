//! The syntax tree of a source.

use scw_text::Bytes;

/// A type that is written: SLS 3.2.
#[derive(Clone, Copy, Debug, PartialEq, Eq)]
pub enum TypeName {
    /// `Unit`
    Unit,
    /// `Boolean`
    Boolean,
    /// `Int`
    Int,
    /// `Long`
    Long,
    /// `String`
    String,
}

/// An operator that stands between two operands and makes no chains: SLS 6.12.3.
#[derive(Clone, Copy, Debug, PartialEq, Eq)]
pub enum Operator {
    /// `-`
    Subtract,
    /// `/`
    Divide,
    /// `%`
    Remainder,
    /// `<`
    Less,
    /// `<=`
    LessOrEqual,
    /// `>`
    Greater,
    /// `>=`
    GreaterOrEqual,
    /// `==`
    Equal,
    /// `!=`
    Unequal,
    /// `&&`
    And,
    /// `||`
    Or,
}

/// An expression: SLS 6.
#[cycle(tree)]
#[derive(Drop)]
pub enum Expression {
    /// `p + q + ..`, or one product alone.
    Sum(Product, Vec<Product>),
    /// `a op b`
    Operation(Operator, Atom, Atom),
    /// `if (c) a else b`
    If(Box<Expression>, Box<Expression>, Box<Expression>),
    /// `while (c) a`
    While(Box<Expression>, Box<Expression>),
    /// `{ s; t; .. e }`
    Block(Vec<Statement>, Box<Expression>),
    /// `x = e`
    Assign(Bytes, Box<Expression>),
}

/// `a * b * ..`, or one atom alone.
#[cycle(tree)]
#[derive(Drop)]
pub struct Product {
    /// The first atom.
    pub first: Atom,
    /// The others, which follow a `*` each.
    pub more: Vec<Atom>,
}

/// An expression that can be an operand: SLS 6.3 to 6.6.
#[cycle(tree)]
#[derive(Drop)]
pub enum Atom {
    /// `7`
    Int(u32),
    /// `7L`
    Long(u64),
    /// `true` or `false`.
    Truth(bool),
    /// `"text"`, by its characters.
    Text(Bytes),
    /// `x`
    Name(Bytes),
    /// `m(e, f, ..)`
    Call(Bytes, Vec<Expression>),
    /// `println(e)`
    Print(Box<Expression>),
    /// `(e)`
    Paren(Box<Expression>),
}

/// What stands in a block before its last expression: SLS 6.11.
#[cycle(tree)]
#[derive(Drop)]
pub enum Statement {
    /// `val x: T = e`
    Val(Bytes, TypeName, Expression),
    /// `var x: T = e`
    Var(Bytes, TypeName, Expression),
    /// `e`
    Plain(Expression),
}

/// `x: T`
#[derive(Drop)]
pub struct Parameter {
    /// The name.
    pub name: Bytes,
    /// The type that is written behind it.
    pub kind: TypeName,
}

/// `def m(x: T, ..): U = e`: SLS 4.6.
#[derive(Drop)]
pub struct Method {
    /// The name, which is not `main`.
    pub name: Bytes,
    /// The parameters in their order.
    pub parameters: Vec<Parameter>,
    /// The type of the result.
    pub result: TypeName,
    /// The expression that gives the result.
    pub body: Expression,
}

/// `object Main { .. }`, with `main` and the other methods.
#[derive(Drop)]
pub struct Source {
    /// The methods before `main`.
    pub before: Vec<Method>,
    /// The body of `def main(args: Array[String]): Unit`.
    pub main: Expression,
    /// The methods behind `main`.
    pub after: Vec<Method>,
}
