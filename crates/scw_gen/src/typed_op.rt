//! The kinds of operators' values, by those of their operands.

ghost use Rattle.std.specs.Prelude.{◌≡◌, ◌∷◌, map};
ghost use Rattle.scw_core.specs.Program.{in_members, text_at};
ghost use Rattle.scw_gen.specs.Around.{around_of};
ghost use Rattle.scw_gen.specs.Outcome.{Gives};
ghost use Rattle.scw_gen.specs.Typed as spec;
ghost use Rattle.scw_gen.specs.declared.kind.Kind.TheVariants as kind;

use crate::around::Around;
use crate::failure::Failure;
use crate::kind::Kind;
use crate::method::is_method;
use crate::name::kind_of_parameter;
use crate::operator::{kind_of_width, member_in};
use crate::typed::{Known, known_in};
use scw_core::{Literal, Logic, Member, Op, Parameter, Primitive, TextId};
use scw_text::SymId;

/// The number of the kind.
fn rank(k: Kind) -> u8
    ensures { result ≡ spec.rank k }
{
    match k {
        Kind::Unit => 0,
        Kind::Boolean => 1,
        Kind::Int => 2,
        Kind::Long => 3,
        Kind::String => 4,
        Kind::Strings => 5,
        Kind::This => 6,
    }
}

pub(crate) fn same_kind(a: Kind, b: Kind) -> bool
    ensures { result ≡ spec.same_kind a b }
{
    rank(a) == rank(b)
}

/// The kind, where the other one is the same.
pub(crate) fn exactly(k: Kind, other: Option<Kind>) -> Option<Kind>
    ensures { result ≡ spec.exactly k other }
{
    match other {
        None => None,
        Some(l) => if same_kind(k, l) { Some(k) } else { None },
    }
}

fn same_kinds(a: &[Kind], b: &[Kind]) -> bool
    ensures { result ≡ spec.same_kinds a.now b.now }
{
    let mut rest = b;
    for k in a {
        match rest {
            [] => return false,
            [l, after @ ..] => {
                if !same_kind(*k, *l) {
                    return false;
                }
                rest = after;
            }
        }
    }
    rest.is_empty()
}

/// The kind of an operator's value, where its operands are of these kinds.
fn taking(wanted: &[Kind], kinds: &[Kind], k: Kind) -> Option<Kind>
    ensures { result ≡ spec.taking wanted.now kinds.now k }
{
    if same_kinds(wanted, kinds) {
        Some(k)
    } else {
        None
    }
}

fn has_text(k: Kind) -> bool
    ensures { result ≡ spec.has_text k }
{
    match k {
        Kind::Unit | Kind::Boolean | Kind::Int | Kind::Long | Kind::String => true,
        Kind::Strings | Kind::This => false,
    }
}

#[tactic(auto, unfolding(scw_core::specs::Program::text_at))]
fn kind_of_text(g: &Around<'_>, t: TextId) -> Option<Kind>
    ensures { result ≡ spec.kind_of_text (text_at (around_of g.now).table t) }
{
    match g.table.texts.as_slice().get(t.0 as usize) {
        None => None,
        Some(_) => Some(Kind::String),
    }
}

fn kind_of_literal(g: &Around<'_>, l: Literal) -> Option<Kind>
    ensures { result ≡ spec.kind_of_literal (around_of g.now) l }
{
    match l {
        Literal::Unit => Some(Kind::Unit),
        Literal::Boolean(_) => Some(Kind::Boolean),
        Literal::Int(_) => Some(Kind::Int),
        Literal::Long(_) => Some(Kind::Long),
        Literal::String(t) => kind_of_text(g, t),
        Literal::Char(_) | Literal::Null => None,
    }
}

/// That of a local that has a value.
fn kind_of_read(known: &[Known], x: SymId) -> Option<Kind>
    ensures { result ≡ spec.kind_of_read (spec.known (map spec.known_of known.now) x) }
{
    match known_in(known, x) {
        None => None,
        Some(y) => if y.is_set { Some(y.kind) } else { None },
    }
}

fn kind_of_set(known: &[Known], x: SymId, kinds: &[Kind]) -> Option<Kind>
    ensures { result ≡ spec.kind_of_set (spec.known (map spec.known_of known.now) x) kinds.now }
{
    match known_in(known, x) {
        None => None,
        Some(y) => taking(&[y.kind], kinds, Kind::Unit),
    }
}

/// The kinds of parameters, none of which is by name.
fn kinds_of_parameters(g: &Around<'_>, parameters: &[Parameter]) -> Result<Vec<Kind>, Failure>
    ensures { Gives (λ v. v.items) result (spec.kinds_of_parameters (around_of g.now) parameters.now) }
{
    let mut kinds = Vec::new(g.alloc);
    for x in parameters {
        match kind_of_parameter(g, *x) {
            None => return Err(Failure::Other),
            Some(k) => kinds.push(k)?,
        }
    }
    Ok(kinds)
}

/// That of an operator whose first operand is the object.
fn taking_this(wanted: &[Kind], kinds: &[Kind], k: Kind) -> Option<Kind>
    ensures { result ≡ spec.taking (kind.This ∷ wanted.now) kinds.now k }
{
    match kinds {
        [] => None,
        [first, rest @ ..] => if same_kind(Kind::This, *first) {
            taking(wanted, rest, k)
        } else {
            None
        },
    }
}

/// The kind, if there is one.
pub(crate) fn there(k: Option<Kind>) -> Result<Kind, Failure>
    ensures { Gives (λ k. k) result k }
{
    match k {
        None => Err(Failure::Other),
        Some(k) => Ok(k),
    }
}

fn kind_of_call_by(g: &Around<'_>, m: &Member, kinds: &[Kind]) -> Result<Kind, Failure>
    ensures { Gives (λ k. k) result (spec.kind_of_call_by (around_of g.now) m.now kinds.now) }
{
    let wanted = kinds_of_parameters(g, m.parameters.as_slice())?;
    match g.kind_at(m.result) {
        None => Err(Failure::Other),
        Some(k) => there(taking_this(&wanted, kinds, k)),
    }
}

fn kind_of_call(g: &Around<'_>, kinds: &[Kind], m: SymId) -> Result<Kind, Failure>
    ensures { Gives (λ k. k) result (spec.kind_of_call (around_of g.now) kinds.now (in_members g.now.class.now.members m)) }
{
    match member_in(g.class.members.as_slice(), m) {
        None => Err(Failure::Other),
        Some(member) => if is_method(member) {
            kind_of_call_by(g, member, kinds)
        } else {
            Err(Failure::Other)
        },
    }
}

fn kind_of_logic(l: Logic, kinds: &[Kind]) -> Option<Kind>
    ensures { result ≡ spec.kind_of_logic l kinds.now }
{
    match l {
        Logic::And | Logic::Or | Logic::Xor => None,
        Logic::Equal | Logic::NotEqual => {
            taking(&[Kind::Boolean, Kind::Boolean], kinds, Kind::Boolean)
        }
    }
}

/// That of the texts of two values, joined.
fn kind_of_joined(kinds: &[Kind]) -> Option<Kind>
    ensures { result ≡ spec.kind_of_joined kinds.now }
{
    match kinds {
        [k, l] => if has_text(*k) && has_text(*l) {
            Some(Kind::String)
        } else {
            None
        },
        _ => None,
    }
}

fn kind_of_primitive(o: Primitive, kinds: &[Kind]) -> Option<Kind>
    ensures { result ≡ spec.kind_of_primitive o kinds.now }
{
    match o {
        Primitive::Arithmetic(w, _) | Primitive::Division(w, _) => {
            let k = kind_of_width(w);
            taking(&[k, k], kinds, k)
        }
        Primitive::Comparison(w, _) => {
            let k = kind_of_width(w);
            taking(&[k, k], kinds, Kind::Boolean)
        }
        Primitive::Logic(l) => kind_of_logic(l, kinds),
        Primitive::Concatenate => kind_of_joined(kinds),
        Primitive::Shift(..) | Primitive::Negate(_) => None,
        Primitive::Complement(_) | Primitive::Convert(..) => None,
        Primitive::Not | Primitive::Equal | Primitive::NotEqual => None,
        Primitive::Same | Primitive::NotSame => None,
        Primitive::StringLength | Primitive::CharAt | Primitive::Substring => None,
        Primitive::IsEmpty | Primitive::CompareTo => None,
    }
}

/// That of an operator without operands.
fn kind_of_leaf(kinds: &[Kind], k: Option<Kind>) -> Option<Kind>
    ensures { result ≡ spec.kind_of_leaf kinds.now k }
{
    match kinds {
        [] => k,
        [_l, ..] => None,
    }
}

/// The kind of an operator's value, where these locals are bound and its operands are of these kinds.
pub(crate) fn kind_of_op(
    g: &Around<'_>,
    known: &[Known],
    op: Op,
    kinds: &[Kind],
) -> Result<Kind, Failure>
    ensures { Gives (λ k. k) result (spec.kind_of_op (around_of g.now) (map spec.known_of known.now) op kinds.now) }
{
    match op {
        Op::Literal(l) => there(kind_of_leaf(kinds, kind_of_literal(g, l))),
        Op::Local(x) => there(kind_of_leaf(kinds, kind_of_read(known, x))),
        Op::SetLocal(x) => there(kind_of_set(known, x, kinds)),
        Op::Call(m) => kind_of_call(g, kinds, m),
        Op::Primitive(o) => there(kind_of_primitive(o, kinds)),
        Op::Run(_) => there(taking(&[Kind::String], kinds, Kind::Unit)),
        Op::Get(_) | Op::Set(_) | Op::LazyGet(_) | Op::Module(_) => Err(Failure::Other),
        Op::New(_) | Op::NewInner(_) | Op::Super(..) | Op::Direct(_) => Err(Failure::Other),
        Op::Static(..) | Op::GetStatic(..) | Op::SetStatic(..) => Err(Failure::Other),
        Op::Force | Op::Throw | Op::Exit(_) => Err(Failure::Other),
        Op::IsA(_) | Op::Cast(_) | Op::Coerce(_) | Op::Box | Op::Unbox(_) => Err(Failure::Other),
        Op::ArrayNew(_) | Op::ArrayGet | Op::ArraySet | Op::ArrayLength => Err(Failure::Other),
        Op::Cell | Op::CellGet | Op::CellSet => Err(Failure::Other),
    }
}
