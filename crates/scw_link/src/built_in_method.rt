//! The methods of the machine's own classes.

ghost use Rattle.std.specs.Prelude.{◌≡◌};
ghost use Rattle.scw_link.specs.BuiltInMethods.{agree, built_in_method, is_method, is_owner, owner_is_static};
ghost use Rattle.scw_link.specs.MethodNames.{box_descriptor, descriptor_of, name_of, owner_of, unbox_descriptor};

use crate::names::same;
use scw_frame::{BuiltIn, Primitive};

/// Which classes declare a method.
#[derive(Clone, Copy)]
pub enum Owner {
    Object,
    String,
    /// The functions of the run time, which are static.
    Run,
    Throwable,
    /// `Throwable` and each exception class.
    AnyThrowable,
}

/// The methods of the machine's own.
pub const METHODS: [BuiltIn; 24] = [
    BuiltIn::ObjectInit,
    BuiltIn::Equals,
    BuiltIn::ToString,
    BuiltIn::StringLength,
    BuiltIn::StringCharAt,
    BuiltIn::Substring,
    BuiltIn::StringIsEmpty,
    BuiltIn::CompareTo,
    BuiltIn::ThrowableInit,
    BuiltIn::ThrowableInitMessage,
    BuiltIn::GetMessage,
    BuiltIn::ThrowableToString,
    BuiltIn::Print,
    BuiltIn::Concat,
    BuiltIn::Unit,
    BuiltIn::Box(Primitive::Boolean),
    BuiltIn::Box(Primitive::Char),
    BuiltIn::Box(Primitive::Int),
    BuiltIn::Box(Primitive::Long),
    BuiltIn::Unbox(Primitive::Boolean),
    BuiltIn::Unbox(Primitive::Char),
    BuiltIn::Unbox(Primitive::Int),
    BuiltIn::Unbox(Primitive::Long),
    BuiltIn::Same,
];

fn owner_of(method: BuiltIn) -> Owner
    ensures { result ≡ owner_of method }
{
    match method {
        BuiltIn::ObjectInit | BuiltIn::Equals | BuiltIn::ToString => Owner::Object,
        BuiltIn::StringLength
        | BuiltIn::StringCharAt
        | BuiltIn::Substring
        | BuiltIn::StringIsEmpty
        | BuiltIn::CompareTo => Owner::String,
        BuiltIn::ThrowableInit | BuiltIn::ThrowableInitMessage => Owner::AnyThrowable,
        BuiltIn::GetMessage | BuiltIn::ThrowableToString => Owner::Throwable,
        BuiltIn::Print
        | BuiltIn::Concat
        | BuiltIn::Unit
        | BuiltIn::Box(_)
        | BuiltIn::Unbox(_)
        | BuiltIn::Same => Owner::Run,
    }
}

fn name_of(method: BuiltIn) -> &'static [u8]
    ensures { result.now ≡ name_of method }
{
    match method {
        BuiltIn::ObjectInit | BuiltIn::ThrowableInit | BuiltIn::ThrowableInitMessage => b"<init>",
        BuiltIn::Equals => b"equals",
        BuiltIn::ToString | BuiltIn::ThrowableToString => b"toString",
        BuiltIn::StringLength => b"length",
        BuiltIn::StringCharAt => b"charAt",
        BuiltIn::Substring => b"substring",
        BuiltIn::StringIsEmpty => b"isEmpty",
        BuiltIn::CompareTo => b"compareTo",
        BuiltIn::GetMessage => b"getMessage",
        BuiltIn::Print => b"print",
        BuiltIn::Concat => b"concat",
        BuiltIn::Unit => b"unit",
        BuiltIn::Box(_) => b"box",
        BuiltIn::Unbox(_) => b"unbox",
        BuiltIn::Same => b"same",
    }
}

fn box_descriptor(primitive: Primitive) -> &'static [u8]
    ensures { result.now ≡ box_descriptor primitive }
{
    match primitive {
        Primitive::Boolean => b"(Z)Ljava/lang/Boolean;",
        Primitive::Char => b"(C)Ljava/lang/Character;",
        Primitive::Int => b"(I)Ljava/lang/Integer;",
        Primitive::Long => b"(J)Ljava/lang/Long;",
    }
}

fn unbox_descriptor(primitive: Primitive) -> &'static [u8]
    ensures { result.now ≡ unbox_descriptor primitive }
{
    match primitive {
        Primitive::Boolean => b"(Ljava/lang/Object;)Z",
        Primitive::Char => b"(Ljava/lang/Object;)C",
        Primitive::Int => b"(Ljava/lang/Object;)I",
        Primitive::Long => b"(Ljava/lang/Object;)J",
    }
}

fn descriptor_of(method: BuiltIn) -> &'static [u8]
    ensures { result.now ≡ descriptor_of method }
{
    match method {
        BuiltIn::ObjectInit | BuiltIn::ThrowableInit => b"()V",
        BuiltIn::Equals => b"(Ljava/lang/Object;)Z",
        BuiltIn::ToString | BuiltIn::GetMessage | BuiltIn::ThrowableToString =>
            b"()Ljava/lang/String;",
        BuiltIn::StringLength => b"()I",
        BuiltIn::StringCharAt => b"(I)C",
        BuiltIn::Substring => b"(II)Ljava/lang/String;",
        BuiltIn::StringIsEmpty => b"()Z",
        BuiltIn::CompareTo => b"(Ljava/lang/String;)I",
        BuiltIn::ThrowableInitMessage | BuiltIn::Print => b"(Ljava/lang/String;)V",
        BuiltIn::Concat => b"(Ljava/lang/String;Ljava/lang/String;)Ljava/lang/String;",
        BuiltIn::Unit => b"()Lscalaw/rt/Unit;",
        BuiltIn::Same => b"(Ljava/lang/Object;Ljava/lang/Object;)I",
        BuiltIn::Box(primitive) => box_descriptor(primitive),
        BuiltIn::Unbox(primitive) => unbox_descriptor(primitive),
    }
}

fn is_owner(owner: Owner, class: usize) -> bool
    ensures { result ≡ is_owner owner class }
{
    match owner {
        Owner::Object => class == 0,
        Owner::String => class == 1,
        Owner::Run => class == 7,
        Owner::Throwable => class == 8,
        Owner::AnyThrowable => 8 <= class && class <= 23,
    }
}

fn owner_is_static(owner: Owner) -> bool
    ensures { result ≡ owner_is_static owner }
{
    matches!(owner, Owner::Run)
}

fn is_method(
    wants_static: bool,
    name: &[u16],
    descriptor: &[u16],
    class: usize,
    method: BuiltIn,
) -> bool
    ensures { result ≡ is_method wants_static name.now descriptor.now class method }
{
    let owner = owner_of(method);
    is_owner(owner, class)
        && agree(wants_static, owner_is_static(owner))
        && same(name, name_of(method))
        && same(descriptor, descriptor_of(method))
}

/// Whether both hold or neither.
pub fn agree(a: bool, b: bool) -> bool
    ensures { result ≡ agree a b }
{
    if a { b } else { !b }
}

/// The method of the machine's own that the class with a number declares, static or not as wanted.
#[tactic(auto, unfolding(crate::specs::BuiltInMethods::built_in_method))]
pub fn built_in_method(
    wants_static: bool,
    name: &[u16],
    descriptor: &[u16],
    class: usize,
) -> Option<BuiltIn>
    ensures { result ≡ built_in_method wants_static name.now descriptor.now class }
{
    METHODS.iter().copied().find(|method| is_method(wants_static, name, descriptor, class, *method))
}
