//! The machine's own classes, which no file holds (JVMS 5.3.1).

ghost use Rattle.std.specs.Prelude.{◌≡◌};
ghost use Rattle.scw_link.specs.BuiltIns.{built_in_fields, built_in_name, built_in_number};
ghost use Rattle.scw_link.specs.ClassNames.{text_of};

use crate::names::same;
use sqlite_items::at;

/// The name of a class of the machine's own.
#[derive(Clone, Copy)]
pub enum ClassName {
    Object,
    String,
    Integer,
    Long,
    Character,
    Boolean,
    Unit,
    Run,
    Throwable,
    Exception,
    Runtime,
    Arithmetic,
    ClassCast,
    NullPointer,
    IndexOutOfBounds,
    ArrayIndexOutOfBounds,
    StringIndexOutOfBounds,
    NegativeArraySize,
    ArrayStore,
    IllegalArgument,
    IllegalState,
    UnsupportedOperation,
    NoSuchElement,
    MatchError,
}

impl ClassName {
    /// The binary name (JVMS 4.2.1).
    pub fn text(self) -> &'static [u8]
        ensures { result.now ≡ text_of self }
    {
        match self {
            ClassName::Object => b"java/lang/Object",
            ClassName::String => b"java/lang/String",
            ClassName::Integer => b"java/lang/Integer",
            ClassName::Long => b"java/lang/Long",
            ClassName::Character => b"java/lang/Character",
            ClassName::Boolean => b"java/lang/Boolean",
            ClassName::Unit => b"scalaw/rt/Unit",
            ClassName::Run => b"scalaw/rt/Run",
            ClassName::Throwable => b"java/lang/Throwable",
            ClassName::Exception => b"java/lang/Exception",
            ClassName::Runtime => b"java/lang/RuntimeException",
            ClassName::Arithmetic => b"java/lang/ArithmeticException",
            ClassName::ClassCast => b"java/lang/ClassCastException",
            ClassName::NullPointer => b"java/lang/NullPointerException",
            ClassName::IndexOutOfBounds => b"java/lang/IndexOutOfBoundsException",
            ClassName::ArrayIndexOutOfBounds => b"java/lang/ArrayIndexOutOfBoundsException",
            ClassName::StringIndexOutOfBounds => b"java/lang/StringIndexOutOfBoundsException",
            ClassName::NegativeArraySize => b"java/lang/NegativeArraySizeException",
            ClassName::ArrayStore => b"java/lang/ArrayStoreException",
            ClassName::IllegalArgument => b"java/lang/IllegalArgumentException",
            ClassName::IllegalState => b"java/lang/IllegalStateException",
            ClassName::UnsupportedOperation => b"java/lang/UnsupportedOperationException",
            ClassName::NoSuchElement => b"java/util/NoSuchElementException",
            ClassName::MatchError => b"scala/MatchError",
        }
    }
}

/// A class of the machine's own.
#[derive(Clone, Copy)]
pub struct BuiltInClass {
    pub name: ClassName,
    /// The number of its superclass.
    pub parent: Option<usize>,
    /// How many fields it adds to those of its superclass: the number of a box, the message of a `Throwable`.
    pub fields: usize,
}

/// The machine's own classes; the number of a class is its place, from 0.
#[rattlefmt::skip]
pub const CLASSES: [BuiltInClass; 24] = [
    BuiltInClass { name: ClassName::Object, parent: None, fields: 0 }, // 0
    BuiltInClass { name: ClassName::String, parent: Some(0), fields: 0 }, // 1
    BuiltInClass { name: ClassName::Integer, parent: Some(0), fields: 1 }, // 2
    BuiltInClass { name: ClassName::Long, parent: Some(0), fields: 1 }, // 3
    BuiltInClass { name: ClassName::Character, parent: Some(0), fields: 1 }, // 4
    BuiltInClass { name: ClassName::Boolean, parent: Some(0), fields: 1 }, // 5
    BuiltInClass { name: ClassName::Unit, parent: Some(0), fields: 0 }, // 6
    BuiltInClass { name: ClassName::Run, parent: Some(0), fields: 0 }, // 7
    BuiltInClass { name: ClassName::Throwable, parent: Some(0), fields: 1 }, // 8
    BuiltInClass { name: ClassName::Exception, parent: Some(8), fields: 0 }, // 9
    BuiltInClass { name: ClassName::Runtime, parent: Some(9), fields: 0 }, // 10
    BuiltInClass { name: ClassName::Arithmetic, parent: Some(10), fields: 0 }, // 11
    BuiltInClass { name: ClassName::ClassCast, parent: Some(10), fields: 0 }, // 12
    BuiltInClass { name: ClassName::NullPointer, parent: Some(10), fields: 0 }, // 13
    BuiltInClass { name: ClassName::IndexOutOfBounds, parent: Some(10), fields: 0 }, // 14
    BuiltInClass { name: ClassName::ArrayIndexOutOfBounds, parent: Some(14), fields: 0 }, // 15
    BuiltInClass { name: ClassName::StringIndexOutOfBounds, parent: Some(14), fields: 0 }, // 16
    BuiltInClass { name: ClassName::NegativeArraySize, parent: Some(10), fields: 0 }, // 17
    BuiltInClass { name: ClassName::ArrayStore, parent: Some(10), fields: 0 }, // 18
    BuiltInClass { name: ClassName::IllegalArgument, parent: Some(10), fields: 0 }, // 19
    BuiltInClass { name: ClassName::IllegalState, parent: Some(10), fields: 0 }, // 20
    BuiltInClass { name: ClassName::UnsupportedOperation, parent: Some(10), fields: 0 }, // 21
    BuiltInClass { name: ClassName::NoSuchElement, parent: Some(10), fields: 0 }, // 22
    BuiltInClass { name: ClassName::MatchError, parent: Some(10), fields: 0 }, // 23
];

/// The number of the class of this name.
#[tactic(auto, unfolding(crate::specs::BuiltIns::built_in_number))]
pub fn built_in_number(name: &[u16]) -> Option<usize>
    ensures { result ≡ built_in_number name.now }
{
    CLASSES
        .iter()
        .position(|class| same(name, class.name.text()))
}

/// How many fields the class with a number adds to those of its superclass.
#[tactic(auto, unfolding(crate::specs::BuiltIns::built_in_fields))]
pub fn built_in_fields(class: usize) -> usize
    ensures { result ≡ built_in_fields class }
{
    match at(&CLASSES, class).copied() {
        Some(class) => class.fields,
        None => 0,
    }
}

/// The name of the class with a number.
#[tactic(auto, unfolding(crate::specs::BuiltIns::built_in_name))]
pub fn built_in_name(class: usize) -> &'static [u8]
    ensures { result.now ≡ built_in_name class }
{
    match at(&CLASSES, class).copied() {
        Some(class) => class.name.text(),
        None => b"",
    }
}
