//! Indices of the pool, and what may stand at them.

ghost use Rattle.std.specs.Prelude.{◌≡◌};
ghost use Rattle.scw_classfile.specs.declared.index.Expected.TheVariants as expected;
ghost use Rattle.scw_classfile.specs.Kinds.{index_flaw, is_class_text, is_class_that, is_code_text, is_field_text, is_index, is_method_text, is_object_text, is_text_that, is_type_text, is_type_that, kind_at, lets, test_of, text_flaw, type_flaw};

use crate::class_rule::ClassRule;
use crate::fault::Flaw;
use crate::flaw::{first_of_two, unless};
use crate::pool_entry::{EntryKind, TextKind};

/// What an index of the pool is asked to name: JVMS 4.4 and 6.5.
#[derive(Clone, Copy, Debug, PartialEq, Eq)]
pub enum Expected {
    /// A text.
    Text,
    /// A class.
    Class,
    /// A name and type.
    NameAndType,
    /// A field.
    Fieldref,
    /// A method of a class: `invokevirtual`.
    Methodref,
    /// A method of an interface: `invokeinterface`.
    InterfaceMethodref,
    /// A method of a class, since version 52 of an interface too: `invokespecial` and `invokestatic`.
    DirectMethodref,
    /// A call site: `invokedynamic`.
    InvokeDynamic,
    /// A constant of one place, by the version: `ldc` and `ldc_w`.
    Constant,
    /// A constant of two places: `ldc2_w`.
    LongConstant,
}

impl Expected {
    /// Whether an entry of this kind may stand there, in a file of this major version (JVMS 4.4 and 6.5).
    pub fn lets(self, major: u16, kind: EntryKind) -> bool
        ensures { result ≡ lets major self kind }
    {
        match self {
            Expected::Text => matches!(kind, EntryKind::Utf8(_)),
            Expected::Class => matches!(kind, EntryKind::Class(_)),
            Expected::NameAndType => matches!(kind, EntryKind::NameAndType(_)),
            Expected::Fieldref => matches!(kind, EntryKind::Fieldref),
            Expected::Methodref => matches!(kind, EntryKind::Methodref),
            Expected::InterfaceMethodref => matches!(kind, EntryKind::InterfaceMethodref),
            Expected::DirectMethodref => lets_direct(major, kind),
            Expected::InvokeDynamic => matches!(kind, EntryKind::InvokeDynamic),
            Expected::Constant => lets_constant(major, kind),
            Expected::LongConstant => matches!(kind, EntryKind::Long | EntryKind::Double),
        }
    }
}

/// A method of a class, since version 52 of an interface too.
fn lets_direct(major: u16, kind: EntryKind) -> bool
    ensures { result ≡ lets major expected.DirectMethodref kind }
{
    matches!(kind, EntryKind::Methodref)
        || 52 <= major && matches!(kind, EntryKind::InterfaceMethodref)
}

/// A constant of one place: since version 49 a class too, since version 51 a method type or handle.
fn lets_constant(major: u16, kind: EntryKind) -> bool
    ensures { result ≡ lets major expected.Constant kind }
{
    matches!(kind, EntryKind::Integer | EntryKind::Float | EntryKind::Str)
        || 49 <= major && matches!(kind, EntryKind::Class(_))
        || 51 <= major && matches!(kind, EntryKind::MethodType | EntryKind::MethodHandle)
}

/// The kind of the entry at an index, which counts from 1 (JVMS 4.1).
pub fn kind_at(kinds: &[EntryKind], n: usize) -> Option<EntryKind>
    ensures { result ≡ kind_at kinds.now n }
{
    if n == 0 {
        return None;
    }
    kinds.get(n - 1).copied()
}

/// Whether an entry that may stand there has this index.
pub fn is_index(major: u16, kinds: &[EntryKind], expected: Expected, n: usize) -> bool
    ensures { result ≡ is_index major kinds.now expected n }
{
    match kind_at(kinds, n) {
        Some(kind) => expected.lets(major, kind),
        None => false,
    }
}

/// The flaw of an index that stands so many bytes after the beginning of a part.
pub fn index_flaw(
    major: u16,
    kinds: &[EntryKind],
    expected: Expected,
    n: u16,
    after: usize,
) -> Option<Flaw>
    ensures { result ≡ index_flaw major kinds.now expected n after }
{
    unless(
        is_index(major, kinds, expected, usize::from(n)),
        ClassRule::Index,
        after,
    )
}

impl TextKind {
    /// The descriptor of a field (JVMS 4.3.2).
    pub fn is_field(self) -> bool
        ensures { result ≡ is_field_text self }
    {
        matches!(self, TextKind::Field | TextKind::Array)
    }

    /// The descriptor of a method (JVMS 4.3.3).
    pub fn is_method(self) -> bool
        ensures { result ≡ is_method_text self }
    {
        matches!(self, TextKind::Method)
    }

    /// The descriptor of a field or of a method (JVMS 4.3).
    pub fn is_type(self) -> bool
        ensures { result ≡ is_type_text self }
    {
        self.is_field() || self.is_method()
    }

    /// The name of a class, or the descriptor of an array type (JVMS 4.4.1).
    pub fn is_class(self) -> bool
        ensures { result ≡ is_class_text self }
    {
        !matches!(self, TextKind::NoArray)
    }

    /// The name of the attribute that holds code (JVMS 4.7.3).
    pub fn is_code(self) -> bool
        ensures { result ≡ is_code_text self }
    {
        matches!(self, TextKind::Code)
    }

    /// The name of the class that has no superclass (JVMS 4.1).
    pub fn is_object(self) -> bool
        ensures { result ≡ is_object_text self }
    {
        matches!(self, TextKind::Object)
    }
}

/// What a text is asked to be.
#[derive(Clone, Copy, Debug, PartialEq, Eq)]
pub enum TextTest {
    /// The descriptor of a field (JVMS 4.3.2).
    Field,
    /// The descriptor of a method (JVMS 4.3.3).
    Method,
    /// The descriptor of a field or of a method (JVMS 4.3).
    Type,
    /// The name of a class, or the descriptor of an array type (JVMS 4.4.1).
    Class,
    /// `Code` (JVMS 4.7.3).
    Code,
    /// `java/lang/Object` (JVMS 4.1).
    Object,
}

impl TextTest {
    /// Whether a text of this kind is what is asked for.
    pub fn passes(self, text: TextKind) -> bool
        ensures { result ≡ test_of self text }
    {
        match self {
            TextTest::Field => text.is_field(),
            TextTest::Method => text.is_method(),
            TextTest::Type => text.is_type(),
            TextTest::Class => text.is_class(),
            TextTest::Code => text.is_code(),
            TextTest::Object => text.is_object(),
        }
    }
}

/// Whether the index is of a text that passes the test.
pub fn is_text_that(kinds: &[EntryKind], test: TextTest, n: u16) -> bool
    ensures { result ≡ is_text_that kinds.now (test_of test) n }
{
    let Some(EntryKind::Utf8(text)) = kind_at(kinds, usize::from(n)) else {
        return false;
    };
    test.passes(text)
}

/// Whether the index is of a name and type whose descriptor passes the test (JVMS 4.4.6).
pub fn is_type_that(kinds: &[EntryKind], test: TextTest, n: u16) -> bool
    ensures { result ≡ is_type_that kinds.now (test_of test) n }
{
    let Some(EntryKind::NameAndType(descriptor)) = kind_at(kinds, usize::from(n)) else {
        return false;
    };
    is_text_that(kinds, test, descriptor)
}

/// Whether the index is of a class whose name passes the test (JVMS 4.4.1).
pub fn is_class_that(kinds: &[EntryKind], test: TextTest, n: u16) -> bool
    ensures { result ≡ is_class_that kinds.now (test_of test) n }
{
    let Some(EntryKind::Class(name)) = kind_at(kinds, usize::from(n)) else {
        return false;
    };
    is_text_that(kinds, test, name)
}

/// The flaw of an index where a text is asked for that passes the test.
pub fn text_flaw(
    major: u16,
    kinds: &[EntryKind],
    test: TextTest,
    n: u16,
    after: usize,
) -> Option<Flaw>
    ensures { result ≡ text_flaw major kinds.now (test_of test) n after }
{
    first_of_two(
        index_flaw(major, kinds, Expected::Text, n, after),
        unless(is_text_that(kinds, test, n), ClassRule::Descriptor, after),
    )
}

/// The flaw of an index where a name and type is asked for whose descriptor passes the test.
pub fn type_flaw(
    major: u16,
    kinds: &[EntryKind],
    test: TextTest,
    n: u16,
    after: usize,
) -> Option<Flaw>
    ensures { result ≡ type_flaw major kinds.now (test_of test) n after }
{
    first_of_two(
        index_flaw(major, kinds, Expected::NameAndType, n, after),
        unless(is_type_that(kinds, test, n), ClassRule::Descriptor, after),
    )
}
