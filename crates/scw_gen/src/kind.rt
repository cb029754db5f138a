//! What a value is to code: its descriptor, its slots, the instructions that move it.

ghost use Rattle.std.specs.Prelude.{◌≡◌, option_map, option_copied, map};
ghost use Rattle.scw_core.specs.Program.{type_at};
ghost use Rattle.scw_core.specs.ProgramOf.{table_of};
ghost use Rattle.scw_core.specs.TypesOf.{core_type_of, erased_of, path_of, plain_of, plains_of};
ghost use Rattle.scw_gen.specs.Kind as spec;

use scw_core::symbol::{ARRAY, BOOLEAN, INT, LONG, STRING, UNIT};
use scw_core::{CoreType, Erased, Path, Plain, Table};
use scw_text::{SymId, TypeId};

/// What a value is to code (JVMS 2.11.1, 4.3.2).
#[derive(Clone, Copy, Debug, PartialEq, Eq)]
pub enum Kind {
    /// `scalaw/rt/Unit`; nothing, where it is the result of a method.
    Unit,
    Boolean,
    Int,
    Long,
    String,
    /// An array of strings.
    Strings,
    /// The object whose class is generated.
    This,
}

/// How a value stands in a frame (JVMS 2.6).
#[derive(Clone, Copy, Debug, PartialEq, Eq)]
pub enum Word {
    Int,
    Long,
    Reference,
}

impl Kind {
    /// How a value of the kind stands in a frame.
    pub fn word(self) -> Word
        ensures { result ≡ spec.word_of self }
    {
        match self {
            Kind::Boolean | Kind::Int => Word::Int,
            Kind::Long => Word::Long,
            Kind::Unit | Kind::String | Kind::Strings | Kind::This => Word::Reference,
        }
    }

    /// How many slots a value of the kind takes (JVMS 2.6.1).
    pub fn width(self) -> u16
        ensures { result ≡ spec.width_of self }
    {
        match self {
            Kind::Long => 2,
            Kind::Unit | Kind::Boolean | Kind::Int | Kind::String | Kind::Strings | Kind::This => 1,
        }
    }
}

fn kind_of_reference(own: SymId, c: SymId) -> Option<Kind>
    ensures { result ≡ spec.kind_of_reference own c }
{
    if c.0 == STRING.0 {
        return Some(Kind::String);
    }
    if c.0 == own.0 { Some(Kind::This) } else { None }
}

/// That of a class of the prelude, or of the class that is generated.
fn kind_of_class(own: SymId, c: SymId) -> Option<Kind>
    ensures { result ≡ spec.kind_of_class own c }
{
    if c.0 == UNIT.0 {
        return Some(Kind::Unit);
    }
    if c.0 == BOOLEAN.0 {
        return Some(Kind::Boolean);
    }
    if c.0 == INT.0 {
        return Some(Kind::Int);
    }
    if c.0 == LONG.0 {
        return Some(Kind::Long);
    }
    kind_of_reference(own, c)
}

fn is_string_applied(c: SymId, ts: &[Plain]) -> bool
    ensures { result ≡ spec.is_string_applied c (plains_of (map plain_of ts.now)) }
{
    match ts {
        [] => c.0 == STRING.0,
        [_t, ..] => false,
    }
}

fn is_string(t: &Plain) -> bool
    ensures { result ≡ spec.is_string (plain_of t.now) }
{
    match t {
        Plain::Cls(_, c, ts) => is_string_applied(*c, ts.as_slice()),
        Plain::Mem(..) | Plain::Par(_) | Plain::Sing(_) | Plain::With(_) | Plain::Fun(..) => false,
        Plain::Poly(..) | Plain::Nullary(_) | Plain::Bounds(..) | Plain::Has(_) | Plain::Unknown =>
            false,
    }
}

/// `Array[T, ..]`
fn kind_of_elements(c: SymId, t: &Plain, rest: &[Plain]) -> Option<Kind>
    ensures { result ≡ spec.kind_of_elements c (plain_of t.now) (plains_of (map plain_of rest.now)) }
{
    match rest {
        [] => if c.0 == ARRAY.0 && is_string(t) {
            Some(Kind::Strings)
        } else {
            None
        },
        [_u, ..] => None,
    }
}

fn kind_of_applied(own: SymId, c: SymId, ts: &[Plain]) -> Option<Kind>
    ensures { result ≡ spec.kind_of_applied own c (plains_of (map plain_of ts.now)) }
{
    match ts {
        [] => kind_of_class(own, c),
        [t, rest @ ..] => kind_of_elements(c, t, rest),
    }
}

fn kind_of_path(own: SymId, path: &Path) -> Option<Kind>
    ensures { result ≡ spec.kind_of_path own (path_of path.now) }
{
    match path {
        Path::Object(o) => kind_of_reference(own, *o),
        Path::None | Path::Local(_) | Path::This(_) | Path::Select(..) => None,
    }
}

fn kind_of_plain(own: SymId, t: &Plain) -> Option<Kind>
    ensures { result ≡ spec.kind_of_plain own (plain_of t.now) }
{
    match t {
        Plain::Cls(_, c, ts) => kind_of_applied(own, *c, ts.as_slice()),
        Plain::Sing(path) => kind_of_path(own, path),
        Plain::Mem(..) | Plain::Par(_) | Plain::With(_) | Plain::Fun(..) => None,
        Plain::Poly(..) | Plain::Nullary(_) | Plain::Bounds(..) | Plain::Has(_) | Plain::Unknown =>
            None,
    }
}

fn kind_of_element(t: &Erased) -> Option<Kind>
    ensures { result ≡ spec.kind_of_element (erased_of t.now) }
{
    match t {
        Erased::Ref(c) => if c.0 == STRING.0 {
            Some(Kind::Strings)
        } else {
            None
        },
        Erased::Void | Erased::Boolean | Erased::Char | Erased::Int => None,
        Erased::Long | Erased::UnitRef | Erased::Arr(_) => None,
    }
}

fn kind_of_erased(own: SymId, t: &Erased) -> Option<Kind>
    ensures { result ≡ spec.kind_of_erased own (erased_of t.now) }
{
    match t {
        Erased::Void | Erased::UnitRef => Some(Kind::Unit),
        Erased::Boolean => Some(Kind::Boolean),
        Erased::Int => Some(Kind::Int),
        Erased::Long => Some(Kind::Long),
        Erased::Ref(c) => kind_of_reference(own, *c),
        Erased::Arr(e) => kind_of_element(e),
        Erased::Char => None,
    }
}

fn kind_of(own: SymId, t: &CoreType) -> Option<Kind>
    ensures { result ≡ spec.kind_of own (core_type_of t.now) }
{
    match t {
        CoreType::Plain(t) => kind_of_plain(own, t),
        CoreType::Erased(t) => kind_of_erased(own, t),
    }
}

/// That of a type of the table, in the class.
#[tactic(auto, unfolding(scw_core::specs::Program::type_at))]
pub(crate) fn kind_at(table: &Table, own: SymId, t: TypeId) -> Option<Kind>
    ensures { result ≡ spec.kind_at (table_of table.now) own t }
{
    match table.types.as_slice().get(t.0 as usize) {
        None => None,
        Some(t) => kind_of(own, t),
    }
}
