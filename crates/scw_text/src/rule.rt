//! The rules of refusal.

ghost use Rattle.std.specs.Prelude.{◌≡◌};
ghost use Rattle.scw_text.specs.Rule.{number_of};

/// Why a source is refused: 1 to 8 are lexical, 10 to 15 of syntax, 20 and 28 of names, and the rest of typing.
#[derive(Clone, Copy, Debug, PartialEq, Eq)]
pub enum Rule {
    /// A character begins no token.
    BadChar = 1,
    /// A block comment is not closed.
    OpenComment = 2,
    /// A literal or a backquoted name is not closed.
    OpenText = 3,
    /// An escape is not in the list.
    BadEscape = 4,
    /// A number is past its range, has a leading zero, or has a floating form.
    BadNumber = 5,
    /// A name is empty or longer than 200 bytes.
    BadName = 6,
    /// A string is longer than 65,535 bytes of modified UTF-8.
    LongText = 7,
    /// An interpolator, a symbol literal, or `\u` outside a literal that allows it.
    LeftOutToken = 8,
    /// There is no reading, and the failing token cannot stand there.
    Unexpected = 10,
    /// Operators of equal precedence associate unlike.
    MixedAssoc = 11,
    /// There is a reading only past the depth of 200.
    TooNested = 12,
    /// 2147483648 or 9223372036854775808L without the `-` that it needs.
    Range = 13,
    /// An argument is an assignment to a simple name.
    NamedArgument = 14,
    /// An underscore section has no expression that binds it.
    FreeUnderscore = 15,
    /// A scope defines a name twice, overloaded methods excepted.
    DoubleName = 20,
    /// A name has no binding.
    NotFound = 21,
    /// A name has two bindings of which none shadows the other.
    TwoBindings = 22,
    /// The type has no such member, and no view gives one.
    NotMember = 23,
    /// A private or protected member is out of reach.
    NoAccess = 24,
    /// A local is used before its place, without a written type or over a value.
    Forward = 25,
    /// A path needs a stable value.
    NotStable = 26,
    /// A type stands for a value, or conversely.
    WrongKind = 27,
    /// A binary name is longer than 240 bytes of modified UTF-8.
    LongBinary = 28,
    /// A type is inferred from itself, or a chain of bounds or parents comes back to its start.
    Cyclic = 30,
    /// A question about types went past the height of 100.
    TooDeep = 31,
    /// A value cannot be adapted to the expected type.
    Mismatch = 32,
    /// A count of arguments or sub-patterns differs.
    WrongCount = 33,
    /// No overloaded alternative applies.
    NoAlternative = 34,
    /// No overloaded alternative is most specific.
    TwoAlternatives = 35,
    /// Type arguments cannot be solved.
    NoInstance = 36,
    /// The type of a function literal's parameter is not known.
    NoParamType = 37,
    /// There is no value for an implicit parameter.
    NoImplicit = 38,
    /// Two values for an implicit parameter, none more specific.
    TwoImplicits = 39,
    /// The search for an implicit value does not end.
    Diverging = 40,
    /// The left side of an assignment cannot be assigned.
    NotVariable = 41,
    /// No value of the scrutinee's type can match, or a variable stands in an alternative.
    BadPattern = 42,
    /// `new` of a trait or an abstract class without a body.
    BadNew = 43,
    /// An array of an abstract type that may not be a reference.
    GenericArray = 44,
    /// `super.m` has no concrete target.
    BadSuper = 45,
    /// A wrong number of type arguments.
    TypeCount = 46,
    /// Type arguments break their bounds.
    Bounds = 47,
    /// A parent is final, sealed elsewhere, a class in a later place, or a trait whose superclass is missing.
    BadParent = 50,
    /// A class is named twice among the parents.
    TwiceParent = 51,
    /// A class that is not abstract has an abstract member.
    Abstract = 52,
    /// A member overrides another against the rules of overriding.
    BadOverride = 53,
    /// Two members have one name and one erased signature.
    ErasedClash = 54,
    /// A variant parameter stands in a wrong position.
    Variance = 55,
    /// Two binary names are equal.
    BinaryClash = 56,
    /// A case class has a case class among its parents.
    BadCase = 57,
    /// An implicit class or view has not exactly one explicit parameter.
    BadImplicit = 58,
}

impl Rule {
    /// The rule's number, as a message shows it.
    pub fn number(self) -> u8
        ensures { result ≡ number_of self }
    {
        self as u8
    }
}
