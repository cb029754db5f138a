//! Tokens, and the tables of those that have one text.

use scw_text::Bytes;

/// A word with a place of its own: a reserved word (SLS 1.1), or a name that stands for one thing.
#[derive(Clone, Copy, Debug, PartialEq, Eq)]
pub enum Word {
    /// `object`
    Object,
    /// `def`
    Def,
    /// `if`
    If,
    /// `else`
    Else,
    /// `while`
    While,
    /// `val`
    Val,
    /// `var`
    Var,
    /// `true`
    True,
    /// `false`
    False,
    /// `Main`, the object.
    MainObject,
    /// `main`, the method that runs.
    MainMethod,
    /// `args`, the parameter of `main`.
    Args,
    /// `Array`, in the type of that parameter.
    Array,
    /// `println`
    Println,
    /// `Unit`
    Unit,
    /// `Boolean`
    Boolean,
    /// `Int`
    Int,
    /// `Long`
    Long,
    /// `String`
    String,
}

/// A bracket, a separator or an operator.
#[derive(Clone, Copy, Debug, PartialEq, Eq)]
pub enum Sign {
    /// `(`
    OpenParen,
    /// `)`
    CloseParen,
    /// `[`
    OpenBracket,
    /// `]`
    CloseBracket,
    /// `{`
    OpenBrace,
    /// `}`
    CloseBrace,
    /// `,`
    Comma,
    /// `;`
    Semicolon,
    /// `:`
    Colon,
    /// `=`
    Assign,
    /// `+`
    Plus,
    /// `*`
    Times,
    /// `-`
    Minus,
    /// `/`
    Divide,
    /// `%`
    Remainder,
    /// `<`
    Less,
    /// `<=`
    LessOrEqual,
    /// `>`
    Greater,
    /// `>=`
    GreaterOrEqual,
    /// `==`
    Equal,
    /// `!=`
    Unequal,
    /// `&&`
    And,
    /// `||`
    Or,
}

/// A token.
#[derive(Debug, Drop)]
pub enum Token {
    /// A word with a place of its own.
    Word(Word),
    /// A bracket, a separator or an operator.
    Sign(Sign),
    /// A name, by its characters.
    Name(Bytes),
    /// `7`, at most 2147483647.
    Int(u32),
    /// `7L`, at most 9223372036854775807.
    Long(u64),
    /// `"text"`, by its characters.
    Text(Bytes),
}

/// The words with their texts.
#[rattlefmt::skip]
pub const WORDS: [(&[u8], Word); 19] = [
    (b"object", Word::Object), (b"def", Word::Def), (b"if", Word::If), (b"else", Word::Else),
    (b"while", Word::While), (b"val", Word::Val), (b"var", Word::Var),
    (b"true", Word::True), (b"false", Word::False),
    (b"Main", Word::MainObject), (b"main", Word::MainMethod), (b"args", Word::Args), (b"Array", Word::Array),
    (b"println", Word::Println),
    (b"Unit", Word::Unit), (b"Boolean", Word::Boolean), (b"Int", Word::Int), (b"Long", Word::Long),
    (b"String", Word::String),
];

/// The signs with their texts.
#[rattlefmt::skip]
pub const SIGNS: [(&[u8], Sign); 23] = [
    (b"(", Sign::OpenParen), (b")", Sign::CloseParen), (b"[", Sign::OpenBracket), (b"]", Sign::CloseBracket),
    (b"{", Sign::OpenBrace), (b"}", Sign::CloseBrace), (b",", Sign::Comma), (b";", Sign::Semicolon),
    (b":", Sign::Colon), (b"=", Sign::Assign), (b"+", Sign::Plus), (b"*", Sign::Times),
    (b"-", Sign::Minus), (b"/", Sign::Divide), (b"%", Sign::Remainder),
    (b"<", Sign::Less), (b"<=", Sign::LessOrEqual), (b">", Sign::Greater), (b">=", Sign::GreaterOrEqual),
    (b"==", Sign::Equal), (b"!=", Sign::Unequal), (b"&&", Sign::And), (b"||", Sign::Or),
];

/// The texts that are no names: the reserved words (SLS 1.1), the words with a place of their own, and the methods that
/// every value has.
#[rattlefmt::skip]
pub const NO_NAMES: [&[u8]; 49] = [
    b"abstract", b"case", b"catch", b"class", b"def", b"do", b"else", b"extends", b"false", b"final", b"finally",
    b"for", b"forSome", b"if", b"implicit", b"import", b"lazy", b"macro", b"match", b"new", b"null", b"object",
    b"override", b"package", b"private", b"protected", b"return", b"sealed", b"super", b"this", b"throw", b"trait",
    b"try", b"true", b"type", b"val", b"var", b"while", b"with", b"yield",
    b"args", b"main", b"println",
    b"eq", b"equals", b"isInstanceOf", b"asInstanceOf", b"ne", b"toString",
];

/// The most characters of a name, so that the texts that are made of it stay short.
pub const MAX_NAME: usize = 200;

/// The largest number of 32 bits.
pub const MAX_INT: u64 = 2_147_483_647;

/// The largest number of 64 bits.
pub const MAX_LONG: u64 = 9_223_372_036_854_775_807;
