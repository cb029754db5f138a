//! The tokens: SLS 1.1 to 1.3, and 1.2 for the newlines among them.

use scw_text::{Span, Text, Units};
use sqlite_items::Items;

/// A kind of token, with its text or value.
#[derive(Debug, Drop)]
pub enum Tok {
    /// `abstract`
    KwAbstract,
    /// `case`
    KwCase,
    /// `catch`
    KwCatch,
    /// `class`
    KwClass,
    /// `def`
    KwDef,
    /// `do`
    KwDo,
    /// `else`
    KwElse,
    /// `extends`
    KwExtends,
    /// `false`
    KwFalse,
    /// `final`
    KwFinal,
    /// `finally`
    KwFinally,
    /// `for`
    KwFor,
    /// `forSome`
    KwForSome,
    /// `if`
    KwIf,
    /// `implicit`
    KwImplicit,
    /// `import`
    KwImport,
    /// `lazy`
    KwLazy,
    /// `macro`
    KwMacro,
    /// `match`
    KwMatch,
    /// `new`
    KwNew,
    /// `null`
    KwNull,
    /// `object`
    KwObject,
    /// `override`
    KwOverride,
    /// `package`
    KwPackage,
    /// `private`
    KwPrivate,
    /// `protected`
    KwProtected,
    /// `return`
    KwReturn,
    /// `sealed`
    KwSealed,
    /// `super`
    KwSuper,
    /// `this`
    KwThis,
    /// `throw`
    KwThrow,
    /// `trait`
    KwTrait,
    /// `try`
    KwTry,
    /// `true`
    KwTrue,
    /// `type`
    KwType,
    /// `val`
    KwVal,
    /// `var`
    KwVar,
    /// `while`
    KwWhile,
    /// `with`
    KwWith,
    /// `yield`
    KwYield,
    /// `_`
    KwUnderscore,
    /// `:`
    KwColon,
    /// `=`
    KwEquals,
    /// `=>`, or U+21D2.
    KwArrow,
    /// `<-`, or U+2190.
    KwLeftArrow,
    /// `<:`
    KwUpperBound,
    /// `<%`
    KwViewBound,
    /// `>:`
    KwLowerBound,
    /// `#`
    KwHash,
    /// `@`
    KwAt,
    /// `(`
    KwOpenParenthesis,
    /// `)`
    KwCloseParenthesis,
    /// `[`
    KwOpenBracket,
    /// `]`
    KwCloseBracket,
    /// `{`
    KwOpenBrace,
    /// `}`
    KwCloseBrace,
    /// `.`
    KwDot,
    /// `,`
    KwComma,
    /// `;`
    KwSemicolon,
    /// An identifier without backquotes, by its characters.
    Id(Text),
    /// An identifier in backquotes, by the characters between them.
    Back(Text),
    /// An integer of 32 bits: at most 2147483647 in decimal, and in hexadecimal the bits.
    Int(u32),
    /// An integer of 64 bits: at most 9223372036854775807 in decimal, and in hexadecimal the bits.
    Long(u64),
    /// `2147483648`
    MinInt,
    /// `9223372036854775808L`
    MinLong,
    /// A character, by its code unit of UTF-16.
    Char(u16),
    /// A string, by its code units of UTF-16.
    Str(Units),
    /// A line end between two statements, by the byte of the first line feed.
    Nl,
    /// The same with a blank line.
    Nl2,
    /// The end of the source.
    Eof,
}

/// A token, and the part of the source that it is.
#[derive(Debug, Drop)]
pub struct Token {
    /// Which token it is.
    pub kind: Tok,
    /// Its bytes. The end of the source has none.
    pub span: Span,
}

/// Tokens in their order.
pub type Tokens = Items<Token>;

/// What of line ends stands before a token, behind the one before it: SLS 1.2.
#[derive(Clone, Copy, Debug, PartialEq, Eq)]
pub enum Gap {
    /// No line end.
    Joined,
    /// A line end, or several, and no blank line; the byte of the first.
    LineEnd(u32),
    /// A blank line; the byte of the first line end.
    BlankLine(u32),
}

/// A token with what stands before it.
#[derive(Debug, Drop)]
pub struct Lexeme {
    /// The line ends before the token.
    pub gap: Gap,
    /// The token.
    pub token: Token,
}
