//! The reserved words and signs: SLS 1.1.

ghost use Rattle.std.specs.Prelude.{◌≡◌, map};
ghost use Rattle.std.specs.Str.{bytes_eq};
ghost use Rattle.scw_lex.specs.Reserved as spec;

use crate::token::Tok;

/// A word or sign that is a token of its own, with one text.
#[derive(Clone, Copy, Debug, PartialEq, Eq)]
pub enum Reserved {
    /// `abstract`
    Abstract,
    /// `case`
    Case,
    /// `catch`
    Catch,
    /// `class`
    Class,
    /// `def`
    Def,
    /// `do`
    Do,
    /// `else`
    Else,
    /// `extends`
    Extends,
    /// `false`
    False,
    /// `final`
    Final,
    /// `finally`
    Finally,
    /// `for`
    For,
    /// `forSome`
    ForSome,
    /// `if`
    If,
    /// `implicit`
    Implicit,
    /// `import`
    Import,
    /// `lazy`
    Lazy,
    /// `macro`
    Macro,
    /// `match`
    Match,
    /// `new`
    New,
    /// `null`
    Null,
    /// `object`
    Object,
    /// `override`
    Override,
    /// `package`
    Package,
    /// `private`
    Private,
    /// `protected`
    Protected,
    /// `return`
    Return,
    /// `sealed`
    Sealed,
    /// `super`
    Super,
    /// `this`
    This,
    /// `throw`
    Throw,
    /// `trait`
    Trait,
    /// `try`
    Try,
    /// `true`
    True,
    /// `type`
    Type,
    /// `val`
    Val,
    /// `var`
    Var,
    /// `while`
    While,
    /// `with`
    With,
    /// `yield`
    Yield,
    /// `_`
    Underscore,
    /// `:`
    Colon,
    /// `=`
    Equals,
    /// `=>`
    Arrow,
    /// `<-`
    LeftArrow,
    /// `<:`
    UpperBound,
    /// `<%`
    ViewBound,
    /// `>:`
    LowerBound,
    /// `#`
    Hash,
    /// `@`
    At,
    /// `(`
    OpenParenthesis,
    /// `)`
    CloseParenthesis,
    /// `[`
    OpenBracket,
    /// `]`
    CloseBracket,
    /// `{`
    OpenBrace,
    /// `}`
    CloseBrace,
    /// `.`
    Dot,
    /// `,`
    Comma,
    /// `;`
    Semicolon,
}

/// The reserved words and signs with their texts. No identifier has one of these texts.
#[rattlefmt::skip]
pub const WORDS: [(&[u8], Reserved); 50] = [
    (b"abstract", Reserved::Abstract), (b"case", Reserved::Case), (b"catch", Reserved::Catch),
    (b"class", Reserved::Class), (b"def", Reserved::Def), (b"do", Reserved::Do), (b"else", Reserved::Else),
    (b"extends", Reserved::Extends), (b"false", Reserved::False), (b"final", Reserved::Final),
    (b"finally", Reserved::Finally), (b"for", Reserved::For), (b"forSome", Reserved::ForSome), (b"if", Reserved::If),
    (b"implicit", Reserved::Implicit), (b"import", Reserved::Import), (b"lazy", Reserved::Lazy),
    (b"macro", Reserved::Macro), (b"match", Reserved::Match), (b"new", Reserved::New), (b"null", Reserved::Null),
    (b"object", Reserved::Object), (b"override", Reserved::Override), (b"package", Reserved::Package),
    (b"private", Reserved::Private), (b"protected", Reserved::Protected), (b"return", Reserved::Return),
    (b"sealed", Reserved::Sealed), (b"super", Reserved::Super), (b"this", Reserved::This),
    (b"throw", Reserved::Throw), (b"trait", Reserved::Trait), (b"try", Reserved::Try), (b"true", Reserved::True),
    (b"type", Reserved::Type), (b"val", Reserved::Val), (b"var", Reserved::Var), (b"while", Reserved::While),
    (b"with", Reserved::With), (b"yield", Reserved::Yield), (b"_", Reserved::Underscore), (b":", Reserved::Colon),
    (b"=", Reserved::Equals), (b"=>", Reserved::Arrow), (b"<-", Reserved::LeftArrow), (b"<:", Reserved::UpperBound),
    (b"<%", Reserved::ViewBound), (b">:", Reserved::LowerBound), (b"#", Reserved::Hash), (b"@", Reserved::At),
];

/// The arrows that stand for `=>` and `<-`.
#[rattlefmt::skip]
pub const ARROWS: [(char, Reserved); 2] = [('\u{21d2}', Reserved::Arrow), ('\u{2190}', Reserved::LeftArrow)];

/// The brackets and separators, each a token by itself.
#[rattlefmt::skip]
pub const SEPARATORS: [(char, Reserved); 9] = [
    ('(', Reserved::OpenParenthesis), (')', Reserved::CloseParenthesis), ('[', Reserved::OpenBracket),
    (']', Reserved::CloseBracket), ('{', Reserved::OpenBrace), ('}', Reserved::CloseBrace), ('.', Reserved::Dot),
    (',', Reserved::Comma), (';', Reserved::Semicolon),
];

impl Reserved {
    ghost use Rattle.std.specs.Prelude.{◌≡◌};
    ghost use Rattle.scw_lex.specs.Reserved as spec;

    /// The token.
    #[rattlefmt::skip]
    pub fn token(self) -> Tok
        ensures { result ≡ spec.token_of self }
    {
        match self {
            Reserved::Abstract => Tok::KwAbstract, Reserved::Case => Tok::KwCase,
            Reserved::Catch => Tok::KwCatch, Reserved::Class => Tok::KwClass,
            Reserved::Def => Tok::KwDef, Reserved::Do => Tok::KwDo,
            Reserved::Else => Tok::KwElse, Reserved::Extends => Tok::KwExtends,
            Reserved::False => Tok::KwFalse, Reserved::Final => Tok::KwFinal,
            Reserved::Finally => Tok::KwFinally, Reserved::For => Tok::KwFor,
            Reserved::ForSome => Tok::KwForSome, Reserved::If => Tok::KwIf,
            Reserved::Implicit => Tok::KwImplicit, Reserved::Import => Tok::KwImport,
            Reserved::Lazy => Tok::KwLazy, Reserved::Macro => Tok::KwMacro,
            Reserved::Match => Tok::KwMatch, Reserved::New => Tok::KwNew,
            Reserved::Null => Tok::KwNull, Reserved::Object => Tok::KwObject,
            Reserved::Override => Tok::KwOverride, Reserved::Package => Tok::KwPackage,
            Reserved::Private => Tok::KwPrivate, Reserved::Protected => Tok::KwProtected,
            Reserved::Return => Tok::KwReturn, Reserved::Sealed => Tok::KwSealed,
            Reserved::Super => Tok::KwSuper, Reserved::This => Tok::KwThis,
            Reserved::Throw => Tok::KwThrow, Reserved::Trait => Tok::KwTrait,
            Reserved::Try => Tok::KwTry, Reserved::True => Tok::KwTrue,
            Reserved::Type => Tok::KwType, Reserved::Val => Tok::KwVal,
            Reserved::Var => Tok::KwVar, Reserved::While => Tok::KwWhile,
            Reserved::With => Tok::KwWith, Reserved::Yield => Tok::KwYield,
            Reserved::Underscore => Tok::KwUnderscore, Reserved::Colon => Tok::KwColon,
            Reserved::Equals => Tok::KwEquals, Reserved::Arrow => Tok::KwArrow,
            Reserved::LeftArrow => Tok::KwLeftArrow, Reserved::UpperBound => Tok::KwUpperBound,
            Reserved::ViewBound => Tok::KwViewBound, Reserved::LowerBound => Tok::KwLowerBound,
            Reserved::Hash => Tok::KwHash, Reserved::At => Tok::KwAt,
            Reserved::OpenParenthesis => Tok::KwOpenParenthesis, Reserved::CloseParenthesis => Tok::KwCloseParenthesis,
            Reserved::OpenBracket => Tok::KwOpenBracket, Reserved::CloseBracket => Tok::KwCloseBracket,
            Reserved::OpenBrace => Tok::KwOpenBrace, Reserved::CloseBrace => Tok::KwCloseBrace,
            Reserved::Dot => Tok::KwDot, Reserved::Comma => Tok::KwComma,
            Reserved::Semicolon => Tok::KwSemicolon,
        }
    }
}

/// Whether the characters are those of the ASCII text.
fn has_chars(mut word: &[u8], mut text: &[char]) -> bool
    ensures { result ≡ bytes_eq word.entry.now text.entry.now }
{
    while let ([b, bs @ ..], [c, cs @ ..]) = (word, text) {
        if char::from(*b) != *c {
            return false;
        }
        word = bs;
        text = cs;
    }
    word.is_empty() && text.is_empty()
}

/// Whether the characters are those of the ASCII text, of which the lengths tell most apart.
#[tactic(auto, using(crate::proofs::ReservedLemmas::other_length))]
fn is_text(word: &[u8], text: &[char]) -> bool
    ensures { result ≡ bytes_eq word.now text.now }
{
    if word.len() != text.len() {
        return false;
    }
    has_chars(word, text)
}

/// The word that the table has for the text.
fn word_in(mut table: &[(&[u8], Reserved)], text: &[char]) -> Option<Reserved>
    ensures { result ≡ spec.word_in (map (λ e. (e.0.now, e.1)) table.entry.now) text.now }
{
    while let [entry, rest @ ..] = table {
        if is_text(entry.0, text) {
            return Some(entry.1);
        }
        table = rest;
    }
    None
}

/// The sign that the table has for the character.
fn sign_in(mut table: &[(char, Reserved)], c: char) -> Option<Reserved>
    ensures { result ≡ spec.sign_in table.entry.now c }
{
    while let [entry, rest @ ..] = table {
        if entry.0 == c {
            return Some(entry.1);
        }
        table = rest;
    }
    None
}

/// The arrow that the text is, if it is one of `ARROWS`.
fn arrow(text: &[char]) -> Option<Reserved>
    ensures { result ≡ spec.arrow text.now }
{
    match text {
        [c] => sign_in(&ARROWS, *c),
        _ => None,
    }
}

/// The reserved word or sign that the text of an identifier is.
#[tactic(auto, unfolding(crate::specs::Reserved::word_of))]
pub(crate) fn word_of(text: &[char]) -> Option<Reserved>
    ensures { result ≡ spec.word_of text.now }
{
    match word_in(&WORDS, text) {
        Some(word) => Some(word),
        None => arrow(text),
    }
}

/// The bracket or separator that the character is.
#[tactic(auto, unfolding(crate::specs::Reserved::separator))]
pub(crate) fn separator(c: char) -> Option<Reserved>
    ensures { result ≡ spec.separator c }
{
    sign_in(&SEPARATORS, c)
}
