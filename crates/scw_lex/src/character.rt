//! The classes of characters: SLS 1.

ghost use Rattle.std.specs.Prelude.{◌≡◌, ◌<◌, length, slice_index_or};
ghost use Rattle.scw_lex.specs.declared.character.Class.TheVariants as class;
ghost use Rattle.scw_lex.specs.Character as spec;

use unicode::properties::GeneralCategory;

/// What a character can begin or belong to.
#[derive(Clone, Copy, Debug, PartialEq, Eq)]
pub enum Class {
    /// A letter, `$` and `_` among them.
    Letter,
    /// A decimal digit.
    Digit,
    /// White space.
    White,
    /// A bracket or separator, which is a token by itself.
    Separator,
    /// What opens a literal or a backquoted identifier.
    Quote,
    /// What operators are made of.
    Operator,
    /// What begins no token.
    Other,
}

/// The classes of the ASCII characters, in their order.
#[rattlefmt::skip]
pub const ASCII: [Class; 128] = [
    Class::Other, Class::Other, Class::Other, Class::Other, Class::Other, Class::Other, Class::Other, Class::Other,
    Class::Other, Class::White, Class::White, Class::Other, Class::White, Class::White, Class::Other, Class::Other,
    Class::Other, Class::Other, Class::Other, Class::Other, Class::Other, Class::Other, Class::Other, Class::Other,
    Class::Other, Class::Other, Class::Other, Class::Other, Class::Other, Class::Other, Class::Other, Class::Other,
    Class::White, Class::Operator, Class::Quote, Class::Operator, Class::Letter, Class::Operator, Class::Operator, Class::Quote,
    Class::Separator, Class::Separator, Class::Operator, Class::Operator, Class::Separator, Class::Operator, Class::Separator, Class::Operator,
    Class::Digit, Class::Digit, Class::Digit, Class::Digit, Class::Digit, Class::Digit, Class::Digit, Class::Digit,
    Class::Digit, Class::Digit, Class::Operator, Class::Separator, Class::Operator, Class::Operator, Class::Operator, Class::Operator,
    Class::Operator, Class::Letter, Class::Letter, Class::Letter, Class::Letter, Class::Letter, Class::Letter, Class::Letter,
    Class::Letter, Class::Letter, Class::Letter, Class::Letter, Class::Letter, Class::Letter, Class::Letter, Class::Letter,
    Class::Letter, Class::Letter, Class::Letter, Class::Letter, Class::Letter, Class::Letter, Class::Letter, Class::Letter,
    Class::Letter, Class::Letter, Class::Letter, Class::Separator, Class::Operator, Class::Separator, Class::Operator, Class::Letter,
    Class::Quote, Class::Letter, Class::Letter, Class::Letter, Class::Letter, Class::Letter, Class::Letter, Class::Letter,
    Class::Letter, Class::Letter, Class::Letter, Class::Letter, Class::Letter, Class::Letter, Class::Letter, Class::Letter,
    Class::Letter, Class::Letter, Class::Letter, Class::Letter, Class::Letter, Class::Letter, Class::Letter, Class::Letter,
    Class::Letter, Class::Letter, Class::Letter, Class::Separator, Class::Operator, Class::Separator, Class::Operator, Class::Other,
];

/// The class of the characters of a category of Unicode.
fn category_class(category: GeneralCategory) -> Class
    ensures { result ≡ spec.category_class category }
{
    match category {
        GeneralCategory::UppercaseLetter
        | GeneralCategory::LowercaseLetter
        | GeneralCategory::TitlecaseLetter
        | GeneralCategory::OtherLetter
        | GeneralCategory::LetterNumber => Class::Letter,
        GeneralCategory::MathSymbol | GeneralCategory::OtherSymbol => Class::Operator,
        _ => Class::Other,
    }
}

/// The class at a place of a table.
#[inline]
fn class_at(table: &[Class], at: usize) -> Class
    requires { at < length table.now }
    ensures { result ≡ slice_index_or table.now at class.Other }
{
    table[at]
}

/// The class of a character.
#[inline]
#[tactic(auto, using(crate::proofs::CharacterLemmas::ascii_classes, crate::proofs::CharacterLemmas::wide_class))]
pub(crate) fn class_of(c: char) -> Class
    ensures { result ≡ spec.class_of c }
{
    let code = c as usize;
    if code < 128 {
        class_at(&ASCII, code)
    } else {
        category_class(GeneralCategory::for_char(c))
    }
}

/// Whether the character can go on with a word: a letter or a digit.
#[inline]
pub(crate) fn is_word(c: char) -> bool
    ensures { result ≡ spec.is_word c }
{
    match class_of(c) {
        Class::Letter | Class::Digit => true,
        Class::White | Class::Separator | Class::Quote | Class::Operator | Class::Other => false,
    }
}

/// Whether operators are made of the character.
#[inline]
pub(crate) fn is_operator(c: char) -> bool
    ensures { result ≡ spec.is_operator c }
{
    match class_of(c) {
        Class::Operator => true,
        Class::Letter
        | Class::Digit
        | Class::White
        | Class::Separator
        | Class::Quote
        | Class::Other => false,
    }
}

/// Whether the character is a letter.
pub(crate) fn is_letter(c: char) -> bool
    ensures { result ≡ spec.is_letter c }
{
    match class_of(c) {
        Class::Letter => true,
        Class::Digit
        | Class::White
        | Class::Separator
        | Class::Quote
        | Class::Operator
        | Class::Other => false,
    }
}
