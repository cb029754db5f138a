//! Flaws of a part, put together.

ghost use Rattle.std.specs.Prelude.{◌≡◌};
ghost use Rattle.scw_classfile.specs.Codec.{first_of_two, unless};

use crate::class_rule::ClassRule;
use crate::fault::Flaw;

/// The first of two flaws, in the order of their places.
pub fn first_of_two(a: Option<Flaw>, b: Option<Flaw>) -> Option<Flaw>
    ensures { result ≡ first_of_two a b }
{
    match a {
        Some(flaw) => Some(flaw),
        None => b,
    }
}

/// The flaw of a test that fails: the rule, and how many bytes of the part stand before it.
pub fn unless(test: bool, rule: ClassRule, after: usize) -> Option<Flaw>
    ensures { result ≡ unless test rule after }
{
    if test {
        None
    } else {
        Some(Flaw { rule, after })
    }
}
