//! Laws of tokens. The functions do nothing: their contracts are the laws.

ghost use Rattle.std.specs.Prelude.{◌≡◌, ℕ, List, Option};
ghost use Rattle.scw_lex.specs.declared.bracket.Bracket.{Bracket};
ghost use Rattle.scw_lex.specs.declared.bracket.Mark.{Mark};
ghost use Rattle.scw_lex.specs.declared.token.Lexeme.{Lexeme};
ghost use Rattle.scw_lex.specs.declared.token.Token.{Token};
ghost use Rattle.scw_text.specs.declared.refusal.Refusal.{Refusal};
ghost use Rattle.scw_lex.specs.Lexing.{Refuses};
ghost use Rattle.scw_lex.specs.Tokens.{HasTokens};
ghost use Rattle.scw_lex.specs.Newline.{Innermost, WithNewlines};

/// Behind all marks one bracket is innermost, or none, and all lexemes have one list of tokens with newlines.
#[tactic(auto, using(crate::proofs::AloneLemmas::some_bracket, crate::proofs::AloneLemmas::one_bracket, crate::proofs::AloneLemmas::some_tokens, crate::proofs::AloneLemmas::one_list))]
pub fn newlines_are_decided()
    ensures some_bracket { (marks : List Mark) → (b : Option Bracket) × Innermost marks b }
    ensures one_bracket { (marks : List Mark) (b c : Option Bracket) → Innermost marks b → Innermost marks c → b ≡ c }
    ensures some_tokens { (lexemes : List Lexeme) → (tokens : List Token) × WithNewlines lexemes tokens }
    ensures one_list { (lexemes : List Lexeme) (tokens others : List Token) → WithNewlines lexemes tokens → WithNewlines lexemes others → tokens ≡ others }
{}

/// A text has one list of tokens at most, one refusal at most, and not both.
pub fn sources_are_decided()
    ensures one_list { (file : ℕ) (text : List ℕ) (tokens others : List Token) → HasTokens file text tokens → HasTokens file text others → others ≡ tokens }
    ensures one_refusal { (file : ℕ) (text : List ℕ) (refusal other : Refusal) → Refuses file 0 text refusal → Refuses file 0 text other → other ≡ refusal }
    ensures not_both { (file : ℕ) (text : List ℕ) (tokens : List Token) (refusal : Refusal) → HasTokens file text tokens → Refuses file 0 text refusal → ⊥ }
{}
