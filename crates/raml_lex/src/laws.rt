ghost use Rattle.std.specs.Prelude.{◌≡◌, ℕ, List};
ghost use Rattle.raml_lex.specs.Tokens.{Tok, Lexes};

/// A law of the definitions: a text has at most one list of tokens. The call does nothing.
#[tactic(auto, using(crate::proofs::Lexing::Lexes_same))]
pub fn tokens_are_unique()
    ensures { (greatest : ℕ) (text : List ℕ) (ts us : List Tok) →
        Lexes greatest ts text → Lexes greatest us text → ts ≡ us }
{}
