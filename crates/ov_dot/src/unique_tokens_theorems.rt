ghost use Rattle.std.specs.Prelude.{◌≡◌, ℕ, List};
ghost use Rattle.ov_dot.specs.Tokens.{Lexeme, HasTokens, HasNoTokensFrom, HasTornName};

/// A text has one list of tokens.
pub fn one_reading()
    ensures { (text : List ℕ) (tokens others : List Lexeme) →
        HasTokens text tokens → HasTokens text others → tokens ≡ others }
{}

/// A text for which NoToken is returned has no list of tokens.
pub fn no_reading()
    ensures { (text : List ℕ) (line : ℕ) (tokens : List Lexeme) →
        HasNoTokensFrom text line → HasTokens text tokens → ⊥ }
{}

/// A text for which TornName is returned has no list of tokens.
pub fn no_torn_reading()
    ensures { (text : List ℕ) (line : ℕ) (tokens : List Lexeme) →
        HasTornName text line → HasTokens text tokens → ⊥ }
{}
