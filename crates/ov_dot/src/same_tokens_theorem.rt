ghost use Rattle.std.specs.Prelude.{◌≡◌, List};
ghost use Rattle.ov_dot.specs.Tokens.{Lexeme};
ghost use Rattle.ov_dot.specs.Grammar.{said_by, File, Spells};

/// Files with the same tokens say the same.
pub fn one_saying()
    ensures { (a b : File) → (tokens : List Lexeme) → Spells a tokens → Spells b tokens → said_by a ≡ said_by b }
{}
