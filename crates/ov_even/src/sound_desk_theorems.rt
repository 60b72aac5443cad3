ghost use Rattle.ov_even.specs.DeskTheorems.{EndedDecides, StaysSound};

/// A new desk is sound, and each turn keeps a sound desk sound.
pub fn stays_sound()
    ensures { StaysSound }
{}

/// If all workers of a sound desk have ended, every two members are linked or the desk has decided: the piece of the
/// lowest failed number was settled with a cut, and every piece before it without (Menger, Fund. Math. 10, 1927).
pub fn ended_decides()
    ensures { EndedDecides }
{}
