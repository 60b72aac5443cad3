ghost use Rattle.ov_scatter.specs.Theorems.{RenamingKeepsNumber};

/// What set of nodes splits a group does not depend on ids: a renamed group in a renamed graph has the same number k.
pub fn renaming_keeps_number()
    ensures { RenamingKeepsNumber }
{}
