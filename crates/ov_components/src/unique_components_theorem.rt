ghost use Rattle.ov_components.specs.Theorems.{OneDivision};

/// A crash leaves one list of components.
pub fn one_division()
    ensures { OneDivision }
{}
