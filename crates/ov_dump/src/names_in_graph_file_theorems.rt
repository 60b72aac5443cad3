ghost use Rattle.ov_dump.specs.ImportTheorems.{NamesAreRead, NamesComeBack, NamesDiffer, OneShownName};

/// No two names are shown alike.
pub fn one_shown_name()
    ensures { OneShownName }
{}

/// The graph file that is made of a dump gives each node the name that the dump gives it, as it is shown, and gives no
/// other names.
pub fn names_come_back()
    ensures { NamesComeBack }
{}

/// Who reads the names of such a file finds these names, and no others.
pub fn names_are_read()
    ensures { NamesAreRead }
{}

/// No two nodes of such a file have one name.
pub fn names_differ()
    ensures { NamesDiffer }
{}
