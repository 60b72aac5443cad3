ghost use Rattle.ov_sweep.specs.MessageRows.{OneMessages};
ghost use Rattle.ov_sweep.specs.Rows.{OneRow};

/// For given measures the options alone decide the row.
pub fn one_row()
    ensures { OneRow }
{}

/// The options alone decide the rows of broadcasts.
pub fn one_messages()
    ensures { OneMessages }
{}
