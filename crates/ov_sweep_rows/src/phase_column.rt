use crate::FieldForm;

/// A column of a group that each phase has.
#[derive(Clone, Copy)]
pub struct PhaseColumn {
    /// Its name in rows, which stands behind that of the phase.
    pub name: &'static str,
    /// What it takes.
    pub takes: FieldForm,
    /// Its head in a table of means.
    pub head: &'static str,
}
