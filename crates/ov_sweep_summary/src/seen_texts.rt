use indexmap::IndexSet;
use std::alloc::{AllocError, Global};

/// Texts that were seen, in the order of their first appearance.
pub(crate) struct SeenTexts {
    texts: IndexSet<String>,
}

impl SeenTexts {
    /// No texts.
    pub(crate) fn new(alloc: Global) -> SeenTexts {
        SeenTexts {
            texts: IndexSet::new(alloc),
        }
    }

    /// The place of a text, counted from 0, and whether it is new.
    pub(crate) fn place(&mut self, text: String) -> Result<(usize, bool), AllocError> {
        Ok(self.texts.insert_full(text)?)
    }
}

impl Drop for SeenTexts {
    /// Drops the texts. It is written by hand since a call is proved faster than the same drop at each exit.
    fn drop(self) {
        let SeenTexts { texts: _ } = self;
    }
}
