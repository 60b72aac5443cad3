/// What is printed if reading failed.
pub(crate) const READING_FAILED: &str = "reading failed, or the file can't be opened\n";

/// What is printed if writing failed. Why is not known.
pub const WRITING_FAILED: &str =
    "writing failed: whoever read the output closed it, as `head` does, or the disk is full\n";

/// What is printed if an allocation was refused.
pub(crate) const OUT_OF_MEMORY: &str = "out of memory\n";
