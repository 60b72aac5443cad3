use serde_json::Error;

/// Why bytes are not JSON. Bytes, lines and columns are counted from 1, columns in bytes.
#[derive(Clone, Copy)]
pub enum NoJson {
    /// They are no UTF-8 from this byte on.
    NoText { byte: usize },
    /// There are none.
    Empty,
    /// They begin with a byte order mark.
    ByteOrderMark,
    /// They end too early, here.
    EndsEarly { line: usize, column: usize },
    /// They break the grammar of JSON here.
    Breaks { line: usize, column: usize },
}

impl NoJson {
    /// Why bytes are not JSON, if the first `valid` of them are UTF-8, and no more.
    pub fn no_text(valid: usize) -> NoJson {
        NoJson::NoText {
            byte: valid.saturating_add(1),
        }
    }

    /// Why a text is not JSON, if reading it failed with this error.
    pub(crate) fn of(text: &str, error: &Error) -> NoJson {
        if text.is_empty() {
            return NoJson::Empty;
        }
        if text.starts_with("\u{feff}") {
            return NoJson::ByteOrderMark;
        }
        let line = error.line();
        let column = error.column();
        if error.is_eof() {
            NoJson::EndsEarly { line, column }
        } else {
            NoJson::Breaks { line, column }
        }
    }
}
