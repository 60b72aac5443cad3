use memchr::memmem;

/// What is wrong with the commas of a list, as words that follow the list. None if one comma is between two items, and
/// none before the first or behind the last.
pub fn comma_hint(list: &[u8]) -> Option<&'static str> {
    if list.ends_with(b",") {
        return Some("ends with a comma");
    }
    if list.starts_with(b",") {
        return Some("begins with a comma");
    }
    if memmem::find(list, b",,").is_some() {
        return Some("has two commas in a row");
    }
    None
}
