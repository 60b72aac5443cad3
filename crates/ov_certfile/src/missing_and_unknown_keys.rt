ghost use Rattle.std.specs.Prelude.{◌≡◌, is_none, string_bytes};
ghost use Rattle.std.specs.List.{list_all};
ghost use Rattle.std.specs.BTreeMap.{keys};
ghost use Rattle.serde_json.specs.View.{view};
ghost use Rattle.ov_certfile.specs.Keys.{is_among, has_key, has_no_other, first_failing};
ghost use Rattle.ov_certfile.specs.Kinds.{name_of, names_of};

use crate::file_keys::Key;
use serde_json::{Map, Value};

/// Whether a text is the name of one of these keys.
pub fn is_among(keys: &[Key], text: &str) -> bool
    ensures { result ≡ is_among (names_of keys.now) text.now }
{
    for key in keys {
        if text == key.name() {
            return true;
        }
    }
    false
}

/// The first of these keys that a value lacks. A value that is no object lacks all keys.
pub(crate) fn first_missing(keys: &[Key], value: &Value) -> Option<Key>
    ensures { result ≡ first_failing (λ key. has_key (name_of key) (view value.now)) keys.now }
{
    for key in keys {
        if value.get(key.name()).is_none() {
            return Some(*key);
        }
    }
    None
}

/// The place of the first key of a value that is none of these, among its keys in the order of their bytes.
pub(crate) fn first_other(keys: &[Key], value: &Value) -> Option<usize>
    ensures { is_none result ≡ has_no_other (names_of keys.now) (view value.now) }
{
    match value.as_object() {
        Some(members) => other_member(keys, members),
        None => None,
    }
}

fn other_member(wanted: &[Key], members: &Map<String, Value>) -> Option<usize>
    ensures { is_none result ≡ list_all (λ k. is_among (names_of wanted.now) (string_bytes k)) (keys members.now) }
{
    for (at, key) in members.keys().enumerate() {
        if !is_among(wanted, key.as_str()) {
            return Some(at);
        }
    }
    None
}
