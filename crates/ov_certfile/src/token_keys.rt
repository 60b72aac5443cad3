//! The keys of a file, and the text of its verdict, taken off the tokens of a text.
ghost use Rattle.std.specs.Prelude.{◌≡◌, ◌∷◌, OnOk};
ghost use Rattle.json.specs.Token as json_token;
ghost use Rattle.ov_certfile.specs.Kinds.{name_of, verdict_text};

use crate::file_keys::Key;
use crate::linked_or_split::Verdict;
use ov_tokens::{OtherToken, TokenCursor};

/// Whether a key is next.
pub(crate) fn is_at_key(cursor: &TokenCursor<'_>, key: Key) -> bool {
    cursor.is_at_text(key.name())
}

/// Takes a key with its colon.
pub(crate) fn take_key(cursor: &mut TokenCursor<'_>, key: Key) -> Result<(), OtherToken>
    ensures { OnOk result (cursor.old ≡ json_token.key (name_of key) ∷ cursor.new) }
{
    cursor.key(key.name())
}

/// Takes the text of a verdict. A comma must follow.
pub(crate) fn take_verdict(cursor: &mut TokenCursor<'_>, verdict: Verdict) -> Result<(), OtherToken>
    ensures { OnOk result (cursor.old ≡ json_token.string (verdict_text verdict) ∷ cursor.new) }
{
    cursor.text_before_comma(verdict.text())
}
