ghost use Rattle.std.specs.Prelude.{◌≡◌, Some, IfSome, MatchResult};
ghost use Rattle.serde_json.specs.View.{view};
ghost use Rattle.ov_certfile.specs.Kinds.{version_in, version_up_to, verdict_in};
ghost use Rattle.ov_certfile.specs.Says.{IsFault};
ghost use Rattle.ov_certfile.specs.Code.Reading.{IsHeaded};

use crate::fault::{BadValue, FileFault};
use crate::file_keys::{Key, keys_of};
use crate::linked_or_split::Verdict;
use crate::missing_and_unknown_keys::{first_missing, first_other};
use crate::value_fault::{Misfit, Wanted};
use crate::version::Version;
use serde_json::Value;

/// The version, up to the newest that is read, and the verdict of a file that has exactly their keys, or its first
/// fault.
#[tactic(auto, unfolding(crate::specs::Demands::demands))]
pub(crate) fn heading_of(newest: Version, value: &Value) -> Result<(Version, Verdict), FileFault>
    ensures { MatchResult result (λ h. IsHeaded newest h.0 h.1 (view value.now)) (IsFault newest (view value.now)) }
{
    if !value.is_object() {
        return Err(FileFault::BadValue(BadValue::of_file()));
    }
    let Some(version) = value.get("version") else {
        return Err(FileFault::MissingKey(Key::Version));
    };
    let Some(version) = version_in(newest, version) else {
        return Err(FileFault::BadVersion { newest });
    };
    let Some(verdict) = value.get("verdict") else {
        return Err(FileFault::MissingKey(Key::Verdict));
    };
    let Some(verdict) = verdict_in(verdict) else {
        let key = Some(Key::Verdict);
        let misfit = Misfit::new(Wanted::Verdict);
        return Err(FileFault::BadValue(BadValue { key, misfit }));
    };
    let keys = keys_of(version, verdict);
    if let Some(key) = first_missing(keys, value) {
        return Err(FileFault::MissingKey(key));
    }
    if let Some(at) = first_other(keys, value) {
        return Err(FileFault::UnknownKey {
            at,
            version,
            verdict,
        });
    }
    Ok((version, verdict))
}

/// The version that a value says, if it says one that is read.
fn version_in(newest: Version, value: &Value) -> Option<Version>
    ensures read { result ≡ version_up_to newest (view value.now) }
    ensures known { IfSome result (λ version. version_in (view value.now) ≡ Some version) }
{
    match value.as_u64() {
        Some(number) => Version::numbered(newest, number),
        None => None,
    }
}

/// The verdict that a value says, if it says one.
fn verdict_in(value: &Value) -> Option<Verdict>
    ensures { result ≡ verdict_in (view value.now) }
{
    match value.as_str() {
        Some("linked") => Some(Verdict::Linked),
        Some("split") => Some(Verdict::Split),
        _ => None,
    }
}
