//! The members of an object, each appended to a text with its key.
ghost use Rattle.std.specs.Prelude.{◌≡◌, ◌++◌, true, codes, OnOk, Some, string_bytes};
ghost use Rattle.serde_json.specs.Data.{string, member};
ghost use Rattle.serde_json.specs.Written.{comma_if, compact_text};
ghost use Rattle.ov_certfile.specs.Forms.{count_in, ids_in};
ghost use Rattle.ov_certfile.specs.Kinds.{name_of, verdict_text, version_number};
ghost use Rattle.ov_certfile.specs.DataOf.{whole_data, ids_data};
ghost use Rattle.ov_certfile.specs.declared.file_keys.Key.TheVariants as key;
ghost use Rattle.ov_certfile.specs.Code.Writing.{WritesMembers};

use crate::field_reading_and_writing::Field;
use crate::file_keys::Key;
use crate::linked_or_split::Verdict;
use crate::value_writing::{write_comma, write_list, write_mark, write_whole};
use crate::version::Version;
use ov_ids::NodeId;
use std::alloc::AllocError;

/// Appends a key with its colon. If members stand before, a comma comes first.
pub(crate) fn write_key(out: &mut String, later: bool, key: Key) -> Result<(), AllocError>
    ensures { OnOk result (string_bytes out.new
        ≡ string_bytes out.old ++ (comma_if later ++ (compact_text (string (name_of key)) ++ codes ":"))) }
{
    write_comma(out, later)?;
    write_mark(out, '"')?;
    out.push_str(key.name())?;
    out.push_str("\":")?;
    Ok(())
}

/// Appends the member of a field.
#[tactic(auto, using(crate::proofs::Members::member_written))]
pub(crate) fn write_field<T: Field>(
    out: &mut String,
    later: bool,
    key: Key,
    field: &T,
) -> Result<(), AllocError>
    ensures members { OnOk result (WritesMembers later (member (name_of key) (T.as_data field.now))
        (string_bytes out.old) (string_bytes out.new)) }
    ensures reads_back { OnOk result (T.form (T.as_data field.now) ≡ Some field.now) }
{
    write_key(out, later, key)?;
    field.write_to(out)?;
    Ok(())
}

/// Appends the member of a whole number.
#[tactic(auto, using(crate::proofs::Members::member_written))]
pub(crate) fn write_count(
    out: &mut String,
    later: bool,
    key: Key,
    number: u32,
) -> Result<(), AllocError>
    ensures members { OnOk result (WritesMembers later (member (name_of key) (whole_data number))
        (string_bytes out.old) (string_bytes out.new)) }
    ensures reads_back { OnOk result (count_in (whole_data number) ≡ Some number) }
{
    write_key(out, later, key)?;
    write_whole(out, number)?;
    Ok(())
}

/// Appends the member of a list of ids.
#[tactic(auto, using(crate::proofs::Members::member_written))]
pub(crate) fn write_ids(
    out: &mut String,
    later: bool,
    key: Key,
    ids: &[NodeId],
) -> Result<(), AllocError>
    ensures members { OnOk result (WritesMembers later (member (name_of key) (ids_data ids.now))
        (string_bytes out.old) (string_bytes out.new)) }
    ensures reads_back { OnOk result (ids_in (ids_data ids.now) ≡ Some ids.now) }
{
    write_key(out, later, key)?;
    write_list(out, ids)?;
    Ok(())
}

/// Appends the member of the verdict. Members stand before it.
pub(crate) fn write_verdict(out: &mut String, verdict: Verdict) -> Result<(), AllocError>
    ensures { OnOk result (WritesMembers true (member (name_of key.Verdict) (string (verdict_text verdict)))
        (string_bytes out.old) (string_bytes out.new)) }
{
    write_key(out, true, Key::Verdict)?;
    write_mark(out, '"')?;
    out.push_str(verdict.text())?;
    write_mark(out, '"')?;
    Ok(())
}

/// Appends the member of the version. Members stand before it.
pub(crate) fn write_version(out: &mut String, version: Version) -> Result<(), AllocError>
    ensures { OnOk result (WritesMembers true (member (name_of key.Version) (whole_data (version_number version)))
        (string_bytes out.old) (string_bytes out.new)) }
{
    write_count(out, true, Key::Version, version.number())?;
    Ok(())
}
