//! The JSON texts of numbers and lists, each appended to a text.
ghost use Rattle.std.specs.Prelude.{◌≡◌, ◌<◌, ◌++◌, [], ◌∷◌, OnOk, Some, string_bytes};
ghost use Rattle.serde_json.specs.Written.{comma_if};
ghost use Rattle.ov_certfile.specs.Forms.{count_in, list_in};
ghost use Rattle.ov_certfile.specs.DataOf.{whole_data, list_data};
ghost use Rattle.ov_certfile.specs.Code.Writing.{WritesValue};

use crate::field_reading_and_writing::Field;
use itoa::Buffer;
use std::alloc::AllocError;

/// Appends a whole number.
pub(crate) fn write_whole(out: &mut String, number: u32) -> Result<(), AllocError>
    ensures text { OnOk result (WritesValue (whole_data number) (string_bytes out.old) (string_bytes out.new)) }
    ensures reads_back { OnOk result (count_in (whole_data number) ≡ Some number) }
{
    let mut digits = Buffer::new();
    out.push_str(digits.format(number))
}

/// Appends an ASCII character.
pub(crate) fn write_mark(out: &mut String, mark: char) -> Result<(), AllocError>
    requires { mark < 128 }
    ensures { OnOk result (string_bytes out.new ≡ string_bytes out.old ++ mark ∷ []) }
{
    out.push(mark)
}

/// Appends a comma, if something stands before.
pub(crate) fn write_comma(out: &mut String, later: bool) -> Result<(), AllocError>
    ensures { OnOk result (string_bytes out.new ≡ string_bytes out.old ++ comma_if later) }
{
    if later { write_mark(out, ',') } else { Ok(()) }
}

/// Appends the array of these fields.
pub(crate) fn write_list<T: Field>(out: &mut String, fields: &[T]) -> Result<(), AllocError>
    ensures text { OnOk result
        (WritesValue (list_data T.as_data fields.now) (string_bytes out.old) (string_bytes out.new)) }
    ensures reads_back { OnOk result (list_in T.form (list_data T.as_data fields.now) ≡ Some fields.now) }
{
    write_mark(out, '[')?;
    let mut later = false;
    for field in fields {
        write_comma(out, later)?;
        field.write_to(out)?;
        later = true;
    }
    write_mark(out, ']')?;
    Ok(())
}
