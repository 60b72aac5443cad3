//! Files that are not in UTF-8, or that are packed, which a person may name.
use ov_io::shown_name;
use std::alloc::{AllocError, Global};
use std::fmt::Write;

/// A form of files: the bytes that they begin with, what they are and must be, and the command that makes it of them.
#[derive(Clone, Copy)]
struct Form(&'static [u8], &'static str, &'static str);

const UTF_16: &str = "is in UTF-16, and must be in UTF-8";

const FORMS: [Form; 6] = [
    Form(b"\xff\xfe", UTF_16, "iconv -f UTF-16 -t UTF-8"),
    Form(b"\xfe\xff", UTF_16, "iconv -f UTF-16 -t UTF-8"),
    Form(
        b"\x1f\x8b",
        "is packed by gzip, and must be unpacked",
        "gzip -dc",
    ),
    Form(
        b"\xfd7zXZ",
        "is packed by xz, and must be unpacked",
        "xz -dc",
    ),
    Form(
        b"\x28\xb5\x2f\xfd",
        "is packed by zstd, and must be unpacked",
        "zstd -dc",
    ),
    Form(
        b"PK\x03\x04",
        "is a zip archive, and must be unpacked",
        "unzip -p",
    ),
];

/// The forms of a text in UTF-16 without a byte order mark that begins with a character of ASCII: its second or its
/// first byte is zero.
const LITTLE: Form = Form(b"", UTF_16, "iconv -f UTF-16LE -t UTF-8");

const BIG: Form = Form(b"", UTF_16, "iconv -f UTF-16BE -t UTF-8");

/// Whether a file of these bytes is not in UTF-8, or is packed. It is told from its first bytes.
pub fn has_other_form(bytes: &[u8]) -> bool {
    form_of(bytes).is_some()
}

/// The line that says how a file of these bytes, of this name or standard input, is made one in UTF-8. It ends with a
/// line feed; if the file has no other form it is empty. AllocError if an allocation is refused.
pub fn form_tip(alloc: Global, bytes: &[u8], file: Option<&str>) -> Result<String, AllocError> {
    let mut text = String::new(alloc);
    let Some(Form(_, what, command)) = form_of(bytes) else {
        return Ok(text);
    };
    match file {
        None => write!(text, "tip: standard input {what}: `{command}` does it\n")?,
        Some(path) => {
            let name = shown_name(alloc, path)?;
            write!(
                text,
                "tip: {name} {what}: `{command} {name}` prints it so\n"
            )?;
        }
    }
    Ok(text)
}

/// The form of a file of these bytes, if it is another one than UTF-8.
fn form_of(bytes: &[u8]) -> Option<Form> {
    for form in &FORMS {
        if bytes.starts_with(form.0) {
            return Some(*form);
        }
    }
    match bytes.iter().take(2).position(|byte| *byte == 0) {
        Some(0) => Some(BIG),
        Some(_) => Some(LITTLE),
        None => None,
    }
}
