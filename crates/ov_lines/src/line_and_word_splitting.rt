ghost use Rattle.std.specs.Prelude.{◌≡◌, ◌==◌, ◌<◌, ◌≤◌, length, option_map, IfSome};
ghost use Rattle.std.specs.List.{position};
ghost use Rattle.ov_lines.specs.Lines.{is_space, is_no_space, place_or_end, without_spaces, words_of};
ghost use Rattle.ov_lines.specs.Lines.{is_feed, without_return, first_line};
ghost use Rattle.ov_lines.specs.Code.Spaced.{first_word};

/// Splits the first line off some bytes, without its line feed and one carriage return before that, and returns what is
/// left too. Bytes without a line feed are one line.
#[tactic(auto, unfolding(crate::specs::Lines::first_line))]
pub fn split_line(bytes: &[u8]) -> (&[u8], &[u8])
    requires { 0 < length bytes.now }
    ensures line { (result.0.now, result.1.now) ≡ first_line bytes.now }
    ensures shorter { length result.1.now < length bytes.now }
{
    match line_end(bytes) {
        Some(end) => (drop_return(&bytes[..end]), &bytes[end + 1..]),
        None => (bytes, &[]),
    }
}

/// The place of the first line feed.
fn line_end(bytes: &[u8]) -> Option<usize>
    ensures { result ≡ position is_feed bytes.now }
{
    bytes.iter().position(|byte| *byte == b'\n')
}

#[tactic(auto, unfolding(crate::specs::Lines::without_return))]
fn drop_return(line: &[u8]) -> &[u8]
    ensures { result.now ≡ without_return line.now }
{
    line.strip_suffix(b"\r").unwrap_or(line)
}

/// Splits the first word off: the bytes after leading spaces, up to the next space or the end. None is returned if only
/// spaces are left.
#[tactic(auto, unfolding(crate::specs::Code::Spaced::first_word))]
pub(crate) fn split_word(text: &[u8]) -> Option<(&[u8], &[u8])>
    ensures { option_map (λ parts. (parts.0.now, parts.1.now)) result ≡ first_word text.now }
{
    let text = drop_spaces(text);
    if text.is_empty() {
        return None;
    }
    Some(text.split_at(word_end(text)))
}

/// Whether a text has only spaces.
pub(crate) fn has_no_word(text: &[u8]) -> bool
    ensures { result ≡ (length (words_of text.now) == 0) }
{
    split_word(text).is_none()
}

/// The text without the spaces that it begins with.
pub(crate) fn drop_spaces(text: &[u8]) -> &[u8]
    ensures { result.now ≡ without_spaces text.now }
{
    &text[word_start(text)..]
}

/// The place of the first byte that is no space, or the length.
fn word_start(text: &[u8]) -> usize
    ensures place { result ≡ place_or_end is_no_space text.now }
    ensures within { result ≤ length text.now }
{
    first_other(text).unwrap_or(text.len())
}

fn first_other(text: &[u8]) -> Option<usize>
    ensures place { result ≡ position is_no_space text.now }
    ensures within { IfSome result (λ i. i < length text.now) }
{
    text.iter().position(|byte| *byte != b' ')
}

/// The place of the first space, or the length.
fn word_end(text: &[u8]) -> usize
    ensures place { result ≡ place_or_end is_space text.now }
    ensures within { result ≤ length text.now }
{
    first_space(text).unwrap_or(text.len())
}

fn first_space(text: &[u8]) -> Option<usize>
    ensures place { result ≡ position is_space text.now }
    ensures within { IfSome result (λ i. i < length text.now) }
{
    text.iter().position(|byte| *byte == b' ')
}
