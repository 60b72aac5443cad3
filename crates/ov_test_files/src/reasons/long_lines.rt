//! Lines as long as may be shown whole and longer, characters that can't be shown, and a random word too many.
use ov_reasons::scenario_reasons;
use std::alloc::Global;

/// A file of one line, and what is told of it.
type Row = (&'static str, &'static str);

/// Of the bytes before the mark 60 are shown, and of the word at fault 100.
static LONG: [Row; 6] = [
    (
        "boot 1                                                     via",
        "line 1: expected `by` or the end of the line\n\
         \x20 boot 1                                                     via\n\
         \x20                                                            ^\n",
    ),
    // the 60 bytes before the mark are the whole line
    (
        "boot 1                                                      via",
        "line 1: expected `by` or the end of the line\n\
         \x20 boot 1                                                      via\n\
         \x20                                                             ^\n",
    ),
    // one byte is left out
    (
        "boot 1                                                       via",
        "line 1: expected `by` or the end of the line\n\
         \x20 ..oot 1                                                       via\n\
         \x20                                                               ^\n",
    ),
    (
        "crash xxxxxxxxxxxxxxxxxxxxxxxxxxxxxxxxxxxxxxxxxxxxxxxxxxxxxxxxxxxxxxxxxxxxxxxxxxxxxxxxxxxxxxxxxxxxxxxxxxx",
        "line 1: expected the id of a node; it is a number from 0 to 4294967295\n\
         \x20 crash xxxxxxxxxxxxxxxxxxxxxxxxxxxxxxxxxxxxxxxxxxxxxxxxxxxxxxxxxxxx\
         xxxxxxxxxxxxxxxxxxxxxxxxxxxxxxxxxxxxxxx\n\
         \x20       ^\n",
    ),
    (
        "crash xxxxxxxxxxxxxxxxxxxxxxxxxxxxxxxxxxxxxxxxxxxxxxxxxxxxxxxxxxxxxxxxxxxxxxxxxxxxxxxxxxxxxxxxxxxxxxxxxxxx",
        "line 1: expected the id of a node; it is a number from 0 to 4294967295\n\
         \x20 crash xxxxxxxxxxxxxxxxxxxxxxxxxxxxxxxxxxxxxxxxxxxxxxxxxxxxxxxxxxxx\
         xxxxxxxxxxxxxxxxxxxxxxxxxxxxxxxxxxxxxxxx\n\
         \x20       ^\n",
    ),
    (
        "crash xxxxxxxxxxxxxxxxxxxxxxxxxxxxxxxxxxxxxxxxxxxxxxxxxxxxxxxxxxxxxxxxxxxxxxxxxxxxxxxxxxxxxxxxxxxxxxxxxxxxx",
        "line 1: expected the id of a node; it is a number from 0 to 4294967295\n\
         \x20 crash xxxxxxxxxxxxxxxxxxxxxxxxxxxxxxxxxxxxxxxxxxxxxxxxxxxxxxxxxxxx\
         xxxxxxxxxxxxxxxxxxxxxxxxxxxxxxxxxxxxxxxx..\n\
         \x20       ^\n",
    ),
];

/// The control characters are those up to U+001F, and U+007F to U+009F. Each is shown by its bytes in UTF-8.
static CHARACTERS: [Row; 8] = [
    (
        "crash \u{1f}x",
        "line 1: expected the id of a node; it is a number from 0 to 4294967295\n\
         \x20 crash \\x1fx\n\
         \x20       ^\n",
    ),
    (
        "crash !x",
        "line 1: expected the id of a node; it is a number from 0 to 4294967295\n\
         \x20 crash !x\n\
         \x20       ^\n",
    ),
    (
        "crash ~x",
        "line 1: expected the id of a node; it is a number from 0 to 4294967295\n\
         \x20 crash ~x\n\
         \x20       ^\n",
    ),
    (
        "crash \u{7f}x",
        "line 1: expected the id of a node; it is a number from 0 to 4294967295\n\
         \x20 crash \\x7fx\n\
         \x20       ^\n",
    ),
    (
        "crash \u{80}x",
        "line 1: expected the id of a node; it is a number from 0 to 4294967295\n\
         \x20 crash \\xc2\\x80x\n\
         \x20       ^\n",
    ),
    (
        "crash \u{81}x",
        "line 1: expected the id of a node; it is a number from 0 to 4294967295\n\
         \x20 crash \\xc2\\x81x\n\
         \x20       ^\n",
    ),
    (
        "crash \u{9f}x",
        "line 1: expected the id of a node; it is a number from 0 to 4294967295\n\
         \x20 crash \\xc2\\x9fx\n\
         \x20       ^\n",
    ),
    (
        "crash \u{a1}x",
        "line 1: expected the id of a node; it is a number from 0 to 4294967295\n\
         \x20 crash \u{a1}x\n\
         \x20       ^\n",
    ),
];

/// A line has 64 random words of one digit, and then one more, which may be no number.
static WORDS: [Row; 3] = [
    (
        "words 7 7 7 7 7 7 7 7 7 7 7 7 7 7 7 7 7 7 7 7 7 7 7 7 7 7 7 7 7 7 7 7 \
         7 7 7 7 7 7 7 7 7 7 7 7 7 7 7 7 7 7 7 7 7 7 7 7 7 7 7 7 7 7 7 7 7",
        "line 1: expected the end of the line, since an event has 64 random words at most\n\
         \x20 ..7 7 7 7 7 7 7 7 7 7 7 7 7 7 7 7 7 7 7 7 7 7 7 7 7 7 7 7 7 7 7\n\
         \x20                                                               ^\n",
    ),
    (
        "words 7 7 7 7 7 7 7 7 7 7 7 7 7 7 7 7 7 7 7 7 7 7 7 7 7 7 7 7 7 7 7 7 \
         7 7 7 7 7 7 7 7 7 7 7 7 7 7 7 7 7 7 7 7 7 7 7 7 7 7 7 7 7 7 7 7 x",
        "line 1: expected the end of the line, since an event has 64 random words at most\n\
         \x20 ..7 7 7 7 7 7 7 7 7 7 7 7 7 7 7 7 7 7 7 7 7 7 7 7 7 7 7 7 7 7 x\n\
         \x20                                                               ^\n",
    ),
    (
        "words 7 7 7 7 7 7 7 7 7 7 7 7 7 7 7 7 7 7 7 7 7 7 7 7 7 7 7 7 7 7 7 7 \
         7 7 7 7 7 7 7 7 7 7 7 7 7 7 7 7 7 7 7 7 7 7 7 7 7 7 7 7 7 7 7 7 7 7",
        "line 1: expected the end of the line, since an event has 64 random words at most\n\
         \x20 ..7 7 7 7 7 7 7 7 7 7 7 7 7 7 7 7 7 7 7 7 7 7 7 7 7 7 7 7 7 7 7 7\n\
         \x20                                                               ^\n",
    ),
];

/// Whether this is told of a scenario file.
fn is_told(alloc: Global, file: &str, told: &str) -> bool {
    match scenario_reasons(alloc, file.as_bytes()) {
        Ok(text) => text.as_str() == told,
        Err(_) => false,
    }
}

#[test]
fn what_does_not_fit_is_left_out(rt: HostRuntime) {
    for (file, told) in &LONG {
        assert!(rt; is_told(rt.alloc(), file, told), "{told}");
    }
}

#[test]
fn control_characters_are_shown_by_their_bytes(rt: HostRuntime) {
    for (file, told) in &CHARACTERS {
        assert!(rt; is_told(rt.alloc(), file, told), "{told}");
    }
}

#[test]
fn a_random_word_too_many_is_told(rt: HostRuntime) {
    for (file, told) in &WORDS {
        assert!(rt; is_told(rt.alloc(), file, told), "{told}");
    }
}
