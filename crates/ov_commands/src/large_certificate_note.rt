use ov_ids::NodeId;

/// With more ids than these in its paths a certificate is large: its file has some 50 MB or more. (Chosen here.)
const MANY_IDS: u64 = 10_000_000;

const MEGABYTE: u64 = 1_000_000;

/// How such a certificate may become shorter.
const SHORTER: &str =
    "where ids follow a ring or a path, others make it shorter, as `overlay import --large` gives";

/// The least number of two digits, of three and so on, as far as ids have so many.
const POWERS: [u32; 9] = [
    10,
    100,
    1_000,
    10_000,
    100_000,
    1_000_000,
    10_000_000,
    100_000_000,
    1_000_000_000,
];

/// Says on standard error how large the file of a certificate is that is about to be written, and how it may become
/// shorter, if it is large. Its paths have so many ids, none above `highest`. Behind each stands a comma or a bracket.
pub(crate) fn tell_size(rt: &HostRuntime, ids: u64, highest: NodeId) {
    if ids <= MANY_IDS {
        return;
    }
    let bytes = ids.saturating_mul(digits(highest.number()).saturating_add(1));
    let size = bytes / MEGABYTE;
    let _ = eprintln!(rt; "the certificate has {ids} ids in its paths, about {size} MB; {SHORTER}");
}

/// How many digits a number has.
fn digits(number: u32) -> u64 {
    let mut digits = 1u64;
    for power in &POWERS {
        if number >= *power {
            digits = digits.saturating_add(1);
        }
    }
    digits
}
