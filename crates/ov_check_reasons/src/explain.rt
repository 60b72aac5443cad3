use crate::count_cut_and_side_words::tell_frame;
use crate::fault_phrases::{name_fault, name_refusal};
use crate::refused_file_words::tell_refusal;
use crate::wrong_entries::{tell_entry, tell_extra};
use ov_cert::{Cert, CheckFault};
use ov_certfile::Filed;
use ov_check::Outcome;
use ov_ids::OutOfMemory;
use std::alloc::Global;

/// Why the outcome of a file is not that its certificate holds, in one line without a line feed: the fault in words,
/// with the nodes that it names, and then the place in the file where it shows. If the certificate holds the text is
/// empty.
///
/// `OutOfMemory` (99): an allocation was refused.
pub fn reasons(alloc: Global, outcome: &Outcome) -> Result<String, OutOfMemory> {
    let mut text = String::new(alloc);
    tell_outcome(alloc, &mut text, outcome)?;
    Ok(text)
}

fn tell_outcome(alloc: Global, text: &mut String, outcome: &Outcome) -> Result<(), OutOfMemory> {
    match outcome {
        Outcome::Holds(_) => Ok(()),
        Outcome::Fails { filed, fault } => {
            name_fault(text, *fault)?;
            tell_fault(alloc, text, filed, *fault)
        }
        Outcome::Refused(refusal) => {
            text.push_str(name_refusal(refusal.fault))?;
            tell_refusal(alloc, text, refusal)
        }
    }
}

/// Tells where in a certificate its fault shows.
fn tell_fault(
    alloc: Global,
    text: &mut String,
    filed: &Filed,
    fault: CheckFault,
) -> Result<(), OutOfMemory> {
    let graph = &filed.graph;
    let group = filed.group.as_slice();
    match (&filed.cert, fault) {
        (Cert::Split(split), CheckFault::Pair { .. } | CheckFault::Fan { .. }) => {
            tell_entry(alloc, text, graph, group, split, fault)
        }
        (Cert::Split(split), CheckFault::Extra) => tell_extra(alloc, text, graph, group, split),
        (cert, _) => tell_frame(text, graph, group, cert),
    }
}
