use crate::grow_command::told;
use crate::grow_command_fault::GrowCommandFault;
use crate::picture_file::write_picture;
use ov_arguments::{AskedPhase, Printed, SplitAsked, SweepRequest};
use ov_ids::OutOfMemory;
use ov_io::Sink;
use ov_sweep_picture::svg_text;
use ov_sweep_rows::{Phase, Row};
use ov_sweep_summary::{
    SplitQuestion, few_runs_text, repeated_runs, settings_of, split_answer_text, summary_text,
};
use std::fs::File;

/// Prints the summary of these rows and the answer to what is asked of them, and writes their picture, as far as they
/// are asked for. Prints why it ended before its end.
pub(crate) fn print_report(
    rt: &HostRuntime,
    request: &SweepRequest,
    rows: &[Row],
    picture: &mut Option<File>,
) -> Result<(), GrowCommandFault> {
    if let Err(fault) = print_texts(rt, request, rows) {
        return Err(told(rt, fault));
    }
    let Some(file) = picture.take() else {
        return Ok(());
    };
    match picture_of(rt, rows) {
        Ok(text) => write_picture(rt, file, text.as_str()),
        Err(OutOfMemory) => Err(told(rt, GrowCommandFault::OutOfMemory)),
    }
}

/// Prints the summary of these rows, and the answer to what is asked of them.
fn print_texts(
    rt: &HostRuntime,
    request: &SweepRequest,
    rows: &[Row],
) -> Result<(), GrowCommandFault> {
    if request.printed == Printed::Summary {
        print_summary(rt, rows)?;
    }
    match &request.question {
        Some(asked) => print_answer(rt, *asked, rows, request.printed == Printed::Summary),
        None => Ok(()),
    }
}

/// Prints the summary of these rows.
fn print_summary(rt: &HostRuntime, rows: &[Row]) -> Result<(), GrowCommandFault> {
    let settings = settings_of(rt.alloc(), rows)?;
    let text = summary_text(rt.alloc(), &settings)?;
    Ok(Sink::new(rt.stdout()).write_all(text.as_bytes())?)
}

/// Prints the answer to what is asked of these rows, behind an empty line if something stands before it.
fn print_answer(
    rt: &HostRuntime,
    asked: SplitAsked,
    rows: &[Row],
    is_behind: bool,
) -> Result<(), GrowCommandFault> {
    let settings = settings_of(rt.alloc(), rows)?;
    let question = SplitQuestion {
        phase: phase_of(asked.after),
        bound: asked.bound,
    };
    let text = split_answer_text(rt.alloc(), &settings, &question)?;
    let mut sink = Sink::new(rt.stdout());
    if is_behind {
        sink.write_all(b"\n")?;
    }
    Ok(sink.write_all(text.as_bytes())?)
}

/// The phase that is asked for.
fn phase_of(after: AskedPhase) -> Phase {
    match after {
        AskedPhase::Settle => Phase::Settle,
        AskedPhase::Crash => Phase::Crash,
        AskedPhase::Heal => Phase::Heal,
    }
}

/// The picture of these rows.
fn picture_of(rt: &HostRuntime, rows: &[Row]) -> Result<String, OutOfMemory> {
    let settings = settings_of(rt.alloc(), rows)?;
    svg_text(rt.alloc(), &settings)
}

/// Says on standard error, before anything is grown, that the runs of a setting are too few for a yes to what is asked.
pub(crate) fn tell_too_few(rt: &HostRuntime, request: &SweepRequest) {
    let Some(asked) = &request.question else {
        return;
    };
    if let Ok(text) = few_runs_text(rt.alloc(), request.runs, asked.bound) {
        let _ = eprint!(rt; "{text}");
    }
}

/// Says on standard error if there are no rows.
pub(crate) fn tell_none(rt: &HostRuntime, rows: &[Row]) {
    if rows.is_empty() {
        let _ = eprintln!(rt; "there are no rows: what was read has headers alone");
    }
}

/// Says on standard error how many rows have the setting and the seed of an earlier one.
pub(crate) fn tell_repeated(rt: &HostRuntime, rows: &[Row]) -> Result<(), GrowCommandFault> {
    match repeated_runs(rt.alloc(), rows) {
        Ok(None) => Ok(()),
        Ok(Some(repeated)) => {
            let (count, first) = (repeated.count, repeated.first);
            let _ = eprintln!(rt;
                "rows with the setting and the seed of an earlier one, which count as further runs: {count}; \
                 the first is {first}"
            );
            Ok(())
        }
        Err(OutOfMemory) => Err(told(rt, GrowCommandFault::OutOfMemory)),
    }
}
