use crate::picture_layout::{HEADING, LEFT, Layout, WIDTH, layout_of, number};
use crate::picture_style::{STYLE, tone};
use crate::plot_panel::{Panel, push_panel};
use ov_ids::OutOfMemory;
use ov_sweep_rows::Phase;
use ov_sweep_summary::{
    SettingName, SettingRuns, differing, phase_name, push_swept_command, run_counts, setting_name,
};
use std::alloc::{AllocError, Global};
use std::fmt::Write;

/// The title of the picture.
const TITLE: &str = "How few crashes split the overlay, run by run";

/// The picture of a sweep, as SVG: a column for each setting, and in it a dot for each run at its k, after settling,
/// after the crash and after healing beside one another, each with the share of runs that are split above it, with its
/// interval as a bar. If rows have costs, strips below show what broadcasts came to: the means of the summary, each with
/// a bar from the least run to the most. It is 1,200 pixels wide, has no scripts and no fonts of its own, and is light,
/// or dark where the reader prefers it. OutOfMemory (99) if an allocation is refused.
pub fn svg_text(alloc: Global, settings: &[SettingRuns<'_>]) -> Result<String, OutOfMemory> {
    let mut text = String::new(alloc);
    push_svg(alloc, &mut text, settings)?;
    Ok(text)
}

/// Appends the picture.
fn push_svg(
    alloc: Global,
    text: &mut String,
    settings: &[SettingRuns<'_>],
) -> Result<(), AllocError> {
    let differing = differing(alloc, settings)?;
    let layout = layout_of(alloc, settings, differing.len())?;
    push_head(
        text,
        &layout,
        settings.len().div_ceil(layout.columns.max(1)),
    )?;
    push_heading(alloc, text, settings, &differing)?;
    push_panels(alloc, text, &layout, settings, &differing)?;
    text.push_str("</g>\n</svg>\n")
}

/// Appends all panels.
fn push_panels(
    alloc: Global,
    text: &mut String,
    layout: &Layout,
    settings: &[SettingRuns<'_>],
    differing: &[usize],
) -> Result<(), AllocError> {
    text.push_str("<g class=\"dots\">\n")?;
    for (place, columns) in settings.chunks(layout.columns.max(1)).enumerate() {
        let panel = Panel {
            layout,
            top: HEADING + number(place) * layout.panel(),
        };
        push_panel(alloc, text, panel, columns, differing)?;
        push_columns_name(text, panel, differing)?;
    }
    Ok(())
}

/// Appends what stands before everything that is drawn of so many panels.
fn push_head(text: &mut String, layout: &Layout, panels: usize) -> Result<(), AllocError> {
    let height = HEADING + number(panels) * layout.panel();
    write!(
        text,
        "<svg xmlns=\"http://www.w3.org/2000/svg\" width=\"{WIDTH}\" height=\"{height}\" \
         viewBox=\"0 0 {WIDTH} {height}\" role=\"img\">\n<title>{TITLE}</title>\n"
    )?;
    text.push_str(STYLE)?;
    text.push_str("<rect class=\"ground\" width=\"100%\" height=\"100%\"/>\n")
}

/// Appends the title, what was swept, and what the tones of the dots mean.
fn push_heading(
    alloc: Global,
    text: &mut String,
    settings: &[SettingRuns<'_>],
    differing: &[usize],
) -> Result<(), AllocError> {
    let (fewest, most) = run_counts(settings);
    write!(
        text,
        "<text class=\"heading\" x=\"20\" y=\"34\">{TITLE}</text>\n<text x=\"20\" y=\"58\">"
    )?;
    push_swept_command(alloc, text, settings, differing)?;
    text.push_str("</text>\n")?;
    push_legend(text)?;
    text.push_str("<text x=\"390\" y=\"84.5\">one dot is one run, ")?;
    if fewest == most {
        write!(text, "{most} runs of each setting")?;
    } else {
        write!(text, "{fewest} to {most} runs of a setting")?;
    }
    text.push_str("; above them the share that is split, with its 95 % interval</text>\n")
}

/// Appends a dot and its meaning for each phase.
fn push_legend(text: &mut String) -> Result<(), AllocError> {
    text.push_str("<g class=\"dots\">\n")?;
    for (phase, x) in [
        (Phase::Settle, 24.0),
        (Phase::Crash, 150.0),
        (Phase::Heal, 284.0),
    ] {
        let class = tone(phase);
        let name = phase_name(phase);
        let behind = x + 10.0;
        write!(
            text,
            "<path class=\"{class}\" stroke-width=\"8\" d=\"M{x} 80h0\"/>\n\
             <text class=\"{class}\" x=\"{behind}\" y=\"84.5\">after {name}</text>\n"
        )?;
    }
    text.push_str("</g>\n")
}

/// Appends what the horizontal axis shows: the options in which settings differ, with their units.
fn push_columns_name(
    text: &mut String,
    panel: Panel<'_>,
    differing: &[usize],
) -> Result<(), AllocError> {
    let y = panel.top + panel.layout.panel() - 22.0;
    write!(text, "<text x=\"{LEFT}\" y=\"{y:.1}\">")?;
    text.push_str(if differing.is_empty() {
        "all runs have one setting"
    } else {
        "settings: "
    })?;
    for (place, option) in differing.iter().enumerate() {
        text.push_str(if place == 0 { "" } else { ", " })?;
        push_option_name(text, *option)?;
    }
    text.push_str("</text>\n")
}

/// Appends the name of an option, with its unit if it has one.
fn push_option_name(text: &mut String, option: usize) -> Result<(), AllocError> {
    let SettingName { name, unit, .. } = setting_name(option);
    text.push_str(name)?;
    if unit.is_empty() {
        return Ok(());
    }
    write!(text, " ({unit})")
}
