use crate::component_colours::COMPONENT_COLOURS;
use crate::path_colours::PATH_COLOURS;
use std::alloc::AllocError;
use std::fmt::Write;

/// The colours and letters of a picture on a light ground.
const LIGHT: &str = "\
text{font-family:system-ui,sans-serif;font-size:12.5px;fill:#1f2933;unicode-bidi:isolate}
.heading{font-size:18px;font-weight:600}
.middle{text-anchor:middle}
.end{text-anchor:end}
.label{paint-order:stroke;stroke:#ffffff;stroke-width:3.5px;stroke-linejoin:round;stroke-opacity:0.85}
.part{font-size:13.5px;font-weight:600;text-anchor:middle}
.ground{fill:#ffffff}
.links path,.paths path{fill:none}
.side-to-cut,.within-cut,.cut-to-far{stroke:#e08a4b}
.unparted{stroke:#5b6770}
.across{stroke:#c2185b}
.nodes circle,.nodes rect{stroke:#ffffff;stroke-width:1.2}
.nodes .near{fill:#004a75;stroke:#56b4e9;stroke-width:3}
.nodes .cut{fill:#d55e00}
.nodes .far{fill:#005c42;stroke:#4fd6a8;stroke-width:3}
.nodes .unparted{fill:#5b6770}
.nodes .chosen{stroke:#111111;stroke-width:3}
.nodes .no-member{fill:#ffffff;stroke-width:1.8}
.nodes .cut.no-member{stroke:#d55e00}
.nodes .unparted.no-member{stroke:#5b6770}
";

/// What is otherwise on a dark ground.
const DARK: &str = "\
text{fill:#e6eaee}
.label{stroke:#14181c}
.ground{fill:#14181c}
.side-to-cut,.within-cut,.cut-to-far{stroke:#c97a45}
.unparted{stroke:#98a4ae}
.across{stroke:#ff6fa5}
.nodes circle,.nodes rect{stroke:#14181c}
.nodes .near{fill:#bfe3ff;stroke:#2b8fcb}
.nodes .cut{fill:#ff8c42}
.nodes .far{fill:#0b5c44;stroke:#c8f1e6}
.nodes .unparted{fill:#98a4ae}
.nodes .chosen{stroke:#ffffff}
.nodes .no-member{fill:#14181c}
.nodes .cut.no-member{stroke:#ff8c42}
.nodes .unparted.no-member{stroke:#98a4ae}
";

/// Appends the style of a picture, which is light, or dark where the reader prefers it.
pub(crate) fn push_style(text: &mut String) -> Result<(), AllocError> {
    text.push_str("<style>\n")?;
    push_component_colours(text, false)?;
    text.push_str(LIGHT)?;
    push_path_colours(text, false)?;
    text.push_str("@media (prefers-color-scheme:dark){\n")?;
    push_component_colours(text, true)?;
    text.push_str(DARK)?;
    push_path_colours(text, true)?;
    text.push_str("}\n</style>\n")
}

/// Appends the colours of components on a light or on a dark ground: of nodes, of their links, and of the edges of
/// nodes that are hollow. What is said later of near, far and hollow nodes counts in its place.
fn push_component_colours(text: &mut String, dark: bool) -> Result<(), AllocError> {
    for (number, (_, on_light, on_dark, _)) in COMPONENT_COLOURS.iter().enumerate() {
        let colour = if dark { on_dark } else { on_light };
        write!(text, ".nodes .c{number}{{fill:{colour}}}\n")?;
        write!(
            text,
            ".links .c{number},.nodes .c{number}.no-member{{stroke:{colour}}}\n"
        )?;
    }
    Ok(())
}

/// Appends the colours of paths on a light or on a dark ground.
fn push_path_colours(text: &mut String, dark: bool) -> Result<(), AllocError> {
    for (number, (on_light, on_dark)) in PATH_COLOURS.iter().enumerate() {
        let colour = if dark { on_dark } else { on_light };
        write!(text, ".p{number}{{stroke:{colour}}}\n")?;
    }
    Ok(())
}
