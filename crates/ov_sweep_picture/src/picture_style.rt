use ov_sweep_rows::Phase;

/// The colours and letters of the picture: for a light background, and for a dark one where the reader prefers it.
pub(crate) const STYLE: &str = "\
<style>
text{font-family:system-ui,sans-serif;font-size:13px;fill:#1f2933}
.heading{font-size:20px;font-weight:600}
.small{font-size:11px}
.end{text-anchor:end}
.middle{text-anchor:middle}
.ground{fill:#ffffff}
.zero{fill:#f4ece6}
.line{stroke:#dfe4e9;stroke-width:1}
.axis{stroke:#5b6770;stroke-width:1}
.dots path{fill:none;stroke-linecap:round}
path.settle{stroke:#0072b2}
path.crash{stroke:#d55e00}
path.heal{stroke:#00845f}
text.settle{fill:#0072b2}
text.crash{fill:#b84f00}
text.heal{fill:#00734f}
@media (prefers-color-scheme:dark){
text{fill:#e6eaee}
.ground{fill:#14181c}
.zero{fill:#2b2420}
.line{stroke:#2f373e}
.axis{stroke:#98a4ae}
path.settle{stroke:#56b4e9}
path.crash{stroke:#ff9e4a}
path.heal{stroke:#4fd6a8}
text.settle{fill:#56b4e9}
text.crash{fill:#ff9e4a}
text.heal{fill:#4fd6a8}
}
</style>
";

/// The class that gives what is drawn of a phase its tone.
pub(crate) fn tone(phase: Phase) -> &'static str {
    match phase {
        Phase::Settle => "settle",
        Phase::Crash => "crash",
        Phase::Heal => "heal",
    }
}
