ghost use Rattle.std.specs.Prelude.{◌≡◌, None, max, IfOk, IfErr};
ghost use Rattle.ov_scenario.specs.Code.Judging.{drivers_from, first_in, params_in, refill_in, scale_in, seed_in};
ghost use Rattle.ov_scenario.specs.RunLines.{lines_that_run};
ghost use Rattle.ov_scenario.specs.Scenarios.{AreFaultless, IsReadingFault, IsScenario, stated_lines};

use crate::judged_line_iterator::Judging;
use crate::lines_to_run::LinesToRun;
use crate::scenario::Scenario;
use crate::scenario_fault::ScenarioFault;
use crate::whole_run_settings::Settings;
use std::alloc::Global;

/// Reads a scenario file, whose form is chosen here. The lines are judged, and none is kept: a line to run is read
/// again from these bytes when it is taken. If a line is at fault, the first one is returned, and its fault has the
/// number (70 or 21); no line after it is judged. OutOfMemory (99) is returned if an allocation was refused.
pub fn read_scenario<'a>(alloc: Global, bytes: &'a [u8]) -> Result<Scenario<'a>, ScenarioFault>
    ensures scenario { IfOk result (λ s. IsScenario bytes.now s) }
    ensures file_lines { IfOk result (λ s. s.lines.file_lines ≡ lines_that_run bytes.now) }
    ensures fault { IfErr result (λ fault. IsReadingFault bytes.now fault) }
{
    let settings = match read_settings(alloc, bytes) {
        Ok(settings) => settings,
        Err(fault) => return Err(fault),
    };
    let params = settings.params();
    let seed = settings.seed();
    let drivers = settings.drivers();
    let lines = LinesToRun::new(bytes, seed);
    Ok(Scenario {
        params,
        seed,
        drivers,
        lines,
    })
}

/// Judges the lines of a file, and returns what they give for the whole run, or the first one that is at fault. Those
/// after that are not judged.
fn read_settings(alloc: Global, bytes: &[u8]) -> Result<Settings, ScenarioFault>
    ensures faultless { IfOk result (λ _. AreFaultless (stated_lines bytes.now)) }
    ensures params { IfOk result (λ settings. settings.params ≡ first_in params_in (stated_lines bytes.now)) }
    ensures seed { IfOk result (λ settings. settings.seed ≡ first_in seed_in (stated_lines bytes.now)) }
    ensures refill { IfOk result (λ settings. settings.refill ≡ first_in refill_in (stated_lines bytes.now)) }
    ensures scale { IfOk result (λ settings. settings.scale ≡ first_in scale_in (stated_lines bytes.now)) }
    ensures drivers { IfOk result (λ settings. settings.drivers ≡ max 1 (drivers_from None (stated_lines bytes.now))) }
    ensures fault { IfErr result (λ fault. IsReadingFault bytes.now fault) }
{
    let mut judging = Judging::new(alloc, bytes)?;
    let mut settings = Settings::nothing();
    while let Some(judged) = judging.next_line(alloc)? {
        match judged.faulty() {
            Some(first) => return Err(ScenarioFault::Line(first)),
            None => settings = settings.with(&judged.line, judging.open_block()),
        }
    }
    Ok(settings)
}
