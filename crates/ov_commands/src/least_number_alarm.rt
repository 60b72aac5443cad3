//! The status that tells a caller that an answer is below what is asked for, or that there is none.
ghost use Rattle.std.specs.Prelude.{◌≡◌, ◌⊎◌, nat_lt, if◌then◌else◌};
ghost use Rattle.ov_commands.specs.Statuses.{IsAlarmStatus, alarm_status};

use ov_answers::ReportOrRefusal;

/// The status of the alarm. (Chosen here.)
const ALARM: u8 = 3;

/// The status of an analysis that was answered so, if this least number is asked for. Prints why there is an alarm.
pub(crate) fn alarm_status(rt: &HostRuntime, least: Option<u32>, answered: ReportOrRefusal) -> u8
    ensures status { result ≡ alarm_status least answered }
    ensures few { IsAlarmStatus least result }
{
    let Some(asked) = least else {
        return 0;
    };
    match answered {
        ReportOrRefusal::Report { k } => status_of_number(rt, k, asked),
        ReportOrRefusal::NoNodes | ReportOrRefusal::BadGroup => {
            let _ = eprintln!(rt; "there is no k, and --at-least asks for {asked}");
            ALARM
        }
    }
}

/// The status of an answer with this number, if a least number is asked for. Prints why there is an alarm.
fn status_of_number(rt: &HostRuntime, k: u32, asked: u32) -> u8
    ensures status { result ≡ (if nat_lt k asked then 3 else 0) }
    ensures few { (result ≡ 0) ⊎ (result ≡ 3) }
{
    if k < asked {
        let _ = eprintln!(rt; "k is {k}, and --at-least asks for {asked}");
        return ALARM;
    }
    0
}
