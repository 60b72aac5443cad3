ghost use Rattle.ov_hall.specs.Theorems.{EveryLogIsExact, WhatIsSeenStays};

/// Whatever the drivers of a hall do, in whatever order: what each filed report says is true; each entry of the journal
/// and each report has its driver; and all of them are drivers of the hall.
pub fn every_log_is_exact()
    ensures { EveryLogIsExact }
{}

/// What a pass has seen stays, whatever comes after it: its journal and its reports, with their drivers, begin those of
/// each longer log.
pub fn what_is_seen_stays()
    ensures { WhatIsSeenStays }
{}
