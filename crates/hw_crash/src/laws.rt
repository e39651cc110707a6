//! The laws.

ghost use Rattle.hw_crash.specs.Laws.{CrashesKeepOneLine, NothingToldIsLost, ToldUnitsApart, WhatWasToldComesBack};
ghost use Rattle.hw_crash.specs.Cuts.{CutLogsAreMended};
ghost use Rattle.hw_crash.specs.Left.{WhatIsLeftStarts, WhatIsLeftIsReady};
ghost use Rattle.hw_crash.specs.Sample.{APowerFailure};

/// A node is on a disk, and tells others only what the disk has for sure. Then whatever power failures leave of its
/// log, its own units are on one line there, all that it told is in it, and no two different units by it of one number
/// ever went out. Whoever sends it a unit of its own that it told brings it nothing new.
pub fn crashes_keep_one_line()
    ensures kept { CrashesKeepOneLine }
    ensures told { NothingToldIsLost }
    ensures apart { ToldUnitsApart }
    ensures back { WhatWasToldComesBack }
{}

/// Of the file of a log a first part is left that has its header. Mended, it is the log of the first of its vertices, of
/// no fewer than were whole in that part.
pub fn cut_logs_are_mended()
    ensures { CutLogsAreMended }
{}

/// After a power failure a node starts from what is left of its log, mended. It is ready as a first node has to be: its
/// own units are on one line, and its log is that of its journal. All that might go out of what the disk had for sure is
/// still there.
pub fn what_is_left_is_ready()
    ensures starts { WhatIsLeftStarts }
    ensures ready { WhatIsLeftIsReady }
{}

/// A validator that makes a unit, loses it with the power before it told it, and makes another one of its number.
pub fn a_power_failure()
    ensures { APowerFailure }
{}
