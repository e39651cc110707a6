//! Small meetings, by the definitions.

ghost use Rattle.hw_meeting.specs.Samples.{ThatASummaryIsRead, ThatTornValidatorsRise, ThatABlockIsALine, ThatAUnitBreaksIt, ThatALineIsOwed};

/// What the definitions make of small meetings.
pub fn small_meetings_are_worked_out()
    ensures summary { ThatASummaryIsRead }
    ensures torn { ThatTornValidatorsRise }
    ensures line { ThatABlockIsALine }
    ensures broken { ThatAUnitBreaksIt }
    ensures owed { ThatALineIsOwed }
{}
