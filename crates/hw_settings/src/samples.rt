//! Small settings, read by the definitions.

ghost use Rattle.hw_settings.specs.Samples.{ThatSettingsAreRead, ThatTheFormIsMissed, ThatALimitIsNamed};

/// What the definitions make of small settings.
pub fn small_settings_are_read()
    ensures read { ThatSettingsAreRead }
    ensures form { ThatTheFormIsMissed }
    ensures limit { ThatALimitIsNamed }
{}
