//! Laws of replays.

ghost use Rattle.hw_replay.specs.Laws.{ReplayDelivers, MidwayLeads};

/// What a replay leaves is the node to which all entries of its log were delivered, in order. Each unit of its
/// journal has a signature of 32 bytes.
pub fn a_replay_delivers()
    ensures { ReplayDelivers }
{}

/// However far a replay has come, the entries that are still to come leave what the whole log leaves.
pub fn a_replay_is_led_on()
    ensures { MidwayLeads }
{}
