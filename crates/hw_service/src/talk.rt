//! A session of a node with a peer, whatever they say to each other.

ghost use Rattle.std.specs.Prelude.{◌≡◌, Bool};
ghost use Rattle.hw_link.specs.declared.end.SessionEnd.{SessionEnd};
ghost use Rattle.hw_session.specs.Handling.{IsLogEnd, IsLinkEnd};
ghost use Rattle.hw_service.specs.Talk.{Talker, talker, HasGrown};

use hw_io::{Door, Files};
use hw_session::{Node, SessionEnd};

/// How a node talks to a peer in a session.
pub trait Talk: Drop {
    /// What a session does with the node, its files and the door, by how it ends. The contents of the files are known
    /// where the word is true.
    ghost talks: { Self → Bool → Talker → Talker → SessionEnd → Type 0 };

    /// Holds one session through the door, and answers how it ended. An accepted vertex is appended to the journal, and
    /// then its entry to the log.
    fn talk<F: Files, D: Door>(&self, node: &mut Node, files: &mut F, door: &mut D) -> SessionEnd
        ensures talked { talks self.now F.tells (talker F.Files D.Door node.old files.old door.old) (talker F.Files D.Door node.new files.new door.new) result }
        ensures grown { HasGrown node.old.core node.new.core }
        ensures link { IsLinkEnd (D.faults door.old) (D.faults door.new) result }
        ensures appends { IsLogEnd (F.append_faults files.old) (F.append_faults files.new) result }

        ensures reads { F.read_faults files.new ≡ F.read_faults files.old };
}
