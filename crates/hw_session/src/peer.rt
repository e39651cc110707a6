//! What a node does alike, whether it serves a peer or drives a session with it.

ghost use Rattle.std.specs.Prelude.{◌≡◌, ℕ, true, IfOk, IfErr, OnOk};
ghost use Rattle.hw_types.specs.{Graph.{digest_eq}, Spelling.{VertexFits, instance_of}};
ghost use Rattle.hw_link.specs.Links.{IsLinkCounted};
ghost use Rattle.hw_session.specs.{Outside.{reading}, Serving.{is_clash}, Handling.{IsOfOther, Receives, IsLogCounted}};

use crate::fault::AcceptFault;
use crate::node::Node;
use hw_io::Files;
use hw_link::SessionEnd;
use hw_types::{Cause, Digest, Receipt, Vertex};

impl Node {
    /// The digest of its configuration.
    pub(crate) fn instance(&self) -> Digest
        ensures { result ≡ instance_of self.now.core.config }
    {
        *self.core.instance()
    }

    /// The own instance, where the peer is of it. Another one ends the session.
    pub(crate) fn own_instance(&self, peers: Digest) -> Result<Digest, SessionEnd>
        ensures own { IfOk result (λ own. own ≡ instance_of self.now.core.config) }
        ensures same { OnOk result (digest_eq peers (instance_of self.now.core.config) ≡ true) }
        ensures other { IfErr result (IsOfOther self.now peers) }
        ensures link { (count : ℕ) → IsLinkCounted count count result }
    {
        let own = self.instance();
        if peers == own {
            Ok(own)
        } else {
            Err(SessionEnd::WrongInstance)
        }
    }

    /// Takes a peer's vertex: its receipt, or None where it was refused and the session goes on. A clash ends the
    /// session, and so does a fault of the log.
    pub(crate) fn receive<F: Files>(
        &mut self,
        files: &mut F,
        vertex: Vertex,
    ) -> Result<Option<Receipt>, SessionEnd>
        requires { VertexFits vertex }
        ensures received { Receives self.old vertex self.new F.tells (F.held files.old) (F.held files.new) result }
        ensures appends { IsLogCounted (F.append_faults files.old) (F.append_faults files.new) result }
        ensures link { (count : ℕ) → IsLinkCounted count count result }

        ensures reading { reading (F.begun files.new) (F.allowance files.new) (F.read_faults files.new) ≡ reading (F.begun files.old) (F.allowance files.old) (F.read_faults files.old) }
    {
        match self.accept(files, vertex) {
            Ok(receipt) => Ok(Some(receipt)),
            Err(AcceptFault::Refused(cause)) => {
                if is_clash(&cause) {
                    Err(SessionEnd::Clash)
                } else {
                    Ok(None)
                }
            }
            Err(AcceptFault::AppendFault) => Err(SessionEnd::AppendFault),
            Err(AcceptFault::OutOfMemory) => Err(SessionEnd::OutOfMemory),
        }
    }
}

/// Whether two different units have one digest.
fn is_clash(cause: &Cause) -> bool
    ensures { result ≡ is_clash cause.now }
{
    matches!(cause, Cause::Clash { .. })
}
