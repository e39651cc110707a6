//! What is decided stays decided.

ghost use Rattle.hw_types.specs.Spelling.{VertexFits};
ghost use Rattle.hw_core.specs.Decided.{decided_in};
ghost use Rattle.hw_safety.specs.Chain.{Begins};

use hw_core::{Core, Refused};
use hw_safety::{a_detector_decides, safety_decides};
use hw_types::{Receipt, Vertex};

/// Delivers a vertex. Whatever is answered, the decided blocks begin with those of before. So a host may follow them by
/// their numbers.
pub fn follow(core: &mut Core, vertex: Vertex, verdict: bool) -> Result<Receipt, Refused>
    requires { VertexFits vertex }
    ensures { Begins (decided_in core.old) (decided_in core.new) }
{
    safety_decides();
    a_detector_decides();
    core.deliver(vertex, verdict)
}
