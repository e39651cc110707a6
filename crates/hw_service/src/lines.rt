//! The lines that are written of a run.

ghost use Rattle.std.specs.{Prelude.{◌≡◌, ℕ, ◌++◌, IfOk, IfErr, OnOk, OnErr}, Io.KnownBytes.{Appends}};
ghost use Rattle.hw_io.specs.Sinks.{AppendsPrefix};
ghost use Rattle.hw_service.specs.Counts.{IsWriteCounted};
ghost use Rattle.hw_service.specs.Lines.{end_words, line_of_end, limits_line, closing_text};
ghost use Rattle.hw_service.specs.Told.{TellsEnd, is_link_fault};
ghost use Rattle.hw_service.specs.Written.{IsOfOutput, Writes, TellsClash};

use crate::fault::ServiceFault;
use hw_explain::report;
use hw_io::{IoFault, Sink, write_all};
use hw_replay::{Fanout, put_drops};
use hw_session::{ClashUnits, Node, SessionEnd};
use hw_text::{end_line, put_numbered, put_word};
use hw_types::{Bytes, OutOfMemory};
use std::alloc::Global;

/// Writes these bytes.
pub(crate) fn write_bytes<S: Sink>(out: &mut S, bytes: &[u8]) -> Result<(), ServiceFault>
    ensures written { Writes (S.taken out.old) (S.taken out.new) bytes.now result }
    ensures fault { IfErr result IsOfOutput }
    ensures writes { IsWriteCounted (S.faults out.old) (S.faults out.new) result }
{
    match write_all(out, bytes) {
        Ok(()) => Ok(()),
        Err(IoFault::Failed) => Err(ServiceFault::Write),
        Err(IoFault::OutOfMemory) => Err(ServiceFault::OutOfMemory),
    }
}

/// Writes the line on how the session of this number ended, unless it ended as Done. Answers whether a call of the
/// door failed in it. A session that ends the run has no line.
pub(crate) fn tell_end<S: Sink>(
    alloc: Global,
    node: &Node,
    out: &mut S,
    who: &str,
    number: u64,
    end: SessionEnd,
) -> Result<bool, ServiceFault>
    ensures told { TellsEnd who.now number end node.now (S.taken out.old) (S.taken out.new) result }
    ensures writes { IsWriteCounted (S.faults out.old) (S.faults out.new) result }
{
    match end {
        SessionEnd::Done => Ok(false),
        SessionEnd::AppendFault => Err(ServiceFault::Append),
        SessionEnd::Clash => Err(clash_of(node)),
        SessionEnd::OutOfMemory => Err(ServiceFault::OutOfMemory),
        end => {
            write_end(alloc, out, who, number, end)?;
            Ok(is_link_fault(end))
        }
    }
}

/// Whether a call of the door failed in a session with this end.
fn is_link_fault(end: SessionEnd) -> bool
    ensures { result ≡ is_link_fault end }
{
    matches!(end, SessionEnd::LinkFault)
}

/// Writes the line of a session with this end.
fn write_end<S: Sink>(
    alloc: Global,
    out: &mut S,
    who: &str,
    number: u64,
    end: SessionEnd,
) -> Result<(), ServiceFault>
    ensures written { Writes (S.taken out.old) (S.taken out.new) (line_of_end who.now number end) result }
    ensures fault { IfErr result IsOfOutput }
    ensures writes { IsWriteCounted (S.faults out.old) (S.faults out.new) result }
{
    let line = line_of_end(alloc, who, number, end)?;
    write_bytes(out, line.as_slice())
}

/// The line of a session with this end.
#[tactic(auto, using(std::proofs::Common::append_assoc), unfolding(hw_text::specs::Lines::line_of))]
fn line_of_end(alloc: Global, who: &str, number: u64, end: SessionEnd) -> Result<Bytes, OutOfMemory>
    ensures { IfOk result (λ line. line ≡ line_of_end who.now number end) }
{
    let mut line = Bytes::new(alloc);
    put_word(&mut line, who)?;
    put_numbered(&mut line, " ", number)?;
    put_word(&mut line, " ")?;
    put_end(&mut line, end)?;
    end_line(&mut line)?;
    Ok(line)
}

/// Appends how a session ended, in words.
fn put_end(line: &mut Bytes, end: SessionEnd) -> Result<(), OutOfMemory>
    ensures { OnOk result (line.new ≡ line.old ++ end_words end) }
{
    match end {
        SessionEnd::EndOfInput => put_word(line, "end of input"),
        SessionEnd::WrongInstance => put_word(line, "wrong instance"),
        SessionEnd::BadFrame(at) => put_numbered(line, "bad frame at ", at),
        SessionEnd::LinkFault => put_word(line, "link fault"),
        SessionEnd::ByteLimit => put_word(line, "byte limit"),
        SessionEnd::Done | SessionEnd::AppendFault | SessionEnd::Clash | SessionEnd::OutOfMemory =>
            Ok(()),
    }
}

/// The last clash with a peer's vertex.
fn clash_of(node: &Node) -> ServiceFault
    ensures { TellsClash node.now.clash result }
{
    match (node.clash_known(), node.clash_other()) {
        (Some(known), Some(other)) => match copies(known, other) {
            Ok(units) => ServiceFault::Clash(units),
            Err(OutOfMemory) => ServiceFault::OutOfMemory,
        },
        _ => ServiceFault::OutOfMemory,
    }
}

/// A copy of the spellings of two units.
fn copies(known: &Bytes, other: &Bytes) -> Result<ClashUnits, OutOfMemory>
    ensures { IfOk result (λ units. units ≡ record { known = known.now; other = other.now }) }
{
    Ok(ClashUnits {
        known: known.copy()?,
        other: other.copy()?,
    })
}

/// The text at the end of a run: the report on the node, the consumers that were dropped, and the limits.
#[tactic(auto, using(std::proofs::Common::append_assoc), unfolding(crate::specs::Lines::closing_text))]
pub(crate) fn closing_text(
    alloc: Global,
    node: &Node,
    fanout: &Fanout,
) -> Result<Bytes, OutOfMemory>
    ensures { IfOk result (λ text. text ≡ closing_text node.now fanout.now) }
{
    let mut text = report(
        alloc,
        node.core(),
        node.refused_count(),
        node.repeat_count(),
    )?;
    put_drops(&mut text, fanout)?;
    put_limits(&mut text, node.limit_hits())?;
    Ok(text)
}

/// Appends the line with the number of vertices and own units that met a limit, if some did.
#[tactic(auto, using(std::proofs::Common::append_assoc), unfolding(hw_text::specs::Lines::line_of))]
fn put_limits(text: &mut Bytes, count: u64) -> Result<(), OutOfMemory>
    ensures { OnOk result (text.new ≡ text.old ++ limits_line count) }
{
    if count > 0 {
        put_numbered(text, "limits ", count)?;
        end_line(text)?;
    }
    Ok(())
}
