//! A peer's vertex.

ghost use Rattle.std.specs.Prelude.{◌≡◌, Ok, IsTrue, IfOk, IfErr, IfSome, OnOk, OnErr};
ghost use Rattle.hw_types.specs.Real.{answer_in, after_in};
ghost use Rattle.hw_types.specs.Spelling.{VertexFits};
ghost use Rattle.hw_types.specs.declared.answers.Cause.TheVariants as cause;
ghost use Rattle.hw_types.specs.declared.unit.Vertex.TheVariants as Vertices;
ghost use Rattle.hw_core.specs.Deliver.{IsRefusal};
ghost use Rattle.hw_keys.specs.Signed.{verdict_of};
ghost use Rattle.hw_log.specs.Named.{IsNameOf};
ghost use Rattle.hw_session.specs.Entry.{IsEntryOf};
ghost use Rattle.hw_session.specs.Outside.{reading};
ghost use Rattle.hw_session.specs.Accept.{clash_units, Accepts, WritesAccepted, Keeps, WritesReceipt, Counts, IsAcceptCounted, accept_fault};

use crate::entry::{NewEntry, named_entry, new_entry, put_entry};
use crate::fault::AcceptFault;
use crate::node::{ClashUnits, Node};
use hw_codec::{digest_of, encode_unit};
use hw_core::{Core, Refused, UnitRefused};
use hw_io::Files;
use hw_log::LogError;
use hw_replay::spelling_of;
use hw_types::{Bytes, Cause, Digest, OutOfMemory, Receipt, Vertex};
use std::alloc::Global;

/// The verdict on a peer's vertex, its name where it is a unit, and its entry in the log.
#[derive(Drop)]
struct Judged {
    verdict: bool,
    name: Option<Digest>,
    entry: NewEntry,
}

impl Node {
    /// Takes a peer's vertex as a session does, with the verdict that the keys give its signatures. Each of
    /// its units keeps the limits of its format.
    ///
    /// An accepted vertex goes last in the journal, and then its entry goes last in the log. One that came
    /// again is counted, and changes neither.
    ///
    /// `Refused` has the cause, which is never `OutOfMemory`. It is counted, and of a clash both spellings
    /// are kept. After `AppendFault` the vertex is in the journal alone, and the log holds a first part of
    /// its entry. `OutOfMemory` comes before anything changed, or from the append. From the append, the same
    /// holds as after `AppendFault`.
    pub fn accept<F: Files>(
        &mut self,
        files: &mut F,
        vertex: Vertex,
    ) -> Result<Receipt, AcceptFault>
        requires { VertexFits vertex }
        ensures accepted { Accepts self.old vertex self.new result }
        ensures log { IsTrue F.tells → WritesAccepted self.old vertex self.new (F.held files.old) (F.held files.new) result }
        ensures cause { IsAcceptCounted (F.append_faults files.old) (F.append_faults files.new) result }

        ensures begun { F.begun files.new ≡ F.begun files.old }
        ensures allowance { F.allowance files.new ≡ F.allowance files.old }
        ensures reads { F.read_faults files.new ≡ F.read_faults files.old }
    {
        let judged = self.judged(&vertex)?;
        match deliver_judged(&mut self.core, vertex, judged.verdict, judged.name) {
            Ok(receipt) => self.keep(files, receipt, judged.entry),
            Err(refused) => self.refuse(refused),
        }
    }

    /// The verdict on a vertex, its name where it is a unit, and its entry. A unit is hashed once for all three.
    fn judged(&self, vertex: &Vertex) -> Result<Judged, OutOfMemory>
        requires { VertexFits vertex.now }
        ensures verdict { IfOk result (λ j. j.verdict ≡ verdict_of self.now.keys vertex.now) }
        ensures name { IfOk result (λ j. IfSome j.name (IsNameOf vertex.now)) }
        ensures entry { IfOk result (λ j. IsEntryOf self.now.lasts vertex.now j.entry) }
    {
        match vertex {
            Vertex::Unit(signed) => {
                let name = digest_of(self.alloc, &signed.unit)?;
                Ok(Judged {
                    verdict: self.keys.has_signed(signed, &name),
                    name: Some(name),
                    entry: named_entry(self.alloc, &self.lasts, vertex, name)?,
                })
            }
            Vertex::Evidence(_) | Vertex::Endorsement(_) => Ok(Judged {
                verdict: self.keys.verdict(vertex)?,
                name: None,
                entry: new_entry(self.alloc, &self.lasts, vertex)?,
            }),
        }
    }

    /// Appends the entry of a vertex that has this receipt, unless it came again, which is counted.
    fn keep<F: Files>(
        &mut self,
        files: &mut F,
        receipt: Receipt,
        entry: NewEntry,
    ) -> Result<Receipt, AcceptFault>
        ensures kept { Keeps self.old receipt entry self.new result }
        ensures log { IsTrue F.tells → WritesReceipt self.old receipt entry (F.held files.old) (F.held files.new) result }
        ensures cause { IsAcceptCounted (F.append_faults files.old) (F.append_faults files.new) result }

        ensures reading { reading (F.begun files.new) (F.allowance files.new) (F.read_faults files.new) ≡ reading (F.begun files.old) (F.allowance files.old) (F.read_faults files.old) }
    {
        match receipt {
            Receipt::Repeat => {
                self.repeats = self.repeats.saturating_add(1);
                Ok(receipt)
            }
            Receipt::Admitted { .. } | Receipt::Parked { .. } | Receipt::Dropped(_) => {
                put_entry(&mut self.lasts, files, self.log.as_str(), entry)?;
                Ok(receipt)
            }
        }
    }

    /// Counts a refused vertex, and keeps a clash.
    fn refuse(&mut self, refused: Refused) -> Result<Receipt, AcceptFault>
        requires { VertexFits refused.vertex }
        ensures { Counts self.old refused.vertex refused.cause self.new result }
    {
        let told = self.count_refused(refused.cause, &refused.vertex);
        // For the prover: it is dropped by one call.
        drop(refused);
        told
    }

    /// Counts a vertex that was refused for this cause, and keeps a clash.
    fn count_refused(&mut self, why: Cause, vertex: &Vertex) -> Result<Receipt, AcceptFault>
        requires { VertexFits vertex.now }
        ensures { Counts self.old vertex.now why self.new result }
    {
        match why {
            Cause::OutOfMemory => Err(AcceptFault::OutOfMemory),
            Cause::Clash { known } => self.keep_clash(known, vertex),
            Cause::RecordsFull | Cause::ParkFull => {
                self.refused = self.refused.saturating_add(1);
                self.limited = self.limited.saturating_add(1);
                Err(AcceptFault::Refused(why))
            }
            Cause::BadSignature | Cause::Local(_) | Cause::Pair(_) => {
                self.refused = self.refused.saturating_add(1);
                Err(AcceptFault::Refused(why))
            }
        }
    }

    /// Counts a vertex that was refused because two different units have this digest, and keeps how both
    /// are spelled.
    fn keep_clash(&mut self, known: Digest, vertex: &Vertex) -> Result<Receipt, AcceptFault>
        requires { VertexFits vertex.now }
        ensures { Counts self.old vertex.now (cause.Clash known) self.new result }
    {
        let clash = clash_units(self.alloc, &self.core, &known, vertex)?;
        self.refused = self.refused.saturating_add(1);
        self.clash = Some(clash);
        Err(AcceptFault::Refused(Cause::Clash { known }))
    }
}

/// Delivers a vertex with its verdict. A unit whose verdict is right goes by its name, and isn't hashed again.
fn deliver_judged(
    core: &mut Core,
    vertex: Vertex,
    verdict: bool,
    name: Option<Digest>,
) -> Result<Receipt, Refused>
    requires fits { VertexFits vertex }
    requires name { IfSome name (IsNameOf vertex) }
    ensures accepted { IfOk result (λ receipt. answer_in core.old vertex verdict ≡ Ok receipt) }
    ensures refused { IfErr result (λ r. IsRefusal r.cause (answer_in core.old vertex verdict)) }
    ensures returned { IfErr result (λ r. r.vertex ≡ vertex) }
    ensures journal { OnOk result (core.new ≡ after_in core.old vertex verdict) }
    ensures unchanged { OnErr result (core.new ≡ core.old) }
{
    match vertex {
        Vertex::Unit(unit) => match name {
            Some(name) if verdict => match core.deliver_named(unit, name) {
                Ok(receipt) => Ok(receipt),
                Err(refused) => Err(refused_vertex(refused)),
            },
            Some(_) | None => core.deliver(Vertex::Unit(unit), verdict),
        },
        other => core.deliver(other, verdict),
    }
}

/// A refused unit as a vertex.
fn refused_vertex(refused: UnitRefused) -> Refused
    ensures { result ≡ record { cause = refused.cause; vertex = Vertices.Unit refused.unit } }
{
    let UnitRefused { cause, unit } = refused;
    let vertex = Vertex::Unit(unit);
    Refused { cause, vertex }
}

/// The two units of one digest, as they are spelled.
fn clash_units(
    alloc: Global,
    core: &Core,
    known: &Digest,
    vertex: &Vertex,
) -> Result<ClashUnits, OutOfMemory>
    requires { VertexFits vertex.now }
    ensures { IfOk result (λ clash. clash ≡ clash_units core.now vertex.now known.now) }
{
    match vertex {
        Vertex::Unit(other) => Ok(ClashUnits {
            known: spelling_of(alloc, core.unit_of(known))?,
            other: encode_unit(alloc, &other.unit)?,
        }),
        Vertex::Evidence(evidence) => Ok(ClashUnits {
            known: encode_unit(alloc, &evidence.left.unit)?,
            other: encode_unit(alloc, &evidence.right.unit)?,
        }),
        Vertex::Endorsement(_) => Ok(ClashUnits {
            known: Bytes::new(alloc),
            other: Bytes::new(alloc),
        }),
    }
}

/// What a failed append is answered as.
impl From<LogError> for AcceptFault {
    ghost from_gives = { λ error e. e ≡ accept_fault error };

    fn from(error: LogError) -> AcceptFault {
        match error {
            LogError::WriteFault => AcceptFault::AppendFault,
            _ => AcceptFault::OutOfMemory,
        }
    }
}
