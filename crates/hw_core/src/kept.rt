//! A node and its deliveries.

mod readers;

ghost use Rattle.std.specs.Prelude.{◌≡◌, ◌<◌, [], true, false, length, slice_get, Some, None, Ok, Err, IfOk, IfErr, IfSome, OnOk, OnErr};
ghost use Rattle.hw_types.specs.declared.answers.Receipt.TheVariants as receipt;
ghost use Rattle.hw_types.specs.declared.unit.Vertex.TheVariants as vertex;
ghost use Rattle.hw_types.specs.Limits.{config_fault};
ghost use Rattle.hw_types.specs.Real.{CoreState, answer_in, after_in, settled_in, received_in, weight_in};
ghost use Rattle.hw_types.specs.Settled.{parked_of};
ghost use Rattle.hw_types.specs.Rules.{local_rule};
ghost use Rattle.hw_types.specs.Spelling.{VertexFits, digest_of, instance_of};
ghost use Rattle.hw_admit.specs.State.{IsStartFault};
ghost use Rattle.hw_core.specs.{Deliver.{IsRefusal, IsTaken, HasPlace}, Units.{IsNewUnit}};

use crate::decided::Decided;
use crate::digest_map::DigestMap;
use crate::endorsements::{
    EndorsementRefused, add_endorsement, endorsement_back, test_endorsement,
};
use crate::evidence::{add_evidence, test_evidence};
use crate::follow::follow;
use crate::journal::Journal;
use crate::shown::Shown;
use crate::start::begin;
use crate::told::NotPut;
use crate::units::{
    NamedUnit, Placed, UnitRefused, add_unit, list_unit, test_local, test_named, unit_back,
};
use hw_admit::{State, StateFault};
use hw_codec::digest_of;
use hw_dag::{Prepared, UnitNo};
use hw_park::Park;
use hw_types::{
    Cause, Config, Digest, Endorsement, Evidence, OutOfMemory, Receipt, Rule, SignedUnit, Vertex,
};
use std::alloc::Global;
use std::marker::Model;

/// A vertex that was refused, and why.
#[derive(Drop)]
pub struct Refused {
    pub cause: Cause,
    pub vertex: Vertex,
}

/// All that a node keeps. Contracts see its configuration, its journal and its last question, and nothing else.
pub(crate) struct CoreInner {
    /// The digest of its configuration.
    instance: Digest,
    journal: Journal,
    /// The place in the journal of each unit, by its name.
    names: DigestMap<u32>,
    /// The units that miss something.
    park: Park<Prepared>,
    /// The rule that each dropped unit breaks, by its name.
    dropped: DigestMap<Rule>,
    /// The settled units, and what follows from them.
    state: State,
    /// The fork choice of the state.
    fork: Option<UnitNo>,
    decided: Decided,
    /// The summit that was asked for last.
    shown: Shown,
}

// For the prover: so its drop is one call, and else is written out wherever one is let go.
impl Drop for CoreInner {
    fn drop(self) {
        let CoreInner {
            instance: _,
            journal: _journal,
            names: _names,
            park: _park,
            dropped: _dropped,
            state: _state,
            fork: _,
            decided: _decided,
            shown: _shown,
        } = self;
    }
}

impl Model for CoreInner {
    ghost use Rattle.hw_types.specs.Real.{CoreState};
    ghost use Rattle.hw_core.specs.Keeps.{IsKept};

    ghost Value = { CoreState };

    ghost view = { λ c. record {
      config = c.state.config;
      journal = c.journal.items;
      asked = c.shown.asked;
    } };

    ghost invariant = { λ c. IsKept c.instance c.journal.items c.park c.state
        (record { names = c.names.entries; rules = c.dropped.entries; room = c.dropped.room })
        (record { fork = c.fork; decided = c.decided; shown = c.shown }) };
}

impl CoreInner {
    /// A node that has received nothing.
    pub(crate) fn new(alloc: Global, config: Config) -> Result<CoreInner, StateFault>
        ensures lawful { IfOk result (λ core. config_fault config ≡ None) }
        ensures fault { IfErr result (IsStartFault (config_fault config)) }
        ensures config { IfOk result (λ core. core.config ≡ config) }
        ensures empty { IfOk result (λ core. core.journal ≡ []) }
        ensures asked { IfOk result (λ core. core.asked ≡ None) }
    {
        let state = State::new(alloc, config)?;
        let start = begin(alloc, state.config())?;
        // For the prover: recalls what is said of each graph.
        let _graph = state.dag();
        let journal = Journal::new(alloc);
        let names = DigestMap::new(alloc);
        let dropped = DigestMap::new(alloc);
        Ok(CoreInner {
            instance: start.instance,
            journal,
            names,
            park: start.park,
            dropped,
            state,
            fork: None,
            decided: start.decided,
            shown: start.shown,
        })
    }

    /// Takes a vertex with the verdict on its signatures, and says what became of it.
    ///
    /// A refusal gives the vertex back and changes nothing. Want of memory may stand in place of each
    /// answer but those of the first three tests.
    pub(crate) fn deliver(&mut self, vertex: Vertex, verdict: bool) -> Result<Receipt, Refused>
        requires { VertexFits vertex }
        // The answer is that of the definitions on the journal so far.
        ensures accepted { IfOk result (λ receipt. answer_in self.old vertex verdict ≡ Ok receipt) }
        ensures refused { IfErr result (λ r. IsRefusal r.cause (answer_in self.old vertex verdict)) }
        ensures returned { IfErr result (λ r. r.vertex ≡ vertex) }

        // An accepted vertex goes last in the journal; nothing else changes.
        ensures journal { OnOk result (self.new ≡ after_in self.old vertex verdict) }
        ensures unchanged { OnErr result (self.new ≡ self.old) }
    {
        if !verdict {
            return Err(sent_back(Cause::BadSignature, vertex));
        }
        match vertex {
            Vertex::Unit(unit) => self.deliver_unit(unit),
            Vertex::Evidence(evidence) => self.deliver_evidence(evidence),
            Vertex::Endorsement(endorsement) => match self.deliver_endorsement(endorsement) {
                Ok(receipt) => Ok(receipt),
                Err(refused) => Err(endorsement_sent_back(refused)),
            },
        }
    }

    /// Takes a unit whose signature is right.
    fn deliver_unit(&mut self, unit: SignedUnit) -> Result<Receipt, Refused>
        requires { VertexFits (vertex.Unit unit) }
        ensures accepted { IfOk result (λ receipt. answer_in self.old (vertex.Unit unit) true ≡ Ok receipt) }
        ensures refused { IfErr result (λ r. IsRefusal r.cause (answer_in self.old (vertex.Unit unit) true)) }
        ensures returned { IfErr result (λ r. r.vertex ≡ vertex.Unit unit) }
        ensures journal { OnOk result (self.new ≡ after_in self.old (vertex.Unit unit) true) }
        ensures unchanged { OnErr result (self.new ≡ self.old) }
    {
        match self.name_unit(&unit) {
            Ok(name) => match self.deliver_lawful(unit, name) {
                Ok(receipt) => Ok(receipt),
                Err(refused) => Err(unit_sent_back(refused)),
            },
            Err(cause) => Err(sent_back(cause, Vertex::Unit(unit))),
        }
    }

    /// Takes a unit whose signature is right and whose name is known.
    pub(crate) fn deliver_named(
        &mut self,
        unit: SignedUnit,
        name: Digest,
    ) -> Result<Receipt, UnitRefused>
        requires fits { VertexFits (vertex.Unit unit) }
        requires name { name ≡ digest_of unit.unit }
        ensures accepted { IfOk result (λ receipt. answer_in self.old (vertex.Unit unit) true ≡ Ok receipt) }
        ensures refused { IfErr result (λ r. IsRefusal r.cause (answer_in self.old (vertex.Unit unit) true)) }
        ensures returned { IfErr result (λ r. r.unit ≡ unit) }
        ensures journal { OnOk result (self.new ≡ after_in self.old (vertex.Unit unit) true) }
        ensures unchanged { OnErr result (self.new ≡ self.old) }
    {
        match self.test_local(&unit) {
            Ok(()) => self.deliver_lawful(unit, name),
            Err(cause) => Err(unit_back(cause, unit)),
        }
    }

    /// Takes a unit of this name that keeps the local rules.
    fn deliver_lawful(&mut self, unit: SignedUnit, name: Digest) -> Result<Receipt, UnitRefused>
        requires fits { VertexFits (vertex.Unit unit) }
        requires name { name ≡ digest_of unit.unit }
        requires local { local_rule self.old.config (instance_of self.old.config) unit.unit ≡ None }
        ensures accepted { IfOk result (λ receipt. answer_in self.old (vertex.Unit unit) true ≡ Ok receipt) }
        ensures refused { IfErr result (λ r. IsRefusal r.cause (answer_in self.old (vertex.Unit unit) true)) }
        ensures returned { IfErr result (λ r. r.unit ≡ unit) }
        ensures journal { OnOk result (self.new ≡ after_in self.old (vertex.Unit unit) true) }
        ensures unchanged { OnErr result (self.new ≡ self.old) }
    {
        match self.test_named(&unit, &name) {
            Ok(true) => self.take_unit(unit, name),
            Ok(false) => Ok(Receipt::Repeat),
            Err(cause) => Err(unit_back(cause, unit)),
        }
    }

    /// The test of a unit that the configuration alone decides.
    fn test_local(&self, unit: &SignedUnit) -> Result<(), Cause>
        ensures local { OnOk result (local_rule self.now.config (instance_of self.now.config) unit.now.unit ≡ None) }
        ensures refused { IfErr result (λ cause. IsRefusal cause (answer_in self.now (vertex.Unit unit.now) true)) }
    {
        test_local(&self.instance, &self.state, unit)
    }

    /// The name of a unit that keeps the local rules.
    fn name_unit(&self, unit: &SignedUnit) -> Result<Digest, Cause>
        requires { VertexFits (vertex.Unit unit.now) }
        ensures local { OnOk result (local_rule self.now.config (instance_of self.now.config) unit.now.unit ≡ None) }
        ensures name { IfOk result (λ name. name ≡ digest_of unit.now.unit) }
        ensures refused { IfErr result (λ cause. IsRefusal cause (answer_in self.now (vertex.Unit unit.now) true)) }
    {
        self.test_local(unit)?;
        match digest_of(self.journal.allocator(), &unit.unit) {
            Ok(name) => Ok(name),
            Err(OutOfMemory) => Err(Cause::OutOfMemory),
        }
    }

    /// The tests that follow, but that of the park, of a unit that keeps the local rules and has this name. True
    /// where it is new, false where it is a repeat.
    fn test_named(&self, unit: &SignedUnit, name: &Digest) -> Result<bool, Cause>
        requires name { name.now ≡ digest_of unit.now.unit }
        requires local { local_rule self.now.config (instance_of self.now.config) unit.now.unit ≡ None }
        ensures repeat { IfOk result (λ new. new ≡ false → answer_in self.now (vertex.Unit unit.now) true ≡ Ok receipt.Repeat) }
        ensures new { IfOk result (λ new. new ≡ true → IsNewUnit self.now.config self.now.journal unit.now name.now) }
        ensures refused { IfErr result (λ cause. IsRefusal cause (answer_in self.now (vertex.Unit unit.now) true)) }
    {
        test_named(
            &self.names,
            self.journal.as_slice(),
            &self.state,
            unit,
            name,
        )
    }

    /// Takes a unit that passed the tests, but where the park is full.
    fn take_unit(&mut self, unit: SignedUnit, name: Digest) -> Result<Receipt, UnitRefused>
        requires new { IsNewUnit self.old.config self.old.journal unit name }
        requires fits { VertexFits (vertex.Unit unit) }
        ensures accepted { IfOk result (λ receipt. answer_in self.old (vertex.Unit unit) true ≡ Ok receipt) }
        ensures refused { IfErr result (λ r. IsRefusal r.cause (answer_in self.old (vertex.Unit unit) true)) }
        ensures returned { IfErr result (λ r. r.unit ≡ unit) }
        ensures journal { OnOk result (self.new ≡ after_in self.old (vertex.Unit unit) true) }
        ensures unchanged { OnErr result (self.new ≡ self.old) }
    {
        let added = add_unit(
            &mut self.names,
            &mut self.journal,
            &mut self.park,
            &mut self.dropped,
            &mut self.state,
            &mut self.decided,
            NamedUnit { unit: &unit, name },
        );
        // For the prover: recalls what is said of each graph.
        let _graph = self.state.dag();
        match added {
            Ok(placed) => {
                let Placed {
                    receipt,
                    unit: shared,
                } = placed;
                list_unit(&mut self.names, &mut self.journal, shared, name);
                if let Receipt::Admitted { .. } = receipt {
                    self.fork = follow(self.journal.as_slice(), &mut self.state, &mut self.decided);
                }
                // Where nothing settled, the fork choice and the decided blocks stay as they are.
                Ok(receipt)
            }
            Err(cause) => Err(unit_back(cause, unit)),
        }
    }

    /// Takes an endorsement whose signature is right.
    pub(crate) fn deliver_endorsement(
        &mut self,
        endorsement: Endorsement,
    ) -> Result<Receipt, EndorsementRefused>
        ensures accepted { IfOk result (λ receipt. answer_in self.old (vertex.Endorsement endorsement) true ≡ Ok receipt) }
        ensures refused { IfErr result (λ r. IsRefusal r.cause (answer_in self.old (vertex.Endorsement endorsement) true)) }
        ensures returned { IfErr result (λ r. r.endorsement ≡ endorsement) }
        ensures journal { OnOk result (self.new ≡ after_in self.old (vertex.Endorsement endorsement) true) }
        ensures unchanged { OnErr result (self.new ≡ self.old) }
    {
        match test_endorsement(self.journal.as_slice(), &self.state, &endorsement) {
            Ok(true) => Ok(Receipt::Repeat),
            Ok(false) => self.take_endorsement(endorsement),
            Err(cause) => Err(endorsement_back(cause, endorsement)),
        }
    }

    /// Takes an endorsement that passed the tests, unless it is a repeat.
    fn take_endorsement(&mut self, endorsement: Endorsement) -> Result<Receipt, EndorsementRefused>
        requires { HasPlace self.old.config self.old.journal endorsement }
        ensures accepted { IfOk result (λ receipt. answer_in self.old (vertex.Endorsement endorsement) true ≡ Ok receipt) }
        ensures refused { IfErr result (λ r. IsRefusal r.cause (answer_in self.old (vertex.Endorsement endorsement) true)) }
        ensures returned { IfErr result (λ r. r.endorsement ≡ endorsement) }
        ensures journal { OnOk result (self.new ≡ after_in self.old (vertex.Endorsement endorsement) true) }
        ensures unchanged { OnErr result (self.new ≡ self.old) }
    {
        // For the prover: recalls what is said of each graph.
        let _before = self.state.dag();
        let added = add_endorsement(
            &mut self.journal,
            &mut self.park,
            &mut self.dropped,
            &mut self.state,
            endorsement,
        );
        // For the prover: recalls what is said of each graph.
        let _after = self.state.dag();
        match added {
            Ok(settled) => {
                if settled == 0 {
                    // So the fork choice and the decided blocks stay as they are.
                    return Ok(Receipt::Admitted { settled });
                }
                self.fork = follow(self.journal.as_slice(), &mut self.state, &mut self.decided);
                Ok(Receipt::Admitted { settled })
            }
            Err(NotPut::Repeat) => Ok(Receipt::Repeat),
            Err(NotPut::OutOfMemory) => Err(endorsement_back(Cause::OutOfMemory, endorsement)),
        }
    }

    /// Takes an evidence whose signatures are right.
    fn deliver_evidence(&mut self, evidence: Evidence) -> Result<Receipt, Refused>
        requires { VertexFits (vertex.Evidence evidence) }
        ensures accepted { IfOk result (λ receipt. answer_in self.old (vertex.Evidence evidence) true ≡ Ok receipt) }
        ensures refused { IfErr result (λ r. IsRefusal r.cause (answer_in self.old (vertex.Evidence evidence) true)) }
        ensures returned { IfErr result (λ r. r.vertex ≡ vertex.Evidence evidence) }
        ensures journal { OnOk result (self.new ≡ after_in self.old (vertex.Evidence evidence) true) }
        ensures unchanged { OnErr result (self.new ≡ self.old) }
    {
        let alloc = self.journal.allocator();
        match test_evidence(
            alloc,
            &self.instance,
            self.journal.as_slice(),
            &self.state,
            &evidence,
        ) {
            Ok(true) => Ok(Receipt::Repeat),
            Ok(false) => self.take_evidence(evidence),
            Err(cause) => Err(sent_back(cause, Vertex::Evidence(evidence))),
        }
    }

    /// Takes an evidence that passed the tests.
    fn take_evidence(&mut self, evidence: Evidence) -> Result<Receipt, Refused>
        requires taken { IsTaken self.old.config self.old.journal (vertex.Evidence evidence) }
        requires fits { VertexFits (vertex.Evidence evidence) }
        ensures accepted { IfOk result (λ receipt. answer_in self.old (vertex.Evidence evidence) true ≡ Ok receipt) }
        ensures refused { IfErr result (λ r. IsRefusal r.cause (answer_in self.old (vertex.Evidence evidence) true)) }
        ensures returned { IfErr result (λ r. r.vertex ≡ vertex.Evidence evidence) }
        ensures journal { OnOk result (self.new ≡ after_in self.old (vertex.Evidence evidence) true) }
        ensures unchanged { OnErr result (self.new ≡ self.old) }
    {
        // For the prover: recalls what is said of each graph.
        let _before = self.state.dag();
        let added = add_evidence(
            &mut self.journal,
            &mut self.park,
            &mut self.dropped,
            &mut self.state,
            evidence,
        );
        // For the prover: recalls what is said of each graph.
        let _after = self.state.dag();
        match added {
            Ok(settled) => {
                self.fork = follow(self.journal.as_slice(), &mut self.state, &mut self.decided);
                Ok(Receipt::Admitted { settled })
            }
            Err(evidence) => Err(sent_back(Cause::OutOfMemory, Vertex::Evidence(evidence))),
        }
    }
}

fn sent_back(cause: Cause, vertex: Vertex) -> Refused
    ensures { result ≡ record { cause = cause; vertex = vertex } }
{
    Refused { cause, vertex }
}

/// A unit that was refused, as a vertex.
fn unit_sent_back(refused: UnitRefused) -> Refused
    ensures { result ≡ record { cause = refused.cause; vertex = vertex.Unit refused.unit } }
{
    let UnitRefused { cause, unit } = refused;
    sent_back(cause, Vertex::Unit(unit))
}

/// An endorsement that was refused, as a vertex.
fn endorsement_sent_back(refused: EndorsementRefused) -> Refused
    ensures { result ≡ record { cause = refused.cause; vertex = vertex.Endorsement refused.endorsement } }
{
    let EndorsementRefused { cause, endorsement } = refused;
    sent_back(cause, Vertex::Endorsement(endorsement))
}
