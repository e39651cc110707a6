//! What the exports do with a handle: take the node out, work, and put it back.

ghost use Rattle.std.specs.Prelude.{◌≡◌, None};
ghost use Rattle.hw_c.specs.Audits.{IsAudit};
ghost use Rattle.hw_c.specs.Calls.{IsEntry, IsSummary, IsObserved, IsPlaced, IsDecided, AreFaulty, IsUnmet};
ghost use Rattle.hw_c.specs.Due.{IsDue};
ghost use Rattle.hw_c.specs.Facts.{IsUnitFacts, IsSpelledFacts};
ghost use Rattle.hw_c.specs.Handles.{Begins, Ends, Delivers, Reads, ReadsBoth};
ghost use Rattle.hw_c.specs.Light.{IsCertificate};
ghost use Rattle.hw_c.specs.Needed.{IsForNeed};
ghost use Rattle.hw_c.specs.Steps.{IsStep};

use crate::audits::{self, Audited};
use crate::calls::{self, Decided, Observed, Placed, Summary};
use crate::codes::Fault;
use crate::deliveries::deliver_all;
use crate::due::{self, Due};
use crate::facts::{self, UnitFacts};
use crate::handle::Handle;
use crate::light;
use crate::needs::{self, Missing};
use crate::put::WithBytes;
use crate::sent::{Delivered, Sent};
use crate::steps::{self, Planned};
use hw_core::Core;
use hw_types::Bytes;
use std::alloc::Global;

impl Handle {
    /// Puts a node of the configuration that the bytes spell into an empty handle.
    pub(crate) fn begin(&mut self, alloc: Global, config: &[u8]) -> Result<(), Fault>
        ensures { Begins self.old.held config.now result self.new.held }
    {
        if let Ok(node) = self.take(alloc) {
            self.fill(node);
            return Err(Fault::Full);
        }
        let node = calls::make(alloc, config)?;
        match Box::new(alloc, node) {
            Ok(node) => {
                self.fill(node);
                Ok(())
            }
            Err(_) => Err(Fault::OutOfMemory),
        }
    }

    /// Frees the node of a handle, which is empty then.
    pub(crate) fn end(&mut self, alloc: Global) -> Result<(), Fault>
        ensures { Ends self.old.held result self.new.held }
    {
        drop(self.take(alloc)?);
        Ok(())
    }

    /// Delivers the vertices in order, and writes what each delivery answered.
    pub(crate) fn deliver(
        &mut self,
        alloc: Global,
        bytes: &[u8],
        vertices: &[Sent],
        delivered: &mut [Delivered],
    ) -> Result<(), Fault>
        ensures { Delivers self.old.held bytes.now vertices.now delivered.old result delivered.new self.new.held }
    {
        let mut node = self.take(alloc)?;
        let outcome = deliver_all(alloc, &mut node, bytes, vertices, delivered);
        self.fill_after(outcome, node)
    }

    /// The journal's entry of that place, as bytes.
    pub(crate) fn read_entry(&mut self, alloc: Global, place: u64) -> Result<Bytes, Fault>
        ensures { Reads (λ c. IsEntry c place) self.old.held result self.new.held }
    {
        let node = self.take(alloc)?;
        self.fill_after(calls::entry(alloc, &node, place), node)
    }

    /// The counts of the node, the weight of its faulty validators, and its fork choice.
    pub(crate) fn read_summary(&mut self, alloc: Global) -> Result<Summary, Fault>
        ensures { Reads IsSummary self.old.held result self.new.held }
    {
        let node = self.take(alloc)?;
        self.fill_after(calls::summarize(&node), node)
    }

    /// What the node observes of the validator.
    pub(crate) fn read_observed(&mut self, alloc: Global, validator: u32) -> Result<Observed, Fault>
        ensures { Reads (λ c. IsObserved c validator) self.old.held result self.new.held }
    {
        let node = self.take(alloc)?;
        self.fill_after(calls::observation(&node, validator), node)
    }

    /// What became of the unit of this digest.
    pub(crate) fn read_placed(&mut self, alloc: Global, digest: &[u8; 32]) -> Result<Placed, Fault>
        ensures { Reads (λ c. IsPlaced c digest.now) self.old.held result self.new.held }
    {
        let node = self.take(alloc)?;
        self.fill_after(calls::place(&node, digest), node)
    }

    /// What the journal's unit of this digest is, its value, and what it observes.
    pub(crate) fn read_unit(
        &mut self,
        alloc: Global,
        digest: &[u8; 32],
        list: &mut [Observed],
    ) -> Result<WithBytes<UnitFacts>, Fault>
        ensures read { Reads (λ c. IsUnitFacts c digest.now list.old list.new) self.old.held result self.new.held }
        ensures empty { self.old.held ≡ None → list.new ≡ list.old }
    {
        let node = self.take(alloc)?;
        self.fill_after(facts::unit_facts(alloc, &node, digest, list), node)
    }

    /// What the unit of the vertex says, its value, and what it observes.
    pub(crate) fn read_spelled(
        &mut self,
        alloc: Global,
        vertex: &[u8],
        list: &mut [Observed],
    ) -> Result<WithBytes<UnitFacts>, Fault>
        ensures read { Reads (λ c. IsSpelledFacts c.config vertex.now list.old list.new) self.old.held result self.new.held }
        ensures empty { self.old.held ≡ None → list.new ≡ list.old }
    {
        let node = self.take(alloc)?;
        self.fill_after(facts::spelled_facts(alloc, &node, vertex, list), node)
    }

    /// The decided block of that place.
    pub(crate) fn read_decided(&mut self, alloc: Global, index: u64) -> Result<Decided, Fault>
        ensures { Reads (λ c. IsDecided c index) self.old.held result self.new.held }
    {
        let node = self.take(alloc)?;
        self.fill_after(calls::decision(&node, index), node)
    }

    /// Puts the faulty validators into the list. Answers how many there are.
    pub(crate) fn read_faulty(&mut self, alloc: Global, list: &mut [u32]) -> Result<usize, Fault>
        ensures read { Reads (λ c. AreFaulty c list.old list.new) self.old.held result self.new.held }
        ensures empty { self.old.held ≡ None → list.new ≡ list.old }
    {
        let node = self.take(alloc)?;
        self.fill_after(calls::put_faulty(alloc, &node, list), node)
    }

    /// The first needs that parked units miss, as many as fit. Answers how many that are.
    pub(crate) fn read_unmet(&mut self, alloc: Global, list: &mut [Missing]) -> Result<usize, Fault>
        ensures read { Reads (λ c. IsUnmet c list.old list.new) self.old.held result self.new.held }
        ensures empty { self.old.held ≡ None → list.new ≡ list.old }
    {
        let node = self.take(alloc)?;
        self.fill_after(needs::unmet(alloc, &node, list), node)
    }

    /// The vertex of that place among those that the node has for the need, as bytes.
    pub(crate) fn read_for_need(
        &mut self,
        alloc: Global,
        missing: &Missing,
        place: usize,
    ) -> Result<Bytes, Fault>
        ensures { Reads (λ c. IsForNeed c missing.now place) self.old.held result self.new.held }
    {
        let node = self.take(alloc)?;
        self.fill_after(needs::for_need(alloc, &node, missing, place), node)
    }

    /// The unit that the validator may make at this moment, as bytes without a signature.
    pub(crate) fn read_next(
        &mut self,
        alloc: Global,
        me: u32,
        now: u64,
        value: &[u8],
    ) -> Result<WithBytes<Planned>, Fault>
        ensures { Reads (λ c. IsStep c me now value.now) self.old.held result self.new.held }
    {
        let node = self.take(alloc)?;
        self.fill_after(steps::next(alloc, &node, me, now, value), node)
    }

    /// What the validator has to make at this moment.
    pub(crate) fn read_due(&mut self, alloc: Global, me: u32, now: u64) -> Result<Due, Fault>
        ensures { Reads (λ c. IsDue c me now) self.old.held result self.new.held }
    {
        let node = self.take(alloc)?;
        self.fill_after(due::due_now(alloc, &node, me, now), node)
    }

    /// The certificate of the decided block of that place, as bytes.
    pub(crate) fn read_certificate(&mut self, alloc: Global, index: u64) -> Result<Bytes, Fault>
        ensures { Reads (λ c. IsCertificate c index) self.old.held result self.new.held }
    {
        let mut node = self.take(alloc)?;
        let outcome = light::certificate(alloc, &mut node, index);
        self.fill_after(outcome, node)
    }

    /// What an audit of the journals of two nodes found, and that as text.
    pub(crate) fn read_audit(
        &mut self,
        alloc: Global,
        right: &mut Handle,
    ) -> Result<WithBytes<Audited>, Fault>
        ensures { ReadsBoth IsAudit self.old.held right.old.held result self.new.held right.new.held }
    {
        let left = self.take(alloc)?;
        self.fill_after(right.read_audit_with(alloc, &left), left)
    }

    /// The same, with the node of the other handle.
    fn read_audit_with(&mut self, alloc: Global, left: &Core) -> Result<WithBytes<Audited>, Fault>
        ensures { Reads (IsAudit left.now) self.old.held result self.new.held }
    {
        let right = self.take(alloc)?;
        self.fill_after(audits::audit_of(alloc, left, &right), right)
    }
}
