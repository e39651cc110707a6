//! A replay, entry by entry.

ghost use Rattle.std.specs.Prelude.{◌≡◌, ◌≢◌, ◌+◌, ◌<◌, ◌≤◌, ◌^◌, ◌⊎◌, true, false, [], Ok, Some, None, IsTrue, IfOk, IfErr, IfSome, OnOk, OnErr, box_value};
ghost use Rattle.std.specs.Option.{option_copied};
ghost use Rattle.hw_io.specs.{Faults.{subject_of}, Files.{SameFiles}};
ghost use Rattle.hw_types.specs.Limits.{config_fault};
ghost use Rattle.hw_types.specs.Spelling.{Fits, VertexFits, ConfigFits, digest_of};
ghost use Rattle.hw_types.specs.declared.answers.Cause.TheVariants as Causes;
ghost use Rattle.hw_types.specs.declared.unit.Vertex.TheVariants as Vertices;
ghost use Rattle.hw_log.specs.{Named.{IsNameOf, unnamed}, Reader.{ahead_of, PlacesFit}};
ghost use Rattle.hw_replay.specs.declared.fault.StartFault.TheVariants as Faults;
ghost use Rattle.hw_replay.specs.Taken.{nothing_taken, entry_taken, spelling_of, stop_of, clash_with};
ghost use Rattle.hw_replay.specs.Replay.{is_wanted, taken_in, ahead_in, IsOutside, Begins, Leads, TakesAll, GrowsByOne, Replays};
ghost use Rattle.hw_replay.specs.Causes.{HasReplayCause, IsReplayAbout};
ghost use Rattle.hw_replay.specs.Steps.{HasRoom, IsBegun, IsStop, IsOfEntry, repeats_in};
ghost use Rattle.hw_replay.specs.Midway.{midway_in, file_begun, LeadsNext};
ghost use Rattle.hw_replay.specs.Ends.{lasts_of_file, lasts_ahead, LeadsLasts, IsReached};

use crate::fault::{StartFault, fault_of};
use hw_codec::{encode_config, encode_unit};
use hw_core::{Core, EndorsementRefused, Refused, UnitRefused};
use hw_io::Files;
use hw_log::{Lasts, LogReader, NamedEntry};
use hw_types::{
    Bytes, Cause, Config, Digest, Endorsement, OutOfMemory, Receipt, SignedUnit, Vertex,
};
use std::alloc::Global;

/// A log that is being replayed into a node.
#[derive(Drop)]
pub struct Replay {
    alloc: Global,
    reader: LogReader,
    /// The node, as the entries so far have left it.
    pub core: Core,
    /// How many entries were refused.
    pub refused: u64,
    /// How many entries came again.
    pub repeats: u64,
}

/// What a replay leaves.
#[derive(Drop)]
pub struct Replayed {
    /// The node, as the entries have left it.
    pub core: Core,
    /// The last unit of each validator in the log.
    pub lasts: Lasts,
    /// How many entries were refused.
    pub refused: u64,
    /// How many entries came again.
    pub repeats: u64,
}

impl Replay {
    /// Begins the replay of the log under this name, with a node of its configuration.
    ///
    /// Where a configuration is wanted, the log's is compared with it as soon as its header was read.
    /// `OtherConfig` is answered where the two differ, and `Log` where the header is wrong or can't be read.
    pub fn begin<F: Files>(
        alloc: Global,
        files: &mut F,
        name: &str,
        wanted: Option<&Config>,
    ) -> Result<Replay, StartFault>
        requires { IfSome wanted (λ config. ConfigFits config.now) }
        ensures said { IsTrue F.tells → Begins (option_copied wanted.entry) (F.held files.old name.now) (F.unread files.new) result }
        // It is right after the header, with nothing taken and all entries to come.
        ensures midway { IsTrue F.tells → IfOk result (λ r. file_begun (option_copied wanted.entry) (F.held files.old name.now) ≡ Some (midway_in r (F.unread files.new))) }
        // An error comes only where the log has no good header or isn't of the wanted configuration, or where a
        // read or memory fails.
        ensures unbegun { IsTrue F.tells → IfErr result (λ e. IsOutside e ⊎ (file_begun (option_copied wanted.entry) (F.held files.old name.now) ≡ None)) }
        ensures empty { IfOk result (λ r. taken_in r ≡ nothing_taken r.core.config) }
        ensures room { IfOk result (λ r. HasRoom r (F.allowance files.new)) }
        ensures lasts { IsTrue F.tells → IfOk result (λ r. lasts_of_file (F.held files.old name.now) ≡ Some (lasts_ahead r (F.unread files.new))) }
        ensures reached { IfOk result (λ r. IsReached r.core) }
        ensures wanted { IfOk result (λ r. is_wanted (option_copied wanted.entry) r.core.config ≡ true) }
        ensures cause { HasReplayCause (F.read_faults files.old) (F.read_faults files.new) result }
        ensures about { IsTrue F.tells → IsReplayAbout (subject_of (F.held files.old name.now) name.now) (F.faults_about files.old) (F.faults_about files.new) result }

        ensures begun { IsTrue F.tells → OnOk result (F.begun files.new ≡ Some name.now) }
        ensures subject { IsTrue F.tells → OnOk result (F.begun files.new ≡ subject_of (F.held files.old name.now) name.now) }
        ensures files { SameFiles (F.held files.old) (F.held files.new) }
        ensures appends { F.append_faults files.new ≡ F.append_faults files.old }
    {
        match LogReader::begin(alloc, files, name) {
            Ok(reader) => Ok(begun(alloc, reader, wanted)?),
            Err(error) => Err(fault_of(error)),
        }
    }

    /// Takes the next entry, and answers whether there was one. At the end of the log there is none. An error
    /// says why the replay stops here.
    pub fn step<F: Files>(&mut self, files: &mut F) -> Result<bool, StartFault>
        requires { HasRoom self.old (F.allowance files.old) }
        // What will have been taken at the end of the log stays what it is.
        ensures said { IsTrue F.tells → Leads (ahead_in self.old (F.unread files.old)) (ahead_in self.new (F.unread files.new)) (taken_in self.new) result }
        // What it took is the next entry of what was to come, and so is what stopped it.
        ensures next { IsTrue F.tells → LeadsNext (midway_in self.old (F.unread files.old)) (midway_in self.new (F.unread files.new)) result }
        ensures grows { GrowsByOne self.old.core self.new.core }
        ensures end { IfOk result (λ more. more ≡ false → self.new.core ≡ self.old.core) }
        ensures room { IfOk result (λ more. IsTrue more → HasRoom self.new (F.allowance files.new)) }
        // The last units after all its entries stay what they are, and at the end they are those of the reader.
        ensures lasts { IsTrue F.tells → LeadsLasts (lasts_ahead self.old (F.unread files.old)) (lasts_ahead self.new (F.unread files.new)) self.new.reader.lasts result }
        ensures reached { IsReached self.old.core → IsReached self.new.core }
        ensures nearer { IfOk result (λ more. IsTrue more → ahead_of self.new.reader (F.allowance files.new) < ahead_of self.old.reader (F.allowance files.old)) }
        ensures cause { HasReplayCause (F.read_faults files.old) (F.read_faults files.new) result }
        ensures about { IsReplayAbout (F.begun files.old) (F.faults_about files.old) (F.faults_about files.new) result }

        ensures begun { F.begun files.new ≡ F.begun files.old }
        ensures files { SameFiles (F.held files.old) (F.held files.new) }
        ensures appends { F.append_faults files.new ≡ F.append_faults files.old }
    {
        match self.reader.next_named(files) {
            Ok(Some(named)) => {
                self.take(named)?;
                Ok(true)
            }
            Ok(None) => Ok(false),
            Err(error) => Err(fault_of(error)),
        }
    }

    /// What it leaves: the node, the last units of its log, and the counts.
    pub fn into_parts(self) -> Replayed
        ensures { result ≡ record { core = self.core; lasts = self.reader.lasts; refused = self.refused; repeats = self.repeats } }
    {
        Replayed {
            core: self.core,
            lasts: self.reader.into_lasts(),
            refused: self.refused,
            repeats: self.repeats,
        }
    }

    /// Delivers an entry, and counts it where it is refused or came again. Where its verdict is right, a unit whose
    /// name is known goes by that name, and isn't hashed again.
    fn take(&mut self, named: NamedEntry) -> Result<(), StartFault>
        requires fits { VertexFits (box_value named.vertex) }
        requires name { IfSome named.name (IsNameOf (box_value named.vertex)) }
        requires room { self.old.refused + self.old.repeats < 2 ^ 62 }
        ensures taken { OnOk result (entry_taken (taken_in self.old) (unnamed named) ≡ Ok (taken_in self.new)) }
        ensures stopped { IfErr result (λ e. IsStop e (entry_taken (taken_in self.old) (unnamed named))) }
        ensures fault { IfErr result IsOfEntry }
        ensures grows { GrowsByOne self.old.core self.new.core }
        ensures reached { IsReached self.old.core → IsReached self.new.core }
        ensures counts { self.new.refused + self.new.repeats ≤ self.old.refused + self.old.repeats + 1 }
        ensures reader { self.new.reader ≡ self.old.reader }
    {
        let NamedEntry {
            at,
            verdict,
            vertex,
            name,
        } = named;
        match name {
            Some(name) if verdict => self.take_named(at, vertex, name),
            Some(_) | None => self.take_unnamed(at, vertex, verdict),
        }
    }

    /// Takes the vertex of an entry at that byte, with its verdict. An endorsement is delivered by itself,
    /// since to move a whole `Vertex` is to move room for the two units of an evidence.
    fn take_unnamed(
        &mut self,
        at: u64,
        vertex: Box<Vertex>,
        verdict: bool,
    ) -> Result<(), StartFault>
        requires fits { VertexFits (box_value vertex) }
        requires room { self.old.refused + self.old.repeats < 2 ^ 62 }
        ensures taken { OnOk result (entry_taken (taken_in self.old) (record { at = at; verdict = verdict; vertex = box_value vertex }) ≡ Ok (taken_in self.new)) }
        ensures stopped { IfErr result (λ e. IsStop e (entry_taken (taken_in self.old) (record { at = at; verdict = verdict; vertex = box_value vertex }))) }
        ensures fault { IfErr result IsOfEntry }
        ensures grows { GrowsByOne self.old.core self.new.core }
        ensures reached { IsReached self.old.core → IsReached self.new.core }
        ensures counts { self.new.refused + self.new.repeats ≤ self.old.refused + self.old.repeats + 1 }
        ensures reader { self.new.reader ≡ self.old.reader }
    {
        match endorsement_in(&vertex) {
            Some(endorsement) if verdict => self.take_endorsement(at, endorsement),
            Some(_) | None => self.take_any(at, Box::into_inner(vertex), verdict),
        }
    }

    /// Takes the endorsement of an entry at that byte, whose verdict is right.
    #[tactic(auto, using(crate::proofs::TakeLaws::grows_accepted, crate::proofs::TakeLaws::stop_is_of_entry, crate::proofs::EndLaws::reached_after))]
    fn take_endorsement(&mut self, at: u64, endorsement: Endorsement) -> Result<(), StartFault>
        requires room { self.old.refused + self.old.repeats < 2 ^ 62 }
        ensures taken { OnOk result (entry_taken (taken_in self.old) (record { at = at; verdict = true; vertex = Vertices.Endorsement endorsement }) ≡ Ok (taken_in self.new)) }
        ensures stopped { IfErr result (λ e. IsStop e (entry_taken (taken_in self.old) (record { at = at; verdict = true; vertex = Vertices.Endorsement endorsement }))) }
        ensures fault { IfErr result IsOfEntry }
        ensures grows { GrowsByOne self.old.core self.new.core }
        ensures reached { IsReached self.old.core → IsReached self.new.core }
        ensures counts { self.new.refused + self.new.repeats ≤ self.old.refused + self.old.repeats + 1 }
        ensures reader { self.new.reader ≡ self.old.reader }
    {
        match self.core.deliver_endorsement(endorsement) {
            Ok(receipt) => {
                self.count(receipt);
                Ok(())
            }
            Err(refused) => self.refuse_endorsement(at, refused),
        }
    }

    /// Takes the vertex of an entry at that byte, which is a unit of this name with a right verdict.
    fn take_named(&mut self, at: u64, vertex: Box<Vertex>, name: Digest) -> Result<(), StartFault>
        requires fits { VertexFits (box_value vertex) }
        requires name { IsNameOf (box_value vertex) name }
        requires room { self.old.refused + self.old.repeats < 2 ^ 62 }
        ensures taken { OnOk result (entry_taken (taken_in self.old) (record { at = at; verdict = true; vertex = box_value vertex }) ≡ Ok (taken_in self.new)) }
        ensures stopped { IfErr result (λ e. IsStop e (entry_taken (taken_in self.old) (record { at = at; verdict = true; vertex = box_value vertex }))) }
        ensures fault { IfErr result IsOfEntry }
        ensures grows { GrowsByOne self.old.core self.new.core }
        ensures reached { IsReached self.old.core → IsReached self.new.core }
        ensures counts { self.new.refused + self.new.repeats ≤ self.old.refused + self.old.repeats + 1 }
        ensures reader { self.new.reader ≡ self.old.reader }
    {
        match Box::into_inner(vertex) {
            Vertex::Unit(unit) => self.take_unit(at, unit, name),
            other => self.take_any(at, other, true),
        }
    }

    /// Takes the unit of an entry at that byte, whose verdict is right, by its name. Its answer is small; only a
    /// refused unit is made a vertex again.
    #[tactic(auto, using(crate::proofs::TakeLaws::grows_accepted, crate::proofs::TakeLaws::stop_is_of_entry, crate::proofs::EndLaws::reached_after))]
    fn take_unit(&mut self, at: u64, unit: SignedUnit, name: Digest) -> Result<(), StartFault>
        requires fits { Fits unit.unit }
        requires name { name ≡ digest_of unit.unit }
        requires room { self.old.refused + self.old.repeats < 2 ^ 62 }
        ensures taken { OnOk result (entry_taken (taken_in self.old) (record { at = at; verdict = true; vertex = Vertices.Unit unit }) ≡ Ok (taken_in self.new)) }
        ensures stopped { IfErr result (λ e. IsStop e (entry_taken (taken_in self.old) (record { at = at; verdict = true; vertex = Vertices.Unit unit }))) }
        ensures fault { IfErr result IsOfEntry }
        ensures grows { GrowsByOne self.old.core self.new.core }
        ensures reached { IsReached self.old.core → IsReached self.new.core }
        ensures counts { self.new.refused + self.new.repeats ≤ self.old.refused + self.old.repeats + 1 }
        ensures reader { self.new.reader ≡ self.old.reader }
    {
        match self.core.deliver_named(unit, name) {
            Ok(receipt) => {
                self.count(receipt);
                Ok(())
            }
            Err(refused) => self.refuse_unit(at, refused),
        }
    }

    /// Takes the vertex of an entry at that byte, with its verdict.
    #[tactic(auto, using(crate::proofs::TakeLaws::grows_accepted, crate::proofs::TakeLaws::stop_is_of_entry, crate::proofs::EndLaws::reached_after))]
    fn take_any(&mut self, at: u64, vertex: Vertex, verdict: bool) -> Result<(), StartFault>
        requires fits { VertexFits vertex }
        requires room { self.old.refused + self.old.repeats < 2 ^ 62 }
        ensures taken { OnOk result (entry_taken (taken_in self.old) (record { at = at; verdict = verdict; vertex = vertex }) ≡ Ok (taken_in self.new)) }
        ensures stopped { IfErr result (λ e. IsStop e (entry_taken (taken_in self.old) (record { at = at; verdict = verdict; vertex = vertex }))) }
        ensures fault { IfErr result IsOfEntry }
        ensures grows { GrowsByOne self.old.core self.new.core }
        ensures reached { IsReached self.old.core → IsReached self.new.core }
        ensures counts { self.new.refused + self.new.repeats ≤ self.old.refused + self.old.repeats + 1 }
        ensures reader { self.new.reader ≡ self.old.reader }
    {
        match self.core.deliver(vertex, verdict) {
            Ok(receipt) => {
                self.count(receipt);
                Ok(())
            }
            Err(refused) => self.refuse(at, refused),
        }
    }

    /// Counts an entry that came again.
    fn count(&mut self, receipt: Receipt)
        requires { self.old.repeats < 2 ^ 62 }
        ensures { self.new ≡ record self.old { repeats = self.old.repeats + repeats_in receipt } }
    {
        if receipt == Receipt::Repeat {
            self.repeats += 1;
        }
    }

    /// Counts a refused unit, unless it stops the replay. The entry is at that byte. Out of line: the back end zeroes a
    /// function's whole frame on entry, and mostly nothing is refused.
    fn refuse_unit(&mut self, at: u64, refused: UnitRefused) -> Result<(), StartFault>
        requires fits { VertexFits (Vertices.Unit refused.unit) }
        requires room { self.old.refused < 2 ^ 62 }
        ensures counted { OnOk result (self.new ≡ record self.old { refused = self.old.refused + 1 }) }
        ensures goes_on { OnOk result ((stop_of self.old.core at (Vertices.Unit refused.unit) refused.cause ≡ None) × (refused.cause ≢ Causes.OutOfMemory)) }
        ensures stops { IfErr result (λ e. (e ≡ Faults.OutOfMemory) ⊎ (stop_of self.old.core at (Vertices.Unit refused.unit) refused.cause ≡ Some e)) }
        ensures unchanged { OnErr result (self.new ≡ self.old) }
    {
        let UnitRefused { cause, unit } = refused;
        let vertex = Vertex::Unit(unit);
        self.refuse(at, Refused { cause, vertex })
    }

    /// Counts a refused endorsement, unless it stops the replay. The entry is at that byte.
    fn refuse_endorsement(&mut self, at: u64, refused: EndorsementRefused) -> Result<(), StartFault>
        requires room { self.old.refused < 2 ^ 62 }
        ensures counted { OnOk result (self.new ≡ record self.old { refused = self.old.refused + 1 }) }
        ensures goes_on { OnOk result ((stop_of self.old.core at (Vertices.Endorsement refused.endorsement) refused.cause ≡ None) × (refused.cause ≢ Causes.OutOfMemory)) }
        ensures stops { IfErr result (λ e. (e ≡ Faults.OutOfMemory) ⊎ (stop_of self.old.core at (Vertices.Endorsement refused.endorsement) refused.cause ≡ Some e)) }
        ensures unchanged { OnErr result (self.new ≡ self.old) }
    {
        let EndorsementRefused { cause, endorsement } = refused;
        let vertex = Vertex::Endorsement(endorsement);
        self.refuse(at, Refused { cause, vertex })
    }

    /// Counts a refused entry, unless it stops the replay. The entry is at that byte.
    fn refuse(&mut self, at: u64, refused: Refused) -> Result<(), StartFault>
        requires fits { VertexFits refused.vertex }
        requires room { self.old.refused < 2 ^ 62 }
        ensures counted { OnOk result (self.new ≡ record self.old { refused = self.old.refused + 1 }) }
        ensures goes_on { OnOk result ((stop_of self.old.core at refused.vertex refused.cause ≡ None) × (refused.cause ≢ Causes.OutOfMemory)) }
        ensures stops { IfErr result (λ e. (e ≡ Faults.OutOfMemory) ⊎ (stop_of self.old.core at refused.vertex refused.cause ≡ Some e)) }
        ensures unchanged { OnErr result (self.new ≡ self.old) }
    {
        stop(self.alloc, &self.core, at, refused.cause, &refused.vertex)?;
        self.refused += 1;
        Ok(())
    }
}

/// The endorsement that the vertex is, if it is one.
fn endorsement_in(vertex: &Vertex) -> Option<Endorsement>
    ensures { IfSome result (λ endorsement. vertex.now ≡ Vertices.Endorsement endorsement) }
{
    match vertex {
        Vertex::Endorsement(endorsement) => Some(*endorsement),
        Vertex::Unit(_) | Vertex::Evidence(_) => None,
    }
}

/// Answers the fault with which the cause of a refusal stops a replay, or Ok where the replay goes on. The
/// entry is at that byte.
fn stop(
    alloc: Global,
    core: &Core,
    at: u64,
    cause: Cause,
    vertex: &Vertex,
) -> Result<(), StartFault>
    requires { VertexFits vertex.now }
    ensures goes_on { OnOk result ((stop_of core.now at vertex.now cause ≡ None) × (cause ≢ Causes.OutOfMemory)) }
    ensures stops { IfErr result (λ e. (e ≡ Faults.OutOfMemory) ⊎ (stop_of core.now at vertex.now cause ≡ Some e)) }
{
    match cause {
        Cause::Clash { known } => Err(clash(alloc, core, &known, vertex)?),
        Cause::RecordsFull => Err(StartFault::RecordsFull(at)),
        Cause::ParkFull => Err(StartFault::ParkFull(at)),
        Cause::OutOfMemory => Err(StartFault::OutOfMemory),
        Cause::BadSignature | Cause::Local(_) | Cause::Pair(_) => Ok(()),
    }
}

/// The two units of one digest, as they are spelled.
fn clash(
    alloc: Global,
    core: &Core,
    known: &Digest,
    vertex: &Vertex,
) -> Result<StartFault, OutOfMemory>
    requires { VertexFits vertex.now }
    ensures { IfOk result (λ fault. fault ≡ clash_with core.now vertex.now known.now) }
{
    match vertex {
        Vertex::Unit(other) => Ok(StartFault::Clash {
            known: spelling_of(alloc, core.unit_of(known))?,
            other: encode_unit(alloc, &other.unit)?,
        }),
        Vertex::Evidence(evidence) => Ok(StartFault::Clash {
            known: encode_unit(alloc, &evidence.left.unit)?,
            other: encode_unit(alloc, &evidence.right.unit)?,
        }),
        Vertex::Endorsement(_) => Ok(StartFault::Clash {
            known: Bytes::new(alloc),
            other: Bytes::new(alloc),
        }),
    }
}

/// The spelling of a unit that keeps the limits of its format, or no bytes where there is no unit.
pub fn spelling_of(alloc: Global, unit: Option<&SignedUnit>) -> Result<Bytes, OutOfMemory>
    requires { IfSome unit (λ u. Fits u.now.unit) }
    ensures { IfOk result (λ bytes. bytes ≡ spelling_of (option_copied unit.entry)) }
{
    match unit {
        Some(signed) => encode_unit(alloc, &signed.unit),
        None => Ok(Bytes::new(alloc)),
    }
}

/// A replay that is right after the header that was read. `OtherConfig` where its configuration isn't the
/// wanted one.
fn begun(alloc: Global, reader: LogReader, wanted: Option<&Config>) -> Result<Replay, StartFault>
    requires wanted { IfSome wanted (λ config. ConfigFits config.now) }
    requires fits { ConfigFits reader.config }
    requires limits { config_fault reader.config ≡ None }
    ensures begun { IfOk result (λ r. IsBegun r reader (option_copied wanted.entry)) }
    ensures stopped { IfErr result (λ e. (e ≡ Faults.OutOfMemory) ⊎ ((e ≡ Faults.OtherConfig) × (is_wanted (option_copied wanted.entry) reader.config ≡ false))) }
{
    if !is_wanted(alloc, wanted, reader.config())? {
        return Err(StartFault::OtherConfig);
    }
    let config = reader.config().copy()?;
    Ok(Replay {
        alloc,
        core: new_core(alloc, config)?,
        reader,
        refused: 0,
        repeats: 0,
    })
}

/// A node that has received nothing, of a configuration that keeps all limits.
fn new_core(alloc: Global, config: Config) -> Result<Core, OutOfMemory>
    requires fits { ConfigFits config }
    requires limits { config_fault config ≡ None }
    ensures { IfOk result (λ core. core ≡ record { config = config; journal = []; asked = None }) }
{
    Core::new(alloc, config).map_err(|_| OutOfMemory)
}

/// Whether a configuration is the wanted one, if one is wanted.
fn is_wanted(alloc: Global, wanted: Option<&Config>, config: &Config) -> Result<bool, OutOfMemory>
    requires wanted { IfSome wanted (λ c. ConfigFits c.now) }
    requires fits { ConfigFits config.now }
    ensures { IfOk result (λ b. b ≡ is_wanted (option_copied wanted.entry) config.now) }
{
    match wanted {
        Some(wanted) => {
            let left = encode_config(alloc, wanted)?;
            let right = encode_config(alloc, config)?;
            Ok(left.as_slice() == right.as_slice())
        }
        None => Ok(true),
    }
}

/// Replays the log under this name to its end.
///
/// Where a configuration is wanted, `OtherConfig` is answered as soon as the header shows another. Any other
/// error says why the replay stopped.
pub fn replay_log<F: Files>(
    alloc: Global,
    files: &mut F,
    name: &str,
    wanted: Option<&Config>,
) -> Result<Replay, StartFault>
    requires { IfSome wanted (λ config. ConfigFits config.now) }
    ensures said { IsTrue F.tells → Replays (option_copied wanted.entry) (F.held files.old name.now) result }
    ensures lasts { IsTrue F.tells → IfOk result (λ r. lasts_of_file (F.held files.old name.now) ≡ Some r.reader.lasts) }
    ensures reached { IfOk result (λ r. IsReached r.core) }
    ensures wanted { IfOk result (λ r. is_wanted (option_copied wanted.entry) r.core.config ≡ true) }
    ensures cause { HasReplayCause (F.read_faults files.old) (F.read_faults files.new) result }
    ensures about { IsTrue F.tells → IsReplayAbout (subject_of (F.held files.old name.now) name.now) (F.faults_about files.old) (F.faults_about files.new) result }

    ensures files { SameFiles (F.held files.old) (F.held files.new) }
    ensures appends { F.append_faults files.new ≡ F.append_faults files.old }
{
    let mut replay = Replay::begin(alloc, files, name, wanted)?;
    take_all(files, &mut replay)?;
    Ok(replay)
}

/// Takes all entries that are left.
#[tactic(auto, using(crate::proofs::EndLaws::grown_config))]
fn take_all<F: Files>(files: &mut F, replay: &mut Replay) -> Result<(), StartFault>
    requires { HasRoom replay.old (F.allowance files.old) }
    ensures said { IsTrue F.tells → TakesAll (ahead_in replay.old (F.unread files.old)) (taken_in replay.new) result }
    ensures lasts { IsTrue F.tells → OnOk result (lasts_ahead replay.old (F.unread files.old) ≡ replay.new.reader.lasts) }
    ensures reached { IsReached replay.old.core → IsReached replay.new.core }
    ensures config { replay.new.core.config ≡ replay.old.core.config }
    ensures cause { HasReplayCause (F.read_faults files.old) (F.read_faults files.new) result }
    ensures about { IsReplayAbout (F.begun files.old) (F.faults_about files.old) (F.faults_about files.new) result }

    ensures files { SameFiles (F.held files.old) (F.held files.new) }
    ensures appends { F.append_faults files.new ≡ F.append_faults files.old }
{
    'entries: while replay.step(files)? {}
    Ok(())
}
