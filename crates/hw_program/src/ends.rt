//! How a run of a node ends.

ghost use Rattle.std.specs.Prelude.{◌≡◌, ◌≢◌, IfOk, IfErr, ◌++◌, OnOk};
ghost use Rattle.hw_service.specs.Begin.{names_of};
ghost use Rattle.hw_service.specs.declared.fault.ServiceFault.TheVariants as ServiceFaults;
ghost use Rattle.hw_commands.specs.Texts.{input_ended, read_fault_ended};
ghost use Rattle.hw_commands.specs.declared.ended.RunFault.TheVariants as RunFaults;
ghost use Rattle.hw_program.specs.Served.{reported_status, settings_text, service_stopped, Tells, EndsBy};

use hw_commands::{
    APPEND_FAULT_LINE, DONE, Ended, LIMIT, LINK_FAULT, READ_FAULT, READ_FAULT_LINE, RunFault,
    WRITE_FAULT, bad_keys, clash, finish, input, input_end, out_of_memory, stopped, usage,
};
use hw_io::Sink;
use hw_service::{Served, ServiceFault, Sources};
use hw_settings::SettingsFault;
use hw_text::{put_limit, put_word};
use hw_types::{Bytes, OutOfMemory};
use std::alloc::Global;

/// Ends a run of a node that came to this, and answers the status. The line of what stopped it is written after
/// what was written before, if the output takes it. After a report, and where a write failed, nothing is written.
#[tactic(auto, using(crate::proofs::ServedLaws::ends_told))]
pub fn end_run<S: Sink>(
    alloc: Global,
    sources: Sources<'_>,
    came_to: Result<Served, ServiceFault>,
    out: &mut S,
) -> u8
    ensures { EndsBy (names_of sources.entry) came_to result (record { taken = S.taken out.old; faults = S.faults out.old; wants = S.wants out.old }) (record { taken = S.taken out.new; faults = S.faults out.new; wants = S.wants out.new }) }
{
    match came_to {
        Ok(served) => status_of(&served),
        Err(ServiceFault::Write) => WRITE_FAULT,
        Err(ServiceFault::OutOfMemory) => out_of_memory(out),
        Err(fault) => tell(alloc, sources, fault, out),
    }
}

/// The status of a run that came to its report.
fn status_of(served: &Served) -> u8
    ensures { result ≡ reported_status served.now }
{
    if served.limits > 0 {
        LIMIT
    } else if served.link_failed {
        LINK_FAULT
    } else {
        DONE
    }
}

/// Writes the line of what stopped the run, and answers the status. The fault is neither one of the output nor out of
/// memory.
fn tell<S: Sink>(alloc: Global, sources: Sources<'_>, fault: ServiceFault, out: &mut S) -> u8
    requires write { fault ≢ ServiceFaults.Write }
    ensures { Tells (service_stopped (names_of sources.entry) fault) result (record { taken = S.taken out.old; faults = S.faults out.old; wants = S.wants out.old }) (record { taken = S.taken out.new; faults = S.faults out.new; wants = S.wants out.new }) }
{
    match stopped_run(alloc, sources, fault) {
        Ok(ended) => finish(out, ended.status, ended.text.as_slice()),
        Err(RunFault::Read) => finish(out, READ_FAULT, READ_FAULT_LINE.as_bytes()),
        Err(RunFault::Append) => finish(out, WRITE_FAULT, APPEND_FAULT_LINE.as_bytes()),
        Err(RunFault::OutOfMemory) => out_of_memory(out),
    }
}

/// The status and the line of what stopped the run.
fn stopped_run(alloc: Global, sources: Sources<'_>, fault: ServiceFault) -> Result<Ended, RunFault>
    requires write { fault ≢ ServiceFaults.Write }
    ensures said { IfOk result (λ ended. ended ≡ service_stopped (names_of sources.entry) fault) }
    ensures read { IfErr result (λ f. f ≡ RunFaults.Read → service_stopped (names_of sources.entry) fault ≡ read_fault_ended) }
    ensures append { IfErr result (λ f. f ≡ RunFaults.Append → fault ≡ ServiceFaults.Append) }
{
    match fault {
        ServiceFault::Settings(fault) => Ok(bad_settings(alloc, sources.config, fault)?),
        ServiceFault::NoValidator => Ok(usage(alloc)?),
        ServiceFault::Keys(place) => Ok(bad_keys(alloc, sources.keys, place)?),
        ServiceFault::Log(fault) => stopped(alloc, sources.log, fault),
        ServiceFault::Clash(units) => Ok(clash(alloc, &units.known, &units.other)?),
        ServiceFault::Read => Err(RunFault::Read),
        ServiceFault::Append => Err(RunFault::Append),
        ServiceFault::Write | ServiceFault::OutOfMemory => Err(RunFault::OutOfMemory),
    }
}

/// The line for settings in the file of this name that are no configuration, and its status.
#[tactic(auto, using(std::proofs::Common::append_assoc), unfolding(hw_commands::specs::Texts::input_ended))]
fn bad_settings(alloc: Global, name: &str, fault: SettingsFault) -> Result<Ended, OutOfMemory>
    ensures { IfOk result (λ ended. ended ≡ input_ended name.now (settings_text fault)) }
{
    let mut text = input(alloc, name)?;
    put_settings(&mut text, fault)?;
    input_end(text)
}

/// Puts the text of what is wrong with settings last. Out of memory has none.
#[tactic(auto, using(std::proofs::Common::append_assoc), unfolding(crate::specs::Served::settings_text))]
fn put_settings(text: &mut Bytes, fault: SettingsFault) -> Result<(), OutOfMemory>
    ensures { OnOk result (text.new ≡ text.old ++ settings_text fault) }
{
    match fault {
        SettingsFault::Form => put_word(text, "config form"),
        SettingsFault::Fault(fault) => {
            put_word(text, "config ")?;
            put_limit(text, fault)
        }
        SettingsFault::OutOfMemory => Ok(()),
    }
}
