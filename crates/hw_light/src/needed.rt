//! Whom units mark as faulty, and what they list as endorsed.

ghost use Rattle.std.specs.{Prelude.{◌≡◌, ℕ, ◌<◌, ◌||◌, IfOk, OnOk}, List.{list_any}};
ghost use Rattle.hw_types.specs.{Graph.{digest_eq, is_faulty_mark, slot}, Rules.{has_digest}, declared.unit.Digest.{Digest as Name}};
ghost use Rattle.hw_light.specs.{Extract.{is_marked_by, is_listed_by}, Under.{AreKnown, nodes_at}};
ghost use Rattle.hw_dag.specs.Dag.{count_of, node_at};

use hw_dag::{Dag, UnitNo, View};
use hw_names::NameTable;
use hw_types::{Digest, OutOfMemory};
use std::alloc::Global;

/// Whether one of these units marks the validator as faulty.
pub(crate) fn is_marked_by(dag: &Dag, numbers: &[UnitNo], validator: u32) -> bool
    requires known { AreKnown dag.now numbers.now }
    requires validator { validator < dag.now.validators }
    ensures { result ≡ is_marked_by (nodes_at dag.now numbers.now) validator }
{
    for number in numbers {
        if marks(dag, *number, validator) {
            return true;
        }
    }
    false
}

/// Whether the unit marks the validator as faulty.
fn marks(dag: &Dag, number: UnitNo, validator: u32) -> bool
    requires known { number.0 < count_of dag.now }
    requires validator { validator < dag.now.validators }
    ensures { result ≡ is_faulty_mark (slot (node_at dag.now number.0).unit.panorama validator) }
{
    dag.recall_graph();
    matches!(dag.unit(number).panorama().get(validator), View::Faulty)
}

/// The digests in the endorsed lists of these units.
pub(crate) fn listed_by(
    alloc: Global,
    dag: &Dag,
    numbers: &[UnitNo],
) -> Result<NameTable, OutOfMemory>
    requires { AreKnown dag.now numbers.now }
    ensures { IfOk result (λ listed. (d : Name) → list_any (digest_eq d) listed.names ≡ is_listed_by (nodes_at dag.now numbers.now) d) }
{
    let mut listed = NameTable::new(alloc);
    for number in numbers {
        add_listed(
            &mut listed,
            dag.unit(*number).signed().unit.endorsed.as_slice(),
        )?;
    }
    Ok(listed)
}

/// Puts each of the digests into the set.
fn add_listed(listed: &mut NameTable, digests: &[Digest]) -> Result<(), OutOfMemory>
    ensures { OnOk result ((d : Name) → list_any (digest_eq d) listed.new.names ≡ (list_any (digest_eq d) listed.old.names || has_digest digests.now d)) }
{
    for digest in digests {
        add_digest(listed, *digest)?;
    }
    Ok(())
}

/// Puts the digest into the set.
fn add_digest(listed: &mut NameTable, digest: Digest) -> Result<(), OutOfMemory>
    ensures { OnOk result ((d : Name) → list_any (digest_eq d) listed.new.names ≡ (list_any (digest_eq d) listed.old.names || digest_eq d digest)) }
{
    if listed.find(&digest).is_some() {
        return Ok(());
    }
    listed.reserve(1)?;
    listed.push(digest);
    Ok(())
}
