//! Units that a panorama names.

ghost use Rattle.std.specs.Prelude.{◌≡◌, ◌<◌, ◌-◌, length, IfSome, IfNone};
ghost use Rattle.hw_dag.specs.declared.numbers.UnitNo.{UnitNo as Number};
ghost use Rattle.hw_dag.specs.declared.numbers.View.TheVariants as view;
ghost use Rattle.hw_dag.specs.Dag.{count_of, unit_at, view_at};
ghost use Rattle.hw_dag.specs.Tables.{number_of};
ghost use Rattle.hw_rules.specs.Judged.{before_of};

use hw_dag::{Dag, Panorama, Prepared, Slot, Unit, UnitNo, View};
use hw_types::WireUnit;

/// The unit that a slot names.
fn unit_in(panorama: &Panorama, validator: u32) -> Option<UnitNo>
    requires { validator < length panorama.now }
    ensures { result ≡ number_of (view_at panorama.now validator) }
{
    named(panorama.get(validator))
}

/// The unit that what is seen of a validator names.
fn named(view: View) -> Option<UnitNo>
    ensures { result ≡ number_of view }
{
    match view {
        View::Correct(no) => Some(no),
        View::Absent | View::Faulty => None,
    }
}

/// The unit that it cites of a validator.
fn cited(prepared: &Prepared, validator: u32) -> Option<UnitNo>
    requires { validator < length prepared.now.panorama }
    ensures { result ≡ number_of (view_at prepared.now.panorama validator) }
{
    unit_in(prepared.panorama(), validator)
}

/// The unit that it cites of a validator, unless the known slots name it too.
pub fn cited_beside(known: &[Slot], prepared: &Prepared, validator: u32) -> Option<UnitNo>
    requires { validator < length prepared.now.panorama }
    ensures cited { IfSome result (λ no. view_at prepared.now.panorama validator ≡ view.Correct no) }
    ensures known { IfNone result ((no : Number) → view_at prepared.now.panorama validator ≡ view.Correct no → view_at known.now validator ≡ view.Correct no) }
{
    let slot = prepared.panorama().slot(validator);
    let place = validator as usize;
    if place < known.len() && known[place].is(slot) {
        return None;
    }
    named(slot.view())
}

/// The unit that it cites of its own creator.
pub fn previous(prepared: &Prepared) -> Option<UnitNo>
    requires { prepared.now.signed.unit.creator < length prepared.now.panorama }
    ensures { result ≡ before_of prepared.now }
{
    cited(prepared, prepared.signed().unit.creator)
}

/// A unit of the graph, as its creator signed it.
pub fn wire_unit(dag: &Dag, no: UnitNo) -> &WireUnit
    requires { no.0 < count_of dag.now }
    ensures { result.now ≡ (unit_at dag.now no.0).signed.unit }
{
    &dag.unit(no).signed().unit
}

/// The newest unit of the graph, if it has one. Most units observe nearly what that one does, and what it
/// observes is known to be lawful.
pub fn newest(dag: &Dag) -> Option<&Unit>
    ensures some { IfSome result (λ unit. 0 < count_of dag.now) }
    ensures last { IfSome result (λ unit. unit.now ≡ unit_at dag.now (count_of dag.now - 1)) }
{
    let count = dag.count();
    if count == 0 {
        return None;
    }
    Some(dag.unit(UnitNo(count - 1)))
}
