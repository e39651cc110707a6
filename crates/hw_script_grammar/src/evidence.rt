//! Lines that define evidence.

ghost use Rattle.std.specs.Prelude.{IfOk};
ghost use Rattle.hw_types.specs.Spelling.{Fits};
ghost use Rattle.hw_script_grammar.specs.{Names.{NamedFits}, Units.{next_unit, evidence_line}, Answers.{Gives}};

use crate::fault::Fault;
use crate::named::{Named, unsigned};
use crate::names::Names;
use crate::unit::new_name;
use crate::words::Words;
use hw_types::{Evidence, Vertex, WireUnit};
use std::alloc::Global;

/// Reads `NAME of NAME NAME`.
#[tactic(auto, unfolding(crate::specs::Units::evidence_line))]
pub(crate) fn evidence_line(
    alloc: Global,
    names: &Names,
    words: &mut Words<'_>,
) -> Result<Named, Fault>
    ensures named { Gives (λ named. named) result (evidence_line names.now words.old) }
    ensures fits { IfOk result NamedFits }
{
    let name = new_name(alloc, names, words)?;
    words.keyword("of")?;
    let left = next_unit(names, words)?;
    let right = next_unit(names, words)?;
    words.end()?;
    Ok(Named {
        name,
        vertex: Vertex::Evidence(Evidence {
            left: unsigned(left),
            right: unsigned(right),
        }),
        digest: None,
    })
}

/// Reads the name of a unit, and answers this unit.
#[tactic(auto, unfolding(crate::specs::Units::next_unit))]
fn next_unit(names: &Names, words: &mut Words<'_>) -> Result<WireUnit, Fault>
    ensures unit { Gives (λ unit. (unit, words.new)) result (next_unit names.now words.old) }
    ensures fits { IfOk result Fits }
{
    let word = words.word()?;
    let Some(unit) = names.unit(word) else {
        return Err(Fault::Grammar);
    };
    Ok(unit.copy()?)
}
