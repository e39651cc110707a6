//! Generated journals: all validators make units round by round, and a node is given each round's units in another
//! order.

ghost use Rattle.std.specs.Prelude.{◌≡◌, ◌+◌, ◌<◌, ◌≤◌, length, None, IfOk, OnOk};
ghost use Rattle.rand_chacha.specs.ChaCha.{key_of};
ghost use Rattle.hw_types.specs.{Limits.{config_fault}, Real.{setting_of}};
ghost use Rattle.hw_core.specs.Promises.{begun};
ghost use Rattle.hw_honest.specs.Generated.{gen_config, gen_key, gen_journal, journal_of_rounds, AreTotals};
ghost use Rattle.hw_cluster.specs.{Generating.{given, IsAfter}, Nodes.{AllFit}, Numbers.{word_in, totals_of}};

use crate::drawn::drawn_config;
use crate::lanes::Lanes;
use crate::made::{ROUND, make_round};
use crate::named::NamedVertex;
use crate::nodes::begin;
use crate::order::shuffle;
use crate::words::{Words, key_for};
use hw_codec::instance_of;
use hw_core::Core;
use hw_rounds::LeaderTable;
use hw_types::{Config, OutOfMemory};
use std::alloc::Global;

/// How many validators make the units of a generated journal.
const VALIDATORS: u32 = 10;

/// What came of a generated journal.
#[derive(Clone, Copy, Debug, PartialEq, Eq)]
pub struct GenSummary {
    /// How many units are settled.
    pub units: u64,
    /// How many blocks are decided.
    pub finals: u64,
    /// The height of the block that was decided last, None where none is.
    pub last: Option<u64>,
}

/// Gives a node the units of `rounds` rounds, and counts what comes of them.
///
/// There are ten validators of weight 1, a threshold of 3, three levels and 1 to 4,096 rounds of 16 milliseconds. The
/// key is the SHA-256 digest of the bytes of `gen` and the number's eight bytes. It draws the leaders and gives the
/// words, those of ChaCha8's first stream.
///
/// Round j begins at 16 j milliseconds. Its leader makes a block then, whose value is j as four bytes. Each of the
/// others makes a unit 1 millisecond later, over the units up to that block. All make one 10 milliseconds after the
/// round's beginning, over the units up to those. Signatures are zero bytes, and are taken for right.
///
/// A round's twenty units are put into another order before the node is given them. From the last place down to the
/// second, each is swapped with the place that the next word names. The word is taken modulo the number of places up
/// to the one that is swapped.
///
/// Beside the node, no more is kept than one round's units and the names of the validators' last ones. The node's
/// memory is left to the end of the process.
pub fn generate(alloc: Global, number: u64, rounds: u32) -> Result<GenSummary, OutOfMemory>
    requires some { 1 ≤ rounds }
    requires few { rounds ≤ 4096 }
    ensures { IfOk result (λ n. AreTotals (setting_of (gen_config (gen_key number))) (gen_journal number rounds) (totals_of n)) }
{
    let key = key_for(b"gen", number);
    let config = gen_config(alloc, key)?;
    totals(alloc, &config, key, rounds)
}

/// The configuration of a generated journal.
fn gen_config(alloc: Global, key: [u8; 32]) -> Result<Config, OutOfMemory>
    ensures { IfOk result (λ config. config ≡ gen_config key) }
{
    drawn_config(alloc, key, VALIDATORS, 3, 3)
}

/// What came of what a node was given.
fn summary(core: &Core) -> GenSummary
    ensures { AreTotals (setting_of core.now.config) core.now.journal (totals_of result) }
{
    let finals = core.decision_count();
    let last = if finals > 0 {
        Some(core.decision(finals - 1).height)
    } else {
        None
    };
    GenSummary {
        units: u64::from(core.settled_count()),
        finals,
        last,
    }
}

/// What comes of the units of `rounds` rounds, of these ten validators.
fn totals(
    alloc: Global,
    config: &Config,
    key: [u8; 32],
    rounds: u32,
) -> Result<GenSummary, OutOfMemory>
    requires lawful { config_fault config.now ≡ None }
    requires ten { length config.now.weights ≡ 10 }
    requires rounds { rounds ≤ 4096 }
    ensures { IfOk result (λ n. let s = setting_of config.now in AreTotals s (journal_of_rounds s (word_in (key_of key)) rounds) (totals_of n)) }
{
    let table = LeaderTable::new(alloc, config)?;
    let mut core = begin(alloc, config.copy()?)?;
    play(alloc, &mut core, &table, config, key, rounds)?;
    let ended = summary(&core);
    // The program that asks for this ends after it, and so the node's memory is left to that end.
    core.leave();
    Ok(ended)
}

/// Gives the units of `rounds` rounds to a node that received nothing. The words of the key put them into order.
fn play(
    alloc: Global,
    core: &mut Core,
    table: &LeaderTable,
    config: &Config,
    key: [u8; 32],
    rounds: u32,
) -> Result<(), OutOfMemory>
    requires lawful { config_fault config.now ≡ None }
    requires ten { length config.now.weights ≡ 10 }
    requires rounds { rounds ≤ 4096 }
    requires table { table.now ≡ config.now }
    requires begun { core.old ≡ begun config.now }
    ensures { OnOk result (core.new ≡ record { config = config.now; journal = journal_of_rounds (setting_of config.now) (word_in (key_of key)) rounds; asked = None }) }
{
    let mut lanes = Lanes::new(alloc, instance_of(alloc, config)?, VALIDATORS)?;
    run(core, &mut Words::new(key), &mut lanes, table, rounds)
}

/// Makes `rounds` rounds one after the other, and gives each round's units to a node.
fn run(
    core: &mut Core,
    words: &mut Words,
    lanes: &mut Lanes,
    table: &LeaderTable,
    rounds: u32,
) -> Result<(), OutOfMemory>
    requires ten { length table.now.weights ≡ 10 }
    requires rounds { rounds ≤ 4096 }
    requires first { IsAfter table.now words.old.key 0 core.old words.old lanes.old }
    ensures { OnOk result (IsAfter table.now words.old.key rounds core.new words.new lanes.new) }
{
    for done in 0..rounds {
        give_round(core, words, lanes, table, done)?;
    }
    Ok(())
}

/// Gives the units of one round more to a node.
fn give_round(
    core: &mut Core,
    words: &mut Words,
    lanes: &mut Lanes,
    table: &LeaderTable,
    done: u32,
) -> Result<(), OutOfMemory>
    requires ten { length table.now.weights ≡ 10 }
    requires rounds { done < 4096 }
    requires after { IsAfter table.now words.old.key done core.old words.old lanes.old }
    ensures { OnOk result (IsAfter table.now words.old.key (done + 1) core.new words.new lanes.new) }
{
    let round = done + 1;
    let leader = table.leader(ROUND * u64::from(round));
    let mut units = make_round(lanes, leader, round)?;
    shuffle(units.as_mut_slice(), words);
    give_all(core, units)
}

/// Gives these units to a node, one after the other.
fn give_all(core: &mut Core, units: Vec<NamedVertex>) -> Result<(), OutOfMemory>
    requires { AllFit units.items }
    ensures { OnOk result (core.new ≡ given core.old units.items) }
{
    for unit in units {
        let _ = unit.give(core)?;
    }
    Ok(())
}
