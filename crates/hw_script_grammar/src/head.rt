//! The settings at the head of a script.

ghost use Rattle.std.specs.Prelude.{◌≡◌, ◌+◌, length, None, IfOk, OnOk};
ghost use Rattle.hw_types.specs.Limits.{config_fault};
ghost use Rattle.hw_script_grammar.specs.Lines.{lines_in, first_number};
ghost use Rattle.hw_script_grammar.specs.Settings.{no_settings, no_head, once, with_setting, with_words, config_of, head_from, config_or_line};
ghost use Rattle.hw_script_grammar.specs.Answers.{Gives, Reads};

use crate::fault::{Fault, ScriptError};
use crate::lines::{Line, Lines};
use crate::setting::{Setting, setting_of};
use crate::words::Words;
use hw_types::{Config, IndexList, Leaders, USUAL_PARKED, USUAL_RECORDS, WeightList};
use std::alloc::Global;

/// What the settings lines that were read have set.
#[derive(Drop)]
pub(crate) struct Settings {
    weights: Option<WeightList>,
    ftt: Option<u64>,
    levels: Option<u8>,
    exponents: Option<(u8, u8)>,
    leaders: Option<IndexList>,
    records: Option<u32>,
    parked: Option<u32>,
    end: Option<u64>,
}

/// The settings of a script, and the number of their last line. The number is 0 where there are none.
#[derive(Drop)]
pub(crate) struct Head {
    settings: Settings,
    last: u64,
}

/// Reads the settings lines, up to the first line that is none.
#[tactic(auto, using(crate::proofs::HeadLaws::one_more, crate::proofs::HeadLaws::wrong_line, crate::proofs::HeadLaws::is_done))]
pub(crate) fn read_head(alloc: Global, lines: &mut Lines<'_>) -> Result<Head, ScriptError>
    ensures head { Reads (λ head. (head, lines_in lines.new)) result (head_from no_head (lines_in lines.old)) }
    ensures number { lines.new.before + length lines.new.texts ≡ lines.old.before + length lines.old.texts }
{
    let mut settings = Settings::new();
    let mut last = 0;
    while let Some(line) = lines.setting() {
        let Line { number, mut words } = line;
        match settings.read(alloc, &mut words) {
            Ok(()) => last = number,
            Err(fault) => return Err(fault.in_line(number)),
        }
    }
    Ok(Head { settings, last })
}

/// The configuration that the head sets, or the number of the line that is wrong. The configuration keeps its limits.
#[tactic(auto, unfolding(crate::specs::Settings::config_or_line))]
pub(crate) fn config_or_line(head: Head, lines: &mut Lines<'_>) -> Result<Config, ScriptError>
    ensures config { Reads (λ config. config) result (config_or_line (lines.old.before + length lines.old.texts + 1) head (lines_in lines.old)) }
    ensures lawful { IfOk result (λ config. config_fault config ≡ None) }
    ensures lines { OnOk result (lines.new ≡ lines.old) }
{
    let Head { settings, last } = head;
    let Some(config) = settings.config() else {
        return Err(ScriptError::Line(first_number(lines)));
    };
    match config.check() {
        Ok(()) => Ok(config),
        Err(_fault) => Err(ScriptError::Line(last)),
    }
}

/// The number of the first line that isn't skipped. Where there is none, that of the last line plus one.
fn first_number(lines: &mut Lines<'_>) -> u64
    ensures { result ≡ first_number (lines.old.before + length lines.old.texts + 1) (lines_in lines.old) }
{
    match lines.next() {
        Some(line) => line.number,
        None => lines.next_number(),
    }
}

impl Settings {
    /// No setting is set.
    fn new() -> Settings
        ensures { result ≡ no_settings }
    {
        Settings {
            weights: None,
            ftt: None,
            levels: None,
            exponents: None,
            leaders: None,
            records: None,
            parked: None,
            end: None,
        }
    }

    /// Reads the words of a settings line.
    #[tactic(auto, unfolding(crate::specs::Settings::with_words))]
    fn read(&mut self, alloc: Global, words: &mut Words<'_>) -> Result<(), Fault>
        ensures { Gives (λ _. self.new) result (with_words self.old words.old) }
    {
        let setting = setting_of(alloc, words)?;
        self.set(setting)
    }

    /// Sets one setting. `Grammar` where it is set already.
    #[tactic(auto, unfolding(crate::specs::Settings::with_setting))]
    fn set(&mut self, setting: Setting) -> Result<(), Fault>
        ensures { Gives (λ _. self.new) result (with_setting self.old setting) }
    {
        match setting {
            Setting::Weights(weights) => put_once(&mut self.weights, weights),
            Setting::Threshold(ftt) => put_once(&mut self.ftt, ftt),
            Setting::Levels(levels) => put_once(&mut self.levels, levels),
            Setting::Exponents(least, greatest) => put_once(&mut self.exponents, (least, greatest)),
            Setting::Leaders(leaders) => put_once(&mut self.leaders, leaders),
            Setting::Records(records) => put_once(&mut self.records, records),
            Setting::Parked(parked) => put_once(&mut self.parked, parked),
            Setting::End(end) => put_once(&mut self.end, end),
        }
    }

    /// The configuration, where no required setting is missing.
    #[tactic(auto, unfolding(crate::specs::Settings::config_of))]
    fn config(self) -> Option<Config>
        ensures { result ≡ config_of self }
    {
        let Settings {
            weights,
            ftt,
            levels,
            exponents,
            leaders,
            records,
            parked,
            end,
        } = self;
        let weights = weights?;
        let ftt = ftt?;
        let levels = levels?;
        let (min_exponent, max_exponent) = exponents?;
        let leaders = leaders?;
        Some(Config {
            weights,
            ftt,
            levels,
            min_exponent,
            max_exponent,
            leaders: Leaders::Table(leaders),
            max_records: records.unwrap_or(USUAL_RECORDS),
            max_parked: parked.unwrap_or(USUAL_PARKED),
            end,
        })
    }
}

/// Puts a value into an empty place. `Grammar` where the place has a value already.
fn put_once<T: Drop>(slot: &mut Option<T>, value: T) -> Result<(), Fault>
    ensures { Gives (λ _. slot.new) result (once slot.old value) }
{
    if slot.is_some() {
        return Err(Fault::Grammar);
    }
    *slot = Some(value);
    Ok(())
}
