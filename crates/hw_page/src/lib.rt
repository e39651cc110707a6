//! Accountable safety on one page.
//!
//! `Page.antt` has a graph of units, its choice and its summits by relations alone: chains of citations, lanes, votes,
//! the best child. There is no table, no count of steps and no order of a list. The laws say that the theorem holds of
//! it, and that the definitions of the layers below, over journals, are those of that page.
#![tactic(auto)]

ghost use Rattle.hw_page.specs.Page.{PageSafety, PageOneChain, ChoiceIsTheForkChoice, ChoiceIsThere};
ghost use Rattle.hw_page.specs.OfJournals.{LawfulIsAPage, PageIsOfJournals, PageIsOfTwoJournals, BlocksOfJournals, SomeBlockIsFinal};
ghost use Rattle.hw_page.specs.Choice.{LawfulIsAcyclic, ChoiceIsOne};

/// Accountable safety of a graph of units, and the one choice that such a graph has.
///
/// A block that has a summit in a part of the graph is the fork choice of the whole or an ancestor of it, or the
/// faulty validators weigh at least their share of the quorum's surplus. So two such blocks are on one chain.
pub fn one_page()
    ensures safety { PageSafety }
    ensures chain { PageOneChain }
    ensures choice { ChoiceIsTheForkChoice }
    ensures there { ChoiceIsThere }
{}

/// What a journal settles is a graph of that page, with its panorama, its fork choice and its summits. So is what two
/// journals settle together, where no two of their units clash. Some block has a summit in such a graph.
pub fn the_page_is_the_definitions()
    ensures lawful { LawfulIsAPage }
    ensures journals { PageIsOfJournals }
    ensures two { PageIsOfTwoJournals }
    ensures blocks { BlocksOfJournals }
    ensures some { SomeBlockIsFinal }
{}

/// In a lawful graph citations have no cycle. The fork choice is the walk over the choices that the units make by their
/// own panoramas, and nothing else is.
pub fn lawful_choice()
    ensures acyclic { LawfulIsAcyclic }
    ensures one { ChoiceIsOne }
{}
