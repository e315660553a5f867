//! Tests whether the facts of `IsTables` hold of the tables that are made of given parts.

ghost use Rattle.std.specs.Prelude.{◌≡◌, ◌↔◌, ◌&&◌, nat_le, nat_lt, List, length, bytes_eq, IsTrue, Some, IfOk};
ghost use Rattle.std.specs.List.{AllByRecursion, list_all, zip};
ghost use Rattle.define_pools.specs.Building.{ids};
ghost use Rattle.define_pools.specs.Lists.{all_different, includes_list};
ghost use Rattle.define_pools.specs.Lottery.{TotalAgrees};
ghost use Rattle.define_pools.specs.Pool.{Category as SeenCategory};
ghost use Rattle.define_offices.specs.Deciding.{fits_rules as row_fits};
ghost use Rattle.define_offices.specs.Facts.{AreRules, IsTables, KeepsBundle, KeepsDraw, KeepsRound, closed_but_last as each_is_closed_but_last, entry_hashes, entry_ids, has_drop, is_charter, is_entry as keeps_limits, rows_fit as all_fit};
ghost use Rattle.define_draws.specs.Lines.{member_ids};
ghost use Rattle.define_offices.specs.Tables.{Charter as SeenCharter, most_rows as rows_at_most};
ghost use Rattle.office_tables.specs.Seen.{register_test, seen_parts};

use crate::charters::{Charter, Rules};
use crate::drawn::{drawn_by, is_member};
use crate::kept_rounds::Round;
use crate::names::{is_household, is_name};
use crate::numbers::{Tickets, tickets_facts};
use crate::rows::Entry;
use crate::tables::Parts;
use bundle_text::Bundle;
use define_offices::Phase;
use pool_model::{Category, Name, Panel, Pool, Volunteer, are_named};
use sealed_draw::total_agrees;
use std::alloc::{AllocError, Global};
use std::collections::BTreeSet;

/// The most rows that a register takes without a charter.
const USUAL_ROWS: usize = 400;

/// True if the facts of `IsTables` hold of the tables that have these parts.
pub(crate) fn are_tables(alloc: Global, parts: &Parts) -> Result<bool, AllocError>
    ensures { IfOk result (λ are. IsTrue are ↔ IsTables (seen_parts parts.now)) }
{
    charter_and_rules_keep(parts);
    if !is_register(alloc, &parts.charter, &parts.register, &parts.rules)? {
        return Ok(false);
    }
    if !closed_but_last(&parts.rounds) {
        return Ok(false);
    }
    rounds_keep(alloc, parts)
}

/// Does nothing; its contract says that a charter and rules are always within their limits, so `are_tables` needn't test them.
fn charter_and_rules_keep(parts: &Parts)
    ensures charter { (charter : SeenCharter) → parts.now.charter ≡ Some charter → IsTrue (is_charter charter) }
    ensures rules { (rules : List SeenCategory) → parts.now.rules ≡ Some rules → AreRules rules }
    ensures bounds { (bounds : List SeenCategory) → parts.now.bounds ≡ Some bounds → AreRules bounds }
{
    if let Some(charter) = &parts.charter {
        charter.facts();
    }
    if let Some(rules) = &parts.rules {
        let _categories = rules.categories();
    }
    if let Some(bounds) = &parts.bounds {
        let _categories = bounds.categories();
    }
}

/// True if there are at most as many rows as the charter says, their ids and households are names, each fits `rules`, and their ids and
/// digests are all different.
fn is_register(
    alloc: Global,
    charter: &Option<Charter>,
    register: &[Entry],
    rules: &Option<Rules>,
) -> Result<bool, AllocError>
    ensures { IfOk result (λ is. is ≡ register_test (rows_at_most charter.now) rules.now register.now) }
{
    if !are_rows(charter, register, rules) {
        return Ok(false);
    }
    if !ids_differ(alloc, register)? {
        return Ok(false);
    }
    hashes_differ(alloc, register)
}

/// True if there are at most as many rows as the charter says, their ids and households are names, and each fits `rules`.
fn are_rows(charter: &Option<Charter>, register: &[Entry], rules: &Option<Rules>) -> bool
    ensures { result ≡ (nat_le (length register.now) (rows_at_most charter.now) && list_all keeps_limits register.now && all_fit rules.now register.now) }
{
    register.len() <= most_rows(charter) && are_entries(register) && rows_fit(rules, register)
}

/// Returns how many rows the register takes.
pub fn most_rows(charter: &Option<Charter>) -> usize
    ensures { result ≡ rows_at_most charter.now }
{
    match charter {
        Some(charter) => charter.volunteers(),
        None => USUAL_ROWS,
    }
}

/// True if the ids and households of all rows are names.
fn are_entries(register: &[Entry]) -> bool
    ensures { result ≡ list_all keeps_limits register.now }
{
    register.iter().all(|entry| is_entry(entry))
}

fn is_entry(entry: &Entry) -> bool
    ensures { result ≡ keeps_limits entry.now }
{
    is_name(entry.id().as_str()) && is_household(entry.household())
}

/// True if there are no rows, or there are rules and each row has a value of each category.
fn rows_fit(rules: &Option<Rules>, register: &[Entry]) -> bool
    ensures { result ≡ all_fit rules.now register.now }
{
    match rules {
        Some(rules) => have_values(rules.categories(), register),
        None => register.is_empty(),
    }
}

/// True if each row has exactly one value of each category.
fn have_values(categories: &[Category], register: &[Entry]) -> bool
    ensures { result ≡ list_all (λ entry. row_fits categories.now entry.values) register.now }
{
    register
        .iter()
        .all(|entry| fits_rules(categories, entry.values()))
}

/// True if `values` has one name for each category, in the order of the categories, and each names a value of its category.
pub fn fits_rules(categories: &[Category], values: &[Name]) -> bool
    ensures { result ≡ row_fits categories.now values.now }
{
    values.len() == categories.len() && are_named(categories, values)
}

/// True if no id comes twice.
fn ids_differ(alloc: Global, register: &[Entry]) -> Result<bool, AllocError>
    ensures { IfOk result (λ differ. differ ≡ all_different (entry_ids register.now)) }
{
    let mut earlier: BTreeSet<&[u8]> = BTreeSet::new(alloc);
    for entry in register {
        let id = entry.id();
        let is_new = earlier.insert(id.as_bytes())?;
        if !is_new {
            return Ok(false);
        }
    }
    Ok(true)
}

/// True if no digest of a key comes twice.
fn hashes_differ(alloc: Global, register: &[Entry]) -> Result<bool, AllocError>
    ensures { IfOk result (λ differ. differ ≡ all_different (entry_hashes register.now)) }
{
    let mut earlier: BTreeSet<&[u8]> = BTreeSet::new(alloc);
    for entry in register {
        let hash = entry.hash();
        let is_new = earlier.insert(hash.as_bytes())?;
        if !is_new {
            return Ok(false);
        }
    }
    Ok(true)
}

/// True if there is a round, and each but the last is drawn and has a dropout.
fn closed_but_last(rounds: &[Round]) -> bool
    ensures { result ≡ each_is_closed_but_last rounds.now }
{
    !rounds.is_empty() && have_drops(&rounds[..rounds.len() - 1])
}

fn have_drops(rounds: &[Round]) -> bool
    ensures { result ≡ list_all has_drop rounds.now }
{
    rounds.iter().all(|round| round.has_drop())
}

/// True if `KeepsRound` holds of each round. That depends on charter, rules and register.
fn rounds_keep(alloc: Global, parts: &Parts) -> Result<bool, AllocError>
    ensures { IfOk result (λ keep. IsTrue keep ↔ AllByRecursion (KeepsRound (seen_parts parts.now)) parts.now.rounds.items) }
{
    for round in &parts.rounds {
        if !round_keeps(alloc, parts, round)? {
            return Ok(false);
        }
    }
    Ok(true)
}

/// True if `KeepsRound` holds of the round. That depends on charter, rules and register.
fn round_keeps(alloc: Global, parts: &Parts, round: &Round) -> Result<bool, AllocError>
    ensures { IfOk result (λ keeps. IsTrue keeps ↔ KeepsRound (seen_parts parts.now) round.now) }
{
    match round.bundle() {
        None => Ok(true),
        Some(bundle) => {
            if !bundle_keeps(parts, bundle) {
                return Ok(false);
            }
            let tickets = round.tickets();
            tickets_facts(tickets);
            match round.phase() {
                Phase::Drawn => {
                    draw_keeps(alloc, bundle, tickets, round.digits(), round.dropped())
                }
                _ => Ok(true),
            }
        }
    }
}

/// True if there are charter and rules, the weights of the bundle sum to its total, and the ids of its pool are those of the register, in
/// the same order.
fn bundle_keeps(parts: &Parts, bundle: &Bundle) -> bool
    ensures { IsTrue result ↔ KeepsBundle (seen_parts parts.now) bundle.now }
{
    bundle.facts();
    parts.charter.is_some()
        && parts.rules.is_some()
        && total_agrees(bundle)
        && have_ids(bundle.pool().volunteers(), &parts.register)
}

/// True if the volunteers have the ids of the rows, in the same order.
fn have_ids(volunteers: &[Volunteer], register: &[Entry]) -> bool
    ensures { IsTrue result ↔ (ids volunteers.now ≡ entry_ids register.now) }
{
    volunteers.len() == register.len() && ids_agree(volunteers, register)
}

/// True if the ids at each place that both lists have are equal.
fn ids_agree(volunteers: &[Volunteer], register: &[Entry]) -> bool
    ensures { result ≡ list_all (λ pair. bytes_eq pair.0.id pair.1.id) (zip volunteers.now register.now) }
{
    volunteers.iter().zip(register).all(|(volunteer, entry)| volunteer.id().as_bytes()
        == entry.id().as_bytes())
}

/// True if the digits name a ticket, and those who dropped out are from the panel of that ticket.
fn draw_keeps(
    alloc: Global,
    bundle: &Bundle,
    tickets: &Option<Tickets>,
    digits: &[u8],
    dropped: &[Name],
) -> Result<bool, AllocError>
    requires { TotalAgrees bundle.now.answer.lottery }
    ensures { IfOk result (λ keeps. IsTrue keeps ↔ KeepsDraw bundle.now tickets.now digits.now dropped.now) }
{
    tickets_facts(tickets);
    match drawn_by(alloc, bundle, tickets, digits)? {
        Some(drawn) => Ok(are_members(bundle.pool(), &drawn.panel, dropped)),
        None => Ok(false),
    }
}

/// True if each id is that of a member of the panel.
fn are_members(pool: &Pool, panel: &Panel, ids: &[Name]) -> bool
    requires { IsTrue (list_all (λ i. nat_lt i (length pool.now.volunteers)) panel.now) }
    ensures { result ≡ list_all (includes_list (member_ids pool.now panel.now)) ids.now }
{
    for id in ids {
        if !is_member(pool, panel, id) {
            return false;
        }
    }
    true
}
