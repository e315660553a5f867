//! The pages about a volunteer, who asks with a key, and what `/me` tells.

ghost use Rattle.std.specs.Prelude.{◌≡◌, [], ◌∷◌, codes, option_map, string_bytes, IfOk};
ghost use Rattle.define_offices.specs.Deciding.{with_hash};
ghost use Rattle.define_draws.specs.Seal.{seal_of};
ghost use Rattle.define_desk.specs.Desk.{if_by, own_body as body_of_own, own_reply};
ghost use Rattle.define_desk.specs.Replies.{told};
ghost use Rattle.office_desk.specs.Pages.{body_of as body_on};
ghost use Rattle.office_desk.specs.Sent.{sent_of};
ghost use Rattle.office_desk.specs.Shown.{own_in, shown_to};

use crate::answers::Answer;
use crate::bodies::own_body;
use crate::chances::{chance_of, is_drawn};
use crate::published::{last_phase, last_published};
use crate::refusals::Refusal;
use crate::replies::told_json;
use crate::routes::OwnPage;
use crate::seat_page::seat_of;
use office_requests::{Key, Request};
use office_tables::{Entry, Tables, phase_name};
use sealed_draw::seal;
use std::alloc::{AllocError, Global};

/// Returns the reply to a request for a page about a volunteer.
pub(crate) fn own_page_answer(
    alloc: Global,
    tables: &Tables,
    page: OwnPage,
    request: &Request,
) -> Result<Answer, AllocError>
    ensures { IfOk result (λ answer. answer ≡ sent_of (if_by (codes "GET") request.now (own_reply (body_on page) tables.now request.now.keys))) }
{
    if request.method() == b"GET".as_slice() {
        own_answer(alloc, tables, page, request.keys())
    } else {
        Ok(Answer::refused(Refusal::GetOnly))
    }
}

/// Returns the reply to the keys that were given: the refusal `UnknownKey` unless there is exactly one, and it is a volunteer's.
fn own_answer(
    alloc: Global,
    tables: &Tables,
    page: OwnPage,
    keys: &[Key],
) -> Result<Answer, AllocError>
    ensures { IfOk result (λ answer. answer ≡ sent_of (own_reply (body_on page) tables.now keys.now)) }
{
    match keys {
        [key] => answer_to_key(alloc, tables, page, key),
        _ => Ok(Answer::refused(Refusal::UnknownKey)),
    }
}

fn answer_to_key(
    alloc: Global,
    tables: &Tables,
    page: OwnPage,
    key: &Key,
) -> Result<Answer, AllocError>
    ensures { IfOk result (λ answer. answer ≡ sent_of (own_reply (body_on page) tables.now (key.now ∷ []))) }
{
    match entry_of(alloc, tables.register(), key)? {
        Some(entry) => told_own(alloc, tables, page, entry),
        None => Ok(Answer::refused(Refusal::UnknownKey)),
    }
}

/// Returns the row with this key, if there is one.
pub(crate) fn entry_of<'a>(
    alloc: Global,
    register: &'a [Entry],
    key: &Key,
) -> Result<Option<&'a Entry>, AllocError>
    ensures { IfOk result (λ found. option_map (λ entry. entry.now) found ≡ with_hash register.now (seal_of key.now)) }
{
    let hash = seal(alloc, key.as_bytes())?;
    Ok(entry_with(register, hash.as_bytes()))
}

/// Returns the row with this digest of a key, if there is one.
fn entry_with<'a>(register: &'a [Entry], hash: &[u8]) -> Option<&'a Entry>
    ensures { option_map (λ entry. entry.now) result ≡ with_hash register.now hash.now }
{
    register
        .iter()
        .find(|entry| hash == entry.hash().as_bytes())
}

/// Returns the reply to the volunteer with this row.
fn told_own(
    alloc: Global,
    tables: &Tables,
    page: OwnPage,
    entry: &Entry,
) -> Result<Answer, AllocError>
    ensures { IfOk result (λ answer. answer ≡ sent_of (told (body_on page (shown_to tables.now entry.now) (own_in tables.now entry.now)))) }
{
    let body = body_of(alloc, tables, page, entry)?;
    told_json(alloc, body.as_str())
}

/// Returns the body of a page about the volunteer with this row.
fn body_of(
    alloc: Global,
    tables: &Tables,
    page: OwnPage,
    entry: &Entry,
) -> Result<String, AllocError>
    ensures { IfOk result (λ body. string_bytes body ≡ body_on page (shown_to tables.now entry.now) (own_in tables.now entry.now)) }
{
    match page {
        OwnPage::Standing => standing_of(alloc, tables, entry),
        OwnPage::Seat => seat_of(alloc, tables, entry),
    }
}

/// Returns the body for what the volunteer with this row sees of the last round.
fn standing_of(alloc: Global, tables: &Tables, entry: &Entry) -> Result<String, AllocError>
    ensures { IfOk result (λ body. string_bytes body ≡ body_of_own (shown_to tables.now entry.now) (own_in tables.now entry.now)) }
{
    let published = last_published(tables);
    own_body(
        alloc,
        chance_of(alloc, &published, entry.id())?,
        is_drawn(alloc, &published, entry.id())?,
        entry.id().as_str(),
        phase_name(last_phase(tables)),
        tables.rounds().len(),
        entry.withdrawn(),
    )
}
