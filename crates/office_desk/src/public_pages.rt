//! The pages that anybody may read: a bundle as it is kept, and a draw.

ghost use Rattle.std.specs.Prelude.{◌≡◌, codes, length, map, option_map, string_bytes, IfOk, IsUtf8};
ghost use Rattle.std.specs.Fmt.{decimal};
ghost use Rattle.serde_json.specs.Data.{string};
ghost use Rattle.serde_json.specs.View.{view};
ghost use Rattle.define_draws.specs.Lines.{bundle_seal as seal_of_bundle, member_ids};
ghost use Rattle.define_offices.specs.Pools.{drawn_lottery};
ghost use Rattle.define_desk.specs.Desk.{bundle_reply, draw_body as body_of_draw, draw_reply, if_by};
ghost use Rattle.define_desk.specs.Replies.{told, told_text};
ghost use Rattle.define_desk.specs.Views.{published as published_so, published_of as published_with};
ghost use Rattle.define_bundles.specs.BundleText.{bundle_spelling};
ghost use Rattle.office_tables.specs.Drawn.{Draws};
ghost use Rattle.office_desk.specs.Panels.{AreBelow};
ghost use Rattle.office_desk.specs.Sent.{sent_of};
ghost use Rattle.office_desk.specs.Shown.{CanBeDrawn};

use crate::answers::Answer;
use crate::bodies::draw_body;
use crate::published::{Published, published_of};
use crate::refusals::Refusal;
use crate::replies::{told_json, told_plain};
use bundle_text::{Bundle, write_bundle};
use office_requests::Request;
use office_tables::{Tables, Tickets, drawn_by};
use pool_model::{Panel, Pool};
use sealed_draw::{Draw, seal};
use serde_json::Value;
use std::alloc::{AllocError, Global};

/// Returns the reply to a request for the bundle of the round with this number.
pub(crate) fn bundle_answer(
    alloc: Global,
    tables: &Tables,
    number: usize,
    request: &Request,
) -> Result<Answer, AllocError>
    ensures { IfOk result (λ answer. answer ≡ sent_of (bundle_reply request.now (published_with (map published_so tables.now.rounds) number))) }
{
    match published_of(tables, number) {
        Published::Nothing => Ok(Answer::refused(Refusal::NotFound)),
        Published::TheBundle(bundle) => bundle_by(alloc, bundle, request),
        Published::TheDraw(bundle, _, _) => bundle_by(alloc, bundle, request),
    }
}

fn bundle_by(alloc: Global, bundle: &Bundle, request: &Request) -> Result<Answer, AllocError>
    ensures { IfOk result (λ answer. answer ≡ sent_of (if_by (codes "GET") request.now (told_text (bundle_spelling bundle.now)))) }
{
    if request.method() == b"GET".as_slice() {
        told_bundle(alloc, bundle)
    } else {
        Ok(Answer::refused(Refusal::GetOnly))
    }
}

fn told_bundle(alloc: Global, bundle: &Bundle) -> Result<Answer, AllocError>
    ensures { IfOk result (λ answer. answer ≡ sent_of (told_text (bundle_spelling bundle.now))) }
{
    bundle.facts();
    let text = write_bundle(alloc, bundle.pool(), bundle.answer())?;
    told_plain(alloc, &text)
}

/// Returns the reply to a request for the draw of the round with this number.
pub(crate) fn draw_answer(
    alloc: Global,
    tables: &Tables,
    number: usize,
    request: &Request,
) -> Result<Answer, AllocError>
    ensures { IfOk result (λ answer. answer ≡ sent_of (draw_reply request.now (published_with (map published_so tables.now.rounds) number))) }
{
    match published_of(tables, number) {
        Published::Nothing => Ok(Answer::refused(Refusal::NotFound)),
        Published::TheBundle(_) => Ok(Answer::refused(Refusal::NotFound)),
        Published::TheDraw(bundle, tickets, digits) => {
            draw_by(alloc, bundle, tickets, digits, request)
        }
    }
}

fn draw_by(
    alloc: Global,
    bundle: &Bundle,
    tickets: &Option<Tickets>,
    digits: &[u8],
    request: &Request,
) -> Result<Answer, AllocError>
    requires { CanBeDrawn bundle.now tickets.now digits.now }
    ensures { IfOk result (λ answer. answer ≡ sent_of (if_by (codes "GET") request.now (told (body_of_draw bundle.now tickets.now digits.now)))) }
{
    if request.method() == b"GET".as_slice() {
        told_draw(alloc, bundle, tickets, digits)
    } else {
        Ok(Answer::refused(Refusal::GetOnly))
    }
}

fn told_draw(
    alloc: Global,
    bundle: &Bundle,
    tickets: &Option<Tickets>,
    digits: &[u8],
) -> Result<Answer, AllocError>
    requires { CanBeDrawn bundle.now tickets.now digits.now }
    ensures { IfOk result (λ answer. answer ≡ sent_of (told (body_of_draw bundle.now tickets.now digits.now))) }
{
    match drawn_by(alloc, bundle, tickets, digits)? {
        Some(drawn) => {
            let body = drawn_body(alloc, bundle, tickets, digits, &drawn)?;
            told_json(alloc, body.as_str())
        }
        None => unreachable!(),
    }
}

/// Returns the body for what these digits draw from a bundle.
fn drawn_body(
    alloc: Global,
    bundle: &Bundle,
    tickets: &Option<Tickets>,
    digits: &[u8],
    drawn: &Draw,
) -> Result<String, AllocError>
    requires digits { IsUtf8 digits.now }
    requires drawn { Draws (drawn_lottery bundle.now tickets.now) (length bundle.now.pool.volunteers) digits.now drawn.now }
    ensures { IfOk result (λ body. string_bytes body ≡ body_of_draw bundle.now tickets.now digits.now) }
{
    let panel = member_values(alloc, bundle.pool(), &drawn.panel)?;
    let kept = bundle_seal(alloc, bundle)?;
    let ticket = drawn.ticket.unsigned_abs().to_string(alloc)?;
    let digits = String::from_utf8_lossy(alloc, digits)?;
    let number = tickets_text(alloc, tickets)?;
    draw_body(
        alloc,
        digits.as_str(),
        panel,
        kept.as_str(),
        ticket.as_str(),
        number,
    )
}

/// Returns a number of tickets as a text, or None if there is none.
fn tickets_text(alloc: Global, tickets: &Option<Tickets>) -> Result<Option<String>, AllocError>
    ensures { IfOk result (λ text. option_map (λ t. string_bytes t) text ≡ option_map decimal tickets.now) }
{
    match tickets {
        Some(tickets) => Ok(Some(tickets.count().to_string(alloc)?)),
        None => Ok(None),
    }
}

/// Returns the seal of a bundle.
fn bundle_seal(alloc: Global, bundle: &Bundle) -> Result<String, AllocError>
    ensures { IfOk result (λ kept. string_bytes kept ≡ seal_of_bundle bundle.now) }
{
    bundle.facts();
    let text = write_bundle(alloc, bundle.pool(), bundle.answer())?;
    seal(alloc, &text)
}

/// Returns the ids of a panel's members as values of JSON.
fn member_values(alloc: Global, pool: &Pool, panel: &Panel) -> Result<Vec<Value>, AllocError>
    requires { AreBelow (length pool.now.volunteers) panel.now }
    ensures { IfOk result (λ values. map view values.items ≡ map string (member_ids pool.now panel.now)) }
{
    let mut values = Vec::new(alloc);
    for number in panel.members() {
        let id = pool.volunteers()[*number].id();
        values.push(Value::try_from_str(alloc, id.as_str())?)?;
    }
    Ok(values)
}
