//! Bodies of JSON, as compact texts with keys in the order of their bytes.

ghost use Rattle.std.specs.Prelude.{◌≡◌, false, option_map, string_bytes, IfOk};
ghost use Rattle.serde_json.specs.Data.{array};
ghost use Rattle.serde_json.specs.View.{items_view, view};
ghost use Rattle.serde_json.specs.Written.{compact_text, has_float};
ghost use Rattle.define_desk.specs.Desk.{withdrawn_body as body_of_withdrawn};
ghost use Rattle.office_desk.specs.Bodies.{draw_data, draw_text, own_data, own_text, seat_data, seat_text, text_data, truth_data, withdrawn_data};

use serde_json::{Value, json};
use std::alloc::{AllocError, Global};

/// Returns the body for what a volunteer sees: the chance and whether the panel has the volunteer, both once they are published; the id;
/// the phase of the last round, and its number; and whether the volunteer withdrew.
pub(crate) fn own_body(
    alloc: Global,
    chance: Option<String>,
    drawn: Option<bool>,
    id: &str,
    phase: &str,
    round: usize,
    withdrawn: bool,
) -> Result<String, AllocError>
    ensures { IfOk result (λ body. string_bytes body ≡ own_text (option_map (λ text. string_bytes text) chance) drawn id.now phase.now round withdrawn) }
{
    let value = own_value(alloc, chance, drawn, id, phase, round, withdrawn)?;
    value.to_string(alloc)
}

fn own_value(
    alloc: Global,
    chance: Option<String>,
    drawn: Option<bool>,
    id: &str,
    phase: &str,
    round: usize,
    withdrawn: bool,
) -> Result<Value, AllocError>
    ensures { IfOk result (λ value. view value ≡ own_data (option_map (λ text. string_bytes text) chance) drawn id.now phase.now round withdrawn) }
{
    let chance = text_or_null(chance);
    let drawn = truth_or_null(drawn);
    json!(in alloc; {"chance": chance, "drawn": drawn, "id": id, "phase": phase, "round": round, "withdrawn": withdrawn})
}

fn text_or_null(text: Option<String>) -> Value
    ensures { view result ≡ text_data (option_map (λ text. string_bytes text) text) }
{
    match text {
        Some(text) => Value::String(text),
        None => Value::Null,
    }
}

fn truth_or_null(truth: Option<bool>) -> Value
    ensures { view result ≡ truth_data truth }
{
    match truth {
        Some(truth) => Value::Bool(truth),
        None => Value::Null,
    }
}

/// Returns the body for a volunteer's seat: the numbers of the rounds of which the volunteer dropped out, the id, and whether the volunteer
/// is seated.
pub(crate) fn seat_body(
    alloc: Global,
    dropped: Vec<Value>,
    id: &str,
    seated: bool,
) -> Result<String, AllocError>
    requires { has_float (array (items_view dropped.items)) ≡ false }
    ensures { IfOk result (λ body. string_bytes body ≡ seat_text (compact_text (array (items_view dropped.items))) id.now seated) }
{
    let dropped = array_of(dropped);
    let value = seat_value(alloc, dropped, id, seated)?;
    value.to_string(alloc)
}

fn seat_value(alloc: Global, dropped: Value, id: &str, seated: bool) -> Result<Value, AllocError>
    ensures { IfOk result (λ value. view value ≡ seat_data (view dropped) id.now seated) }
{
    json!(in alloc; {"dropped": dropped, "id": id, "seated": seated})
}

/// Returns the body for what is published of a draw: the digits of the dice, the ids of the panel's members, the seal
/// and the ticket, and the number of tickets if one was kept with the seal.
pub(crate) fn draw_body(
    alloc: Global,
    digits: &str,
    panel: Vec<Value>,
    seal: &str,
    ticket: &str,
    tickets: Option<String>,
) -> Result<String, AllocError>
    requires { has_float (array (items_view panel.items)) ≡ false }
    ensures { IfOk result (λ body. string_bytes body ≡ draw_text digits.now (compact_text (array (items_view panel.items))) seal.now ticket.now (option_map (λ text. string_bytes text) tickets)) }
{
    let panel = array_of(panel);
    let value = draw_value(alloc, digits, panel, seal, ticket, tickets)?;
    value.to_string(alloc)
}

fn array_of(values: Vec<Value>) -> Value
    ensures { view result ≡ array (items_view values.items) }
{
    Value::from(values)
}

fn draw_value(
    alloc: Global,
    digits: &str,
    panel: Value,
    seal: &str,
    ticket: &str,
    tickets: Option<String>,
) -> Result<Value, AllocError>
    ensures { IfOk result (λ value. view value ≡ draw_data digits.now (view panel) seal.now ticket.now (option_map (λ text. string_bytes text) tickets)) }
{
    match tickets {
        None => json!(in alloc; {"digits": digits, "panel": panel, "seal": seal, "ticket": ticket}),
        Some(tickets) => {
            let tickets = Value::String(tickets);
            json!(in alloc; {"digits": digits, "panel": panel, "seal": seal, "ticket": ticket, "tickets": tickets})
        }
    }
}

/// Returns the body for a volunteer who withdrew.
pub(crate) fn withdrawn_body(alloc: Global, id: &str) -> Result<String, AllocError>
    ensures { IfOk result (λ body. string_bytes body ≡ body_of_withdrawn id.now) }
{
    let value = withdrawn_value(alloc, id)?;
    value.to_string(alloc)
}

fn withdrawn_value(alloc: Global, id: &str) -> Result<Value, AllocError>
    ensures { IfOk result (λ value. view value ≡ withdrawn_data id.now) }
{
    json!(in alloc; {"id": id, "withdrawn": true})
}
