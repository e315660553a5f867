//! Which page a path names.

ghost use Rattle.std.specs.Prelude.{◌≡◌, [], codes, IfOk, IsTrue, option_and_then, unwrap_or};
ghost use Rattle.std.specs.Char.{is_ascii_digit};
ghost use Rattle.std.specs.List.{list_all};
ghost use Rattle.std.specs.Str.Parse.{digits_value};
ghost use Rattle.define_desk.specs.Desk.{page_of as page_named, round_named as number_named};
ghost use Rattle.office_desk.specs.Pages.{is_round_text, seen_page};
ghost use Rattle.matchit.specs.Params.{AllText, named};
ghost use Rattle.office_desk.specs.Routes.{desk_routes, page_on, parts_of};

use matchit::{InsertError, Params, Router};
use std::alloc::{AllocError, Global};

/// What a path names.
#[derive(Clone, Copy, Debug, PartialEq, Eq)]
pub(crate) enum Page {
    /// The bundle of a round.
    Bundle { round: usize },
    /// The draw of a round.
    Draw { round: usize },
    /// A page about a volunteer.
    Own(OwnPage),
    /// A volunteer's withdrawal.
    Withdrawal,
}

/// The pages about a volunteer, who asks with a key.
#[derive(Clone, Copy, Debug, PartialEq, Eq)]
pub(crate) enum OwnPage {
    /// What the volunteer sees of the last round.
    Standing,
    /// The volunteer's seat and dropouts.
    Seat,
}

/// A route of the desk.
#[derive(Clone, Copy, Debug, PartialEq, Eq)]
pub(crate) enum Route {
    Standing,
    Seat,
    Withdrawal,
    Bundle,
    Draw,
}

/// Returns the routes of the desk.
fn routes(alloc: Global) -> Result<Router<Route>, InsertError>
    ensures { IfOk result (λ router. router ≡ desk_routes) }
{
    let mut router = Router::new(alloc);
    router.insert("/me", Route::Standing)?;
    router.insert("/me/seat", Route::Seat)?;
    router.insert("/me/withdraw", Route::Withdrawal)?;
    router.insert("/public/bundle/{*round}", Route::Bundle)?;
    router.insert("/public/draw/{*round}", Route::Draw)?;
    Ok(router)
}

/// Returns the page that a path names, if there is one.
pub(crate) fn page_of(alloc: Global, path: &str) -> Result<Option<Page>, AllocError>
    ensures { IfOk result (λ page. page ≡ option_and_then seen_page (page_named path.now)) }
{
    let Ok(router) = routes(alloc) else {
        return Err(AllocError);
    };
    Ok(page_by(&router, path))
}

/// Returns the page that a path names by the routes of the desk.
fn page_by(router: &Router<Route>, path: &str) -> Option<Page>
    requires { router.now ≡ desk_routes }
    ensures { result ≡ option_and_then seen_page (page_named path.now) }
{
    match router.at(path) {
        Ok(found) => page_at(*found.value, round_in(&found.params)),
        Err(_) => None,
    }
}

/// Returns what the parameter `round` of a route took of the path, or an empty text if the route has none.
fn round_in<'p>(params: &Params<'_, 'p>) -> &'p str
    ensures { AllText (parts_of params.now) → result.now ≡ unwrap_or (named (codes "round") (parts_of params.now)) [] }
{
    match params.get("round") {
        Some(round) => round,
        None => "",
    }
}

/// Returns the page of a route. `round` names the round if the route has one.
fn page_at(route: Route, round: &str) -> Option<Page>
    ensures { result ≡ page_on route round.now }
{
    match route {
        Route::Standing => Some(Page::Own(OwnPage::Standing)),
        Route::Seat => Some(Page::Own(OwnPage::Seat)),
        Route::Withdrawal => Some(Page::Withdrawal),
        Route::Bundle => match round_named(round) {
            0 => None,
            round => Some(Page::Bundle { round }),
        },
        Route::Draw => match round_named(round) {
            0 => None,
            round => Some(Page::Draw { round }),
        },
    }
}

/// Returns the number that 1 to 4 digits write, else 0, which no round has.
fn round_named(text: &str) -> usize
    ensures { result ≡ number_named text.now }
{
    let text = text.as_bytes();
    if is_round(text) { number_of(text) } else { 0 }
}

fn is_round(text: &[u8]) -> bool
    ensures { result ≡ is_round_text text.now }
{
    !text.is_empty() && text.len() <= 4 && are_digits(text)
}

fn are_digits(text: &[u8]) -> bool
    ensures { result ≡ list_all is_ascii_digit text.now }
{
    text.iter().all(|byte| b'0' <= *byte && *byte <= b'9')
}

/// Returns the number that at most 4 digits write.
fn number_of(digits: &[u8]) -> usize
    requires { IsTrue (is_round_text digits.now) }
    ensures { result ≡ digits_value 10 digits.now }
{
    let mut number = 0;
    for digit in digits {
        number = number * 10 + (*digit - b'0') as usize;
    }
    number
}
