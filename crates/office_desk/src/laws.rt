//! Laws of the desk, over all tables. The functions have no body: their contracts are the laws.

ghost use Rattle.std.specs.Prelude.{ℕ, List};
ghost use Rattle.define_offices.specs.Facts.{IsTables};
ghost use Rattle.define_offices.specs.Tables.{Tables};
ghost use Rattle.define_desk.specs.Desk.{BundlePage, DrawPage, IsIsolated, IsPublic};

/// Does nothing; its contract is the law of isolation: whoever uses a volunteer's key learns only what the view of this key shows of the
/// tables. Over two tables with the same view each request with this key gets the same reply.
pub fn desk_is_isolated()
    ensures { (one other : Tables) → IsTables one → IsTables other → (key : List ℕ) → IsIsolated one other key }
{}

/// Does nothing; its contract says that the pages which anybody may read depend on what is published alone.
pub fn public_pages_are_public()
    ensures bundle { (one other : Tables) (round : List ℕ) → IsPublic one other (BundlePage round) }
    ensures draw { (one other : Tables) (round : List ℕ) → IsPublic one other (DrawPage round) }
{}
