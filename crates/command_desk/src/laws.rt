//! The law that each visit of `serve` is counted once, as the contract of a function that does nothing.

ghost use Rattle.std.specs.Prelude.{◌≡◌, ◌+◌, List, length};
ghost use Rattle.office_http.specs.Visits.{Visit};
ghost use Rattle.command_desk.specs.Serving.{broken_of, served_of};

/// Each visit is counted once: the two numbers of the line of `serve`, the served and the broken ones, sum to the number of visits.
pub fn each_is_counted()
    ensures { (visits : List Visit) → served_of visits + broken_of visits ≡ length visits }
{}
