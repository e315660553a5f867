//! Laws on withdrawals and seats: nobody who withdrew is seated, now or after any further commands.
ghost use Rattle.laws_of_offices.specs.Seats.{InAllTables, MembersHaveNotWithdrawn, SeatedHaveNotWithdrawn, WithdrawalsStay, WithdrawnAreGone};

/// In all tables that commands within their limits leave: nobody who is seated in a round that isn't drawn has withdrawn; everybody who
/// withdrew is gone in its pool; and if the last round is drawn, nobody on its panel who didn't drop out has withdrawn.
pub fn nobody_seated_has_withdrawn()
    ensures seated { InAllTables SeatedHaveNotWithdrawn }
    ensures gone { InAllTables WithdrawnAreGone }
    ensures members { InAllTables MembersHaveNotWithdrawn }
{}

/// No command takes a withdrawal back.
pub fn withdrawals_stay()
    ensures { WithdrawalsStay }
{}
