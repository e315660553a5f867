//! What 'leximin greatest' says of a lottery, part by part, for readers of the headline. The law `leximin_part_by_part` is the only
//! promise.
ghost use Rattle.define_pools.specs.Leximin.{PartByPart};

/// A lottery is leximin greatest exactly if each of the parts of `IsLeximin` holds of it.
pub fn leximin_part_by_part()
    ensures { PartByPart }
{}
