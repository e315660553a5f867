//! What a text of lines is: lines, fields, numbers in their one spelling, and how a text is read line by line up to its first faulty line.
//! The definitions are in `specs/`.
//!
//! The functions have no body. Their contracts are the promises: laws over the definitions, and worked examples.
#![tactic(auto)]

ghost use Rattle.std.specs.Prelude.{◌≡◌, ◌<◌, ◌≤◌, ◌^◌, ◌++◌, [], ◌∷◌, ℕ, ℤ, List, codes, map, pos, negsuc, unsigned_abs, Some, None};
ghost use Rattle.std.specs.Fmt.{decimal, signed_decimal};
ghost use Rattle.define_lines.specs.Lines.{line_of, fields_of};
ghost use Rattle.define_lines.specs.Numbers.{number_up_to, signed_up_to};

/// A field is read as a number exactly if it is the digits of this number, which is at most the limit. Numbers here have up to 64 digits.
pub fn number_has_one_spelling()
    ensures read { (limit n : ℕ) → n < 10 ^ 64 → n ≤ limit → number_up_to limit (decimal n) ≡ Some n }
    ensures spelled { (limit n : ℕ) (field : List ℕ) → number_up_to limit field ≡ Some n → (decimal n ≡ field) × (n ≤ limit) }
{}

/// A field is read as a signed number exactly if it is the spelling of this number, whose absolute value is at most the limit. Numbers here
/// have up to 64 digits.
pub fn signed_number_has_one_spelling()
    ensures read { (limit : ℕ) (z : ℤ) → unsigned_abs z < 10 ^ 64 → unsigned_abs z ≤ limit → signed_up_to limit (signed_decimal z) ≡ Some z }
    ensures spelled { (limit : ℕ) (z : ℤ) (field : List ℕ) → signed_up_to limit field ≡ Some z → (signed_decimal z ≡ field) × (unsigned_abs z ≤ limit) }
{}

/// Splitting a line into its fields and joining them again gives the same line.
pub fn line_is_its_fields()
    ensures { (line : List ℕ) → line_of (fields_of line) ≡ line }
{}

/// Examples of fields that are numbers, and of fields that aren't.
pub fn worked_numbers()
    ensures unsigned { map (number_up_to 999) (codes "0" ∷ codes "999" ∷ codes "1000" ∷ codes "" ∷ codes "00" ∷ codes "01" ∷ codes "+1" ∷ codes "-1" ∷ codes "1x" ∷ [])
        ≡ Some 0 ∷ Some 999 ∷ None ∷ None ∷ None ∷ None ∷ None ∷ None ∷ None ∷ [] }
    ensures signed { map (signed_up_to 999) (codes "0" ∷ codes "-1" ∷ codes "-999" ∷ codes "999" ∷ codes "-1000" ∷ codes "-0" ∷ codes "-01" ∷ codes "+1" ∷ codes "-" ∷ codes "" ∷ [])
        ≡ Some (pos 0) ∷ Some (negsuc 0) ∷ Some (negsuc 998) ∷ Some (pos 999) ∷ None ∷ None ∷ None ∷ None ∷ None ∷ None ∷ [] }
{}
