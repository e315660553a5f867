//! The files that an office imports, in definitions: a charter in TOML, rules and a register in CSV; the value of a file, or its first
//! fault. The definitions are in `specs/`. The functions have no body: their contracts are laws and worked examples.
#![tactic(auto)]

ghost use Rattle.std.specs.Prelude.{◌≡◌, [], ◌∷◌, ◌++◌, codes, List, ℕ, pos, Some, None, Ok, Result};
ghost use Rattle.toml.specs.Data.{integer, member, no_members, string};
ghost use Rattle.define_pools.specs.Pool.{Category};
ghost use Rattle.define_offices.specs.Commands.{Given};
ghost use Rattle.define_offices.specs.Facts.{AreRules};
ghost use Rattle.define_imports.specs.Cells.{AreRecordsOf, Fault, read_from};
ghost use Rattle.define_imports.specs.Charters.{charter_of, charter_of_parts};
ghost use Rattle.define_imports.specs.Rules.{ReadsRules, after_rule, rule_kind, rules_of};
ghost use Rattle.define_imports.specs.Registers.{ReadsRows, rows_of};
ghost use Rattle.define_imports.specs.WorkedFiles.{a, columns, fault, female, given, head, line, male, many_categories, many_values, no_text, row, rules, value};

/// A file has one list of records, so it is read as one value or as one fault.
pub fn one_reading()
    ensures records { (bytes : List ℕ) (first second : List (List (List ℕ))) → AreRecordsOf bytes first → AreRecordsOf bytes second → first ≡ second }
    ensures rules { (bytes : List ℕ) (first second : Result (List Category) Fault) → ReadsRules bytes first → ReadsRules bytes second → first ≡ second }
    ensures rows { (rules : List Category) (bytes : List ℕ) (first second : Result (List Given) Fault) → ReadsRows rules bytes first → ReadsRows rules bytes second → first ≡ second }
{}

/// `AreRules` holds of the categories that a file of rules gives, so an office may have them as its rules.
pub fn read_rules_are_rules()
    ensures { (records : List (List (List ℕ))) (categories : List Category) → rules_of records ≡ Ok categories → AreRules categories }
{}

/// What is read as a charter: some cases without a fault, and at least one for each kind of fault.
pub fn worked_charters()
    ensures right { charter_of (Some (member (codes "size") (integer (pos 2)) (member (codes "title") (string (codes "River")) no_members))) ≡ Ok (record { title = codes "River"; size = 2; volunteers = 400 }) }
    ensures no_toml { charter_of None ≡ fault 0 1 }
    ensures no_title { charter_of (Some (member (codes "size") (integer (pos 0)) no_members)) ≡ fault 0 2 }
    ensures title_no_string { charter_of (Some (member (codes "title") (integer (pos 2)) no_members)) ≡ fault 0 2 }
    ensures no_size { charter_of (Some (member (codes "title") (string []) no_members)) ≡ fault 0 3 }
    ensures size_no_number { charter_of (Some (member (codes "size") (string (codes "2")) (member (codes "title") (string []) no_members))) ≡ fault 0 3 }
    ensures empty_title { charter_of_parts (Some []) (Some (pos 0)) 400 ≡ fault 0 4 }
    ensures title_with_tab { charter_of_parts (Some (9 ∷ [])) (Some (pos 2)) 400 ≡ fault 0 4 }
    ensures too_small { charter_of_parts (Some (codes "River")) (Some (pos 0)) 400 ≡ fault 0 6 }
    ensures too_great { charter_of_parts (Some (codes "River")) (Some (pos 201)) 400 ≡ fault 0 6 }
    ensures large { charter_of (Some (member (codes "size") (integer (pos 1000)) (member (codes "title") (string (codes "River")) (member (codes "volunteers") (integer (pos 401)) no_members)))) ≡
        Ok (record { title = codes "River"; size = 1000; volunteers = 401 }) }
    ensures few { charter_of_parts (Some (codes "River")) (Some (pos 201)) 300 ≡ fault 0 6 }
    ensures no_rows { charter_of_parts (Some (codes "River")) (Some (pos 2)) 0 ≡ fault 0 6 }
    ensures too_many { charter_of_parts (Some (codes "River")) (Some (pos 2)) 4001 ≡ fault 0 6 }
    ensures rows_no_number { charter_of (Some (member (codes "size") (integer (pos 2)) (member (codes "title") (string (codes "River")) (member (codes "volunteers") (string (codes "9")) no_members)))) ≡ fault 0 6 }
    ensures blanks_stay { charter_of_parts (Some (codes " River")) (Some (pos 200)) 400 ≡ Ok (record { title = codes " River"; size = 200; volunteers = 400 }) }
{}

/// Files of rules: some without a fault, and at least one for each kind of fault. Many of these also have a fault of a lower kind in a
/// later record, or one of a higher kind in the same record. Its fault is the lowest kind of the first faulty record.
pub fn worked_rules()
    ensures two_values { rules_of (head ∷ female ∷ male ∷ []) ≡ Ok rules }
    ensures first_appearance { rules_of (head ∷ female ∷ line (codes "age") (codes "old") (codes "0") (codes "009") ∷ line (codes " gender" ++ 9 ∷ []) (9 ∷ codes "male ") (codes " 1") (codes "1 ") ∷ []) ≡
        Ok (record { name = codes "gender"; values = value (codes "female") 1 1 ∷ value (codes "male") 1 1 ∷ [] } ∷ record { name = codes "age"; values = value (codes "old") 0 9 ∷ [] } ∷ []) }
    ensures other_columns { rules_of ((codes "max" ∷ codes "note" ∷ codes " name" ∷ codes "category" ∷ codes "min" ∷ []) ∷ (codes "2" ∷ no_text ∷ codes "female" ∷ codes "gender" ∷ codes "1" ∷ []) ∷ []) ≡
        Ok (record { name = codes "gender"; values = value (codes "female") 1 2 ∷ [] } ∷ []) }
    ensures nothing { rules_of [] ≡ fault 1 2 }
    ensures no_value { rules_of (head ∷ []) ≡ fault 1 2 }
    ensures no_column { rules_of ((codes "category" ∷ codes "name" ∷ codes "min" ∷ []) ∷ (no_text ∷ []) ∷ []) ≡ fault 1 2 }
    ensures column_twice { rules_of ((codes "max" ∷ head) ∷ (no_text ∷ []) ∷ []) ≡ fault 1 2 }
    ensures no_utf8 { rules_of (head ∷ (no_text ∷ []) ∷ female ∷ []) ≡ fault 2 1 }
    ensures other_length { rules_of (head ∷ female ∷ ([] ∷ []) ∷ (no_text ∷ []) ∷ []) ≡ fault 3 3 }
    ensures no_name { rules_of (head ∷ female ∷ line (codes "gender") [] (codes "2") (codes "1") ∷ ([] ∷ []) ∷ []) ≡ fault 3 4 }
    ensures reserved { rules_of (head ∷ line (codes "key") (codes "x") (codes "2") (codes "1") ∷ ([] ∷ []) ∷ []) ≡ fault 2 4 }
    ensures lower_above { rules_of (head ∷ female ∷ line (codes "gender") (codes "female") (codes "2") (codes "1") ∷ line [] [] [] [] ∷ []) ≡ fault 3 6 }
    ensures no_number { rules_of (head ∷ line (codes "gender") (codes "female") (codes "+1") (codes "1") ∷ []) ≡ fault 2 6 }
    ensures ten_digits { rules_of (head ∷ line (codes "gender") (codes "female") (codes "0000000001") (codes "1") ∷ []) ≡ fault 2 6 }
    ensures too_great { rules_of (head ∷ line (codes "gender") (codes "female") (codes "0") (codes "1000") ∷ []) ≡ fault 2 6 }
    ensures repeated { rules_of (head ∷ female ∷ male ∷ female ∷ line (codes "age") (codes "old") [] [] ∷ []) ≡ fault 4 7 }
    ensures one_category_more { read_from (rule_kind head) (after_rule head) 22 many_categories (female ∷ (no_text ∷ []) ∷ []) ≡ fault 22 8 }
    ensures one_value_more { read_from (rule_kind head) (after_rule head) 52 many_values (female ∷ (no_text ∷ []) ∷ []) ≡ fault 52 8 }
{}

/// Files of registers, mostly for rules of one category `gender`: some without a fault, and at least one for each kind of fault. Many of
/// these also have a fault of a lower kind in a later record, or one of a higher kind in the same record.
pub fn worked_rows()
    ensures right { rows_of rules (columns ∷ a ∷ row (codes " b ") (codes "k2") (codes "male" ++ 9 ∷ []) ∷ []) ≡
        Ok (given (codes "a") (codes "abc") (codes "female") None ∷ given (codes "b") (codes "k2") (codes "male") None ∷ []) }
    ensures one_id_twice { rows_of rules (columns ∷ a ∷ a ∷ []) ≡ Ok (given (codes "a") (codes "abc") (codes "female") None ∷ given (codes "a") (codes "abc") (codes "female") None ∷ []) }
    ensures no_rows { rows_of rules (columns ∷ []) ≡ Ok [] }
    ensures households { rows_of rules ((codes "household" ∷ codes "note" ∷ columns) ∷ (codes "h" ∷ no_text ∷ a) ∷ (codes "  " ∷ [] ∷ a) ∷ []) ≡
        Ok (given (codes "a") (codes "abc") (codes "female") (Some (codes "h")) ∷ given (codes "a") (codes "abc") (codes "female") None ∷ []) }
    ensures household_a_category { rows_of (record { name = codes "household"; values = value (codes "one") 0 1 ∷ [] } ∷ []) ((codes "id" ∷ codes "key" ∷ codes "household" ∷ []) ∷ row (codes "a") (codes "abc") (codes "one") ∷ row (codes "b") (codes "k2") [] ∷ []) ≡ fault 3 5 }
    ensures nothing { rows_of rules [] ≡ fault 1 2 }
    ensures no_column { rows_of rules ((codes "id" ∷ codes "key" ∷ []) ∷ (no_text ∷ []) ∷ []) ≡ fault 1 2 }
    ensures column_twice { rows_of rules ((codes "gender" ∷ columns) ∷ (no_text ∷ []) ∷ []) ≡ fault 1 2 }
    ensures household_twice { rows_of rules ((codes "household" ∷ codes "household" ∷ columns) ∷ []) ≡ fault 1 2 }
    ensures no_utf8 { rows_of rules (columns ∷ a ∷ (codes "b" ∷ no_text ∷ []) ∷ []) ≡ fault 3 1 }
    ensures other_length { rows_of rules (columns ∷ a ∷ (codes "b" ∷ []) ∷ (no_text ∷ []) ∷ []) ≡ fault 3 3 }
    ensures no_id { rows_of rules (columns ∷ a ∷ row [] (codes "k2") (codes "other") ∷ (codes "b" ∷ []) ∷ []) ≡ fault 3 4 }
    ensures key_with_blank { rows_of rules (columns ∷ row (codes "b") (codes "k 2") (codes "other") ∷ []) ≡ fault 2 4 }
    ensures bad_household { rows_of rules ((codes "household" ∷ columns) ∷ ((104 ∷ 1 ∷ []) ∷ a) ∷ []) ≡ fault 2 4 }
    ensures unknown_value { rows_of rules (columns ∷ a ∷ row (codes "f") (codes "k6") (codes "other") ∷ row [] (codes "k7") (codes "male") ∷ []) ≡ fault 3 5 }
{}
