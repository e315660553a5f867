//! Binomial coefficients: the number of ways to choose some of several things. The definitions are in `specs/`, and the laws in `proofs/`.
//!
//! The functions without a body are the promises: laws of the definitions, and worked examples.
ghost use Rattle.std.specs.Prelude.{◌≡◌, ◌≤◌, ◌<◌, ◌+◌, ◌*◌, ◌^◌, ℕ};
ghost use Rattle.define_rows.specs.Binomials.{basis_count, binomial};

/// To choose some of several things is to leave out the others. A coefficient comes from the one of a thing less and a choice less by a
/// product and a division. It is not below that one, and is at least twice it if at most half of the things are chosen.
pub fn binomials_are_products()
    ensures others { (chosen left n : ℕ) → chosen + left ≡ n → binomial n chosen ≡ binomial n left }
    ensures product { (n size : ℕ) → (size + 1) * binomial (n + 1) (size + 1) ≡ (n + 1) * binomial n size }
    ensures rises { (n size more : ℕ) → binomial n size ≤ binomial (n + more) (size + more) }
    ensures doubles { (size rest : ℕ) → size ≤ rest → 2 ^ size ≤ binomial (rest + size) size }
{}

/// Of more things than there are, none can be chosen. Of two classes with a stage variable and a column there are 4 bases, and with a column
/// more 10. One class alone, with no other variable, has no basis of two. The numbers for 400 classes are as small as the others.
pub fn worked_binomials()
    ensures none { basis_count 1 0 0 ≡ 0 }
    ensures four { basis_count 2 1 1 ≡ 4 }
    ensures ten { basis_count 2 1 2 ≡ 10 }
    ensures many { basis_count 400 1 1 ≡ 402 }
{}
