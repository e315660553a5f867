//! The chances of small pools that the relaxation finds (`relaxed_stages`), and the stages of one pool over its compositions
//! (`column_stages`).

use pool_text::read_pool;
use prove_limits::{Budget, Narrow};
use prove_program::Program;
use prove_stages::{Chances, ClassStage, Columned, Relaxed, column_stages, relaxed_stages};
use std::test::Fail;

/// Two of four, one with each value.
const TWO_AND_TWO: &[u8] = b"pool\t1\nsize\t2\ncategory\tone\nvalue\tx\t1\t1\nvalue\ty\t1\t1\n\
volunteer\tv0\tx\nvolunteer\tv1\tx\nvolunteer\tv2\ty\nvolunteer\tv3\ty\nend\n";

/// Two of five, one with each value.
const THREE_AND_TWO: &[u8] = b"pool\t1\nsize\t2\ncategory\tone\nvalue\tx\t1\t1\nvalue\ty\t1\t1\n\
volunteer\tv0\tx\nvolunteer\tv1\tx\nvolunteer\tv2\tx\nvolunteer\tv3\ty\nvolunteer\tv4\ty\nend\n";

/// One of three, nobody with the first value.
const NONE_OF_X: &[u8] = b"pool\t1\nsize\t1\ncategory\tone\nvalue\tx\t0\t0\nvalue\ty\t0\t1\n\
volunteer\tv0\tx\nvolunteer\tv1\ty\nvolunteer\tv2\ty\nend\n";

/// Two of three, both with the first value, which only one has.
const TOO_FEW: &[u8] = b"pool\t1\nsize\t2\ncategory\tone\nvalue\tx\t2\t2\nvalue\ty\t0\t2\n\
volunteer\tv0\tx\nvolunteer\tv1\ty\nvolunteer\tv2\ty\nend\n";

/// One of two with different values. `peeling` uses this too.
pub(crate) const ONE_OF_TWO: &[u8] =
    b"pool\t1\nsize\t1\ncategory\tone\nvalue\tx\t0\t1\nvalue\ty\t0\t1\n\
volunteer\tv0\tx\nvolunteer\tv1\ty\nend\n";

/// Pools, with the chance of each value's volunteers, a numerator and a denominator; none if no point meets the quotas.
const POOLS: &[(&[u8], &[(i64, i64)])] = &[
    (TWO_AND_TWO, &[(1, 2), (1, 2)]),
    (THREE_AND_TWO, &[(1, 3), (1, 2)]),
    (NONE_OF_X, &[(0, 1), (1, 2)]),
    (TOO_FEW, &[]),
];

/// True if the columns have these chances.
fn are_chances(program: &Program, chances: &Chances, wanted: &[(i64, i64)]) -> bool {
    for column in 0..wanted.len() {
        let Some(chance) = chances.chance(column) else {
            return false;
        };
        if (chance.num().get(), chance.den().get()) != wanted[column] {
            return false;
        }
    }
    program.columns() == wanted.len()
}

#[test]
fn pools_have_chances(rt: HostRuntime) -> Result<(), Fail> {
    let alloc = rt.alloc();
    for (text, wanted) in POOLS {
        let program = Program::by_class(alloc, &read_pool(alloc, text)?)?;
        let is_right = match relaxed_stages(alloc, &program, &mut Budget::new(1000, 1000))? {
            Relaxed::Empty => wanted.is_empty(),
            Relaxed::Settled(_, chances, _) => are_chances(&program, &chances, wanted),
        };
        assert!(rt; is_right);
    }
    Ok(())
}

/// True if there is one stage, in which each of two columns weighs 1, with the cap 1, which no refutation shows.
fn is_one_for_both(stages: &[ClassStage]) -> bool {
    stages.len() == 1
        && stages[0].weights.as_slice() == [Narrow::ONE, Narrow::ONE].as_slice()
        && stages[0].cap == Narrow::ONE
        && stages[0].shown_by.is_none()
}

#[test]
fn pools_have_stages(rt: HostRuntime) -> Result<(), Fail> {
    let alloc = rt.alloc();
    let program = Program::by_class(alloc, &read_pool(alloc, ONE_OF_TWO)?)?;
    let is_right = match column_stages(alloc, &program, &mut Budget::new(100, 100))? {
        Columned::Empty => false,
        Columned::Settled(stages, chances) => {
            is_one_for_both(&stages)
                && are_chances(&program, &chances, &[(1, 2), (1, 2)])
                && chances.common().get() == 2
        }
    };
    assert!(rt; is_right);
    Ok(())
}
