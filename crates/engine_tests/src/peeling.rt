//! Peels panels off the point of a small pool, and tests the lottery that they make.

use crate::stages::ONE_OF_TWO;
use pool_text::read_pool;
use prove_limits::Budget;
use prove_peeling::{PanelRows, lottery_of_point};
use prove_program::Program;
use prove_stages::{Relaxed, relaxed_stages};
use std::test::Fail;

#[test]
fn points_have_lotteries(rt: HostRuntime) -> Result<(), Fail> {
    let alloc = rt.alloc();
    let pool = read_pool(alloc, ONE_OF_TWO)?;
    let classes = Program::by_class(alloc, &pool)?;
    let single = Program::by_volunteer(alloc, &pool)?;
    let mut budget = Budget::new(100, 100);
    let Relaxed::Settled(stages, chances, _) = relaxed_stages(alloc, &classes, &mut budget)? else {
        return Err("no point".into());
    };
    let rows = PanelRows::new(alloc, &single, &classes, &stages)?;
    let mut known = Vec::new(alloc);
    let found = lottery_of_point(
        alloc,
        &single,
        &rows,
        &classes,
        &chances,
        1,
        &mut known,
        &mut budget,
    )?;
    let said = format!(in alloc; "{found:?}")?;
    assert_eq!(rt;
        said.as_str(),
        "Found([WeightedPanel { weight: 1, members: [0] }, WeightedPanel { weight: 1, members: [1] }])"
    );
    Ok(())
}
