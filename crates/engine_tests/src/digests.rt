//! Digests of made pools, which another program made and digested.

use office_reports::made_pool;
use pool_text::write_pool;
use sealed_draw::seal;
use std::test::Fail;

/// Seeds and numbers of volunteers, with the digest of the made pool's text.
const MADE: &[(u64, u32, &str)] = &[
    (
        7,
        20,
        "40dd2e3fa094808b0db2bd82feb1769d63d7f859d0867aeec389d5c2ea5b19e5",
    ),
    (
        9223372036854775807,
        20,
        "ed1df85bdcb4bd1de7b96b8a4b7ad915d23b08e4a80552b4717b15a7b48e05ae",
    ),
    (
        18446744073709551615,
        400,
        "8b3074bbd1f0d2541587423c47ab047df33f1ab609940d99fecc5eb68376a42a",
    ),
];

#[test]
fn made_pools_have_their_digests(rt: HostRuntime) -> Result<(), Fail> {
    let alloc = rt.alloc();
    for (seed, volunteers, digest) in MADE {
        assert!(rt; 1 <= *volunteers && *volunteers <= 400);
        let text = write_pool(alloc, &made_pool(alloc, *seed, *volunteers)?)?;
        assert_eq!(rt; seal(alloc, &text)?.as_str(), *digest);
    }
    Ok(())
}
