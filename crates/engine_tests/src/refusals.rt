//! A pool after a call of its builder that refuses a name. No call of the program goes on with such a pool.

ghost use Rattle.std.specs.Prelude.{◌≡◌, ◌<◌, length, true};

use crate::small_classes::APART;
use pool_model::Pool;
use pool_text::{read_pool, write_pool};
use std::test::Fail;

/// Tries to give a volunteer a household without a name, which is refused. The pool stays as it was.
fn is_refused(pool: &mut Pool, number: usize) -> bool
    requires { number < length pool.old.volunteers }
    ensures refused { result ≡ true }
    ensures unchanged { pool.new ≡ pool.old }
{
    pool.set_household(number, "").is_err()
}

#[test]
fn refused_names_change_nothing(rt: HostRuntime) -> Result<(), Fail> {
    let alloc = rt.alloc();
    let mut pool = read_pool(alloc, APART)?;
    assert!(rt; pool.volunteers().len() == 4);
    assert!(rt; is_refused(&mut pool, 2));
    assert_eq!(rt; write_pool(alloc, &pool)?.as_slice(), APART);
    Ok(())
}
