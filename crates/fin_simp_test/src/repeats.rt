//! Updates by one value that are done many times at once.
use fin_base::{Reduce, repeat};
use std::test::Fail;

#[test]
fn many_updates_are_one(rt: HostRuntime) -> Result<(), Fail> {
    assert_eq!(rt; repeat(Reduce::Xor, 6, 4), 0);
    assert_eq!(rt; repeat(Reduce::Xor, 6, 3), 6);
    assert_eq!(rt; repeat(Reduce::Mul, 3, 5), 243);
    assert_eq!(rt; repeat(Reduce::Min, 0, 0), i64::MAX);
    Ok(())
}
