//! Programs by the lives of their tensors and the order of their updates.
use crate::verdict::checks_as;
use std::test::Fail;

const LIVES: [(&[u8], &[u8]); 13] = [
    (b"out t dense element shape 2", b"refused L7 line 1\n"),
    (
        b"out t dense element shape 2\nfor i { t[i] += 1 }",
        b"refused L1 line 2\n",
    ),
    (
        b"out t dense element shape 2\nt .= 0\nfor i { t[i] += t[i] }",
        b"refused L2 line 3\n",
    ),
    (
        b"out t dense element shape 2\nt .= 0\nt .= 0",
        b"refused L3 line 3\n",
    ),
    (
        b"out t dense element shape 2\nt .= 0\nfreeze t\nfreeze t",
        b"refused L4 line 4\n",
    ),
    (
        b"out t dense element shape 2\nthaw t",
        b"refused L5 line 2\n",
    ),
    (
        b"out t dense element shape 2\nt .= 0\nfor i in 0..2 {\nfreeze t\n}",
        b"refused L6 line 5\n",
    ),
    (
        b"out t dense element shape 2\nfor i in 0..2 { t .= 0 }\nfreeze t",
        b"refused L4 line 3\n",
    ),
    (
        b"out t dense element shape 2\nt .= 0\nfor i { t[i] += 1 }\nfreeze t\nfor j { t[j] += 1 }",
        b"ok\n",
    ),
    (
        b"out t dense list element shape 2 2\nt .= 0\nfor i {\nfor j in 0..2 {\nfor k { t[i,k] += 1 } } }",
        b"refused U1 line 5\n",
    ),
    (
        b"out t dense dict element shape 2 2\nt .= 0\nfor i {\nfor j in 0..2 {\nfor k { t[i,k] += 1 } } }",
        b"ok\n",
    ),
    (
        b"out s element\ntmp t dense list element shape 2 2\ns .= 0\nfor i in 0..2 {\nt .= 0\nfor j { for k { t[j,k] += 1 } } }",
        b"ok\n",
    ),
    (
        b"out t list element shape 2\nt .= 0\n{ for i { t[i] += 1 }\nfor j { t[j] += 1 } }",
        b"refused U2 line 4\n",
    ),
];

#[test]
fn lives_and_orders(rt: HostRuntime) -> Result<(), Fail> {
    for (program, line) in LIVES.iter() {
        checks_as(&rt, rt.alloc(), &[(program, 1)], line)?;
    }
    Ok(())
}
