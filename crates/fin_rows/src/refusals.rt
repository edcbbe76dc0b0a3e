//! Jobs that break one rule each, from the tokens to the order of updates.
use crate::case::{Case, REFUSED, RUN, ends_as};
use std::test::Fail;

// Jobs that break a rule on the program or on the tensors' text.
const BROKEN: [Case; 11] = [
    Case {
        words: &["finch", "check"],
        job: b"in a dense element\n  @\n%%\n",
        err: b"refused S1 line 2\n",
        ..REFUSED
    },
    Case {
        words: &["finch", "check"],
        job: b"out s element\ns[ += 1\n%%\n",
        err: b"refused S2 line 2\n",
        ..REFUSED
    },
    Case {
        words: &["finch", "check"],
        job: b"out s element\nout s element\n%%\n",
        err: b"refused N2 line 2\n",
        ..REFUSED
    },
    Case {
        words: &["finch", "check"],
        job: b"out s element\nfor i { s[] += j }\n%%\n",
        err: b"refused N1 line 2\n",
        ..REFUSED
    },
    Case {
        words: &["finch", "check"],
        job: b"out h mutex list element\n%%\n",
        err: b"refused F1 line 1\n",
        ..REFUSED
    },
    Case {
        words: &["finch", "check"],
        job: b"out s element fill 1\ns .= 2\n%%\n",
        err: b"refused F2 line 2\n",
        ..REFUSED
    },
    Case {
        words: &["finch", "check"],
        job: b"%%\ntensor a\nshape 3\n",
        err: b"refused X3 line 3\n",
        ..REFUSED
    },
    Case {
        words: &["finch", "check"],
        job: b"%%\ntensor a\nformat dense element\nfill 0\nshape 02\n",
        err: b"refused X2 line 5\n",
        ..REFUSED
    },
    Case {
        words: &["finch", "check"],
        job: b"%%\ntensor a\nformat list element\nfill 0\nshape 9\nptr 0 0 2\nidx 0 4 4\n",
        err: b"refused X4 line 7\n",
        ..REFUSED
    },
    Case {
        words: &["finch", "check"],
        job: b"%%\ntensor a \n",
        err: b"refused X1 line 2\n",
        ..REFUSED
    },
    Case {
        words: &["finch", "check"],
        job: b"%%\n\ntensor a\nformat element\nfill 0\nshape\nval 1\nend\n# again\ntensor a\n",
        err: b"refused X5 line 10\n",
        ..REFUSED
    },
];

// Jobs whose texts break no rule, and that break one on inputs, lives, extents, choices or order.
const LATER: [Case; 14] = [
    Case {
        job: b"in a dense element\n%%\n",
        err: b"refused X6 line 1\n",
        ..REFUSED
    },
    Case {
        job: b"%%\n\ntensor a\nformat element\nfill 0\nshape\nval 1\nend\n",
        err: b"refused X6 line 3\n",
        ..REFUSED
    },
    Case {
        job: b"out y dense element shape 2\nfor i { y[i] += 1 }\n%%\n",
        err: b"refused L1 line 2\n",
        ..REFUSED
    },
    Case {
        job: b"out y dense element shape 2\ny .= 0\nfor i { y[i] += y[i] }\n%%\n",
        err: b"refused L2 line 3\n",
        ..REFUSED
    },
    Case {
        job: b"out y dense element shape 2\ny .= 0\nfreeze y\nfreeze y\n%%\n",
        err: b"refused L4 line 4\n",
        ..REFUSED
    },
    Case {
        job: b"out y dense element shape 2\n%%\n",
        err: b"refused L7 line 1\n",
        ..REFUSED
    },
    Case {
        job: b"out s element\ns .= 0\nfor i { s[] += i }\n%%\n",
        err: b"refused M2 line 3\n",
        ..REFUSED
    },
    Case {
        job: b"out y dense element shape 3\ny .= 0\ny[3] += 1\n%%\n",
        err: b"refused M3 line 3\n",
        ..REFUSED
    },
    Case {
        job: b"out s element\ns .= 0\nfor i in 4..4 { s[] += i }\n%%\n",
        err: b"refused M4 line 3\n",
        ..REFUSED
    },
    Case {
        job: b"out s element\ns .= 0\nfor i in 0 ..\n1099511627777 { s[] += i }\n%%\n",
        err: b"refused M5 line 4\n",
        ..REFUSED
    },
    Case {
        job: b"out y dense dense element shape 4097 4096\ny .= 0\n%%\n",
        err: b"refused B1 line 1\n",
        ..REFUSED
    },
    Case {
        job: b"out y list list element shape 2 2\ny .= 0\nfor i { for j { y[j,i] += 1 } }\n%%\n",
        err: b"refused U1 line 3\n",
        ..REFUSED
    },
    Case {
        words: &["finch", "check"],
        job: b"%%\n",
        out: b"ok\n",
        ..RUN
    },
    Case {
        words: &["finch", "check"],
        job: b"out y dense element shape 2\ny .= 0\nfor i { y[i] += 1 }\nfreeze y\nfor i { y[i] += 2 }\n%%\n",
        out: b"ok\n",
        ..RUN
    },
];

#[test]
fn each_rule_is_told(rt: HostRuntime) -> Result<(), Fail> {
    for case in BROKEN.iter().chain(&LATER) {
        ends_as(&rt, rt.alloc(), case)?;
    }
    Ok(())
}
