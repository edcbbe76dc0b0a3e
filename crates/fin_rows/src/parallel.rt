//! Jobs with parallel loops: those that are safe, with what they write and their work, and those that aren't.
use crate::case::{Case, REFUSED, RUN, STATS, ends_as};
use std::test::Fail;

const PARALLEL: [Case; 14] = [
    // column sums: every turn may update every place
    Case {
        job: b"in A dense list element\nout h dense element\nh .= 0\npar i { for j { h[j] += A[i,j] } }\n%%\ntensor A\nformat dense list element\nfill 0\nshape 2 3\nptr 1 0 2 3\nidx 1 0 2 1\nval 5 7 9\nend\n",
        err: b"refused C3 line 4\n",
        ..REFUSED
    },
    Case {
        words: STATS,
        job: b"in A dense list element\nout h dense atomic element\nh .= 0\npar i { for j { h[j] += A[i,j] } }\n%%\ntensor A\nformat dense list element\nfill 0\nshape 2 3\nptr 1 0 2 3\nidx 1 0 2 1\nval 5 7 9\nend\n",
        out: b"tensor h\nformat dense element\nfill 0\nshape 3\nval 5 9 7\nend\n",
        err: b"work 30\n",
        ..RUN
    },
    Case {
        words: STATS,
        job: b"in A dense list element\nout h dense mutex element\nh .= 0\npar i { for j { h[j] += A[i,j] } }\n%%\ntensor A\nformat dense list element\nfill 0\nshape 2 3\nptr 1 0 2 3\nidx 1 0 2 1\nval 5 7 9\nend\n",
        out: b"tensor h\nformat dense element\nfill 0\nshape 3\nval 5 9 7\nend\n",
        err: b"work 30\n",
        ..RUN
    },
    Case {
        words: STATS,
        job: b"in A dense list element\nout h shard dict element\nh .= 0\npar i { for j { h[j] += A[i,j] } }\n%%\ntensor A\nformat dense list element\nfill 0\nshape 2 3\nptr 1 0 2 3\nidx 1 0 2 1\nval 5 7 9\nend\n",
        out: b"tensor h\nformat dict element\nfill 0\nshape 3\nptr 0 0 3\nidx 0 0 1 2\nval 5 9 7\nend\n",
        err: b"work 28\n",
        ..RUN
    },
    // a product
    Case {
        job: b"in x dense element\nout p atomic element fill 1\np .= 1\npar i { p[] *= x[i] }\n%%\ntensor x\nformat dense element\nfill 0\nshape 3\nval 1 2 3\nend\n",
        err: b"refused C3 line 4\n",
        ..REFUSED
    },
    Case {
        words: STATS,
        job: b"in x dense element\nout p mutex element fill 1\np .= 1\npar i { p[] *= x[i] }\n%%\ntensor x\nformat dense element\nfill 0\nshape 3\nval 1 2 3\nend\n",
        out: b"tensor p\nformat element\nfill 1\nshape\nval 6\nend\n",
        err: b"work 16\n",
        ..RUN
    },
    // chunks of unequal lengths
    Case {
        words: STATS,
        job: b"out s atomic element\ns .= 0\npar i in 0..257 { s[] += i }\n%%\n",
        out: b"tensor s\nformat element\nfill 0\nshape\nval 32896\nend\n",
        err: b"work 775\n",
        ..RUN
    },
    // of 2^40 places in a row few are stored
    Case {
        words: STATS,
        job: b"in A dense list element\nout s atomic element\ns .= 0\npar i { for j { s[] += A[i,j] } }\n%%\ntensor A\nformat dense list element\nfill 0\nshape 2 1099511627776\nptr 1 0 2 3\nidx 1 0 1099511627775 0\nval 5 7 9\nend\n",
        out: b"tensor s\nformat element\nfill 0\nshape\nval 21\nend\n",
        err: b"work 26\n",
        ..RUN
    },
    // rows take every reduction, and two of them
    Case {
        words: STATS,
        job: b"out y dense element shape 3\ny .= 0\npar i { y[i] = i y[i] += 2 }\n%%\n",
        out: b"tensor y\nformat dense element\nfill 0\nshape 3\nval 2 3 4\nend\n",
        err: b"work 21\n",
        ..RUN
    },
    Case {
        job: b"out y dense element shape 3\ny .= 0\npar i in 0..2 { y[i+1] += 1 }\n%%\n",
        err: b"refused C3 line 3\n",
        ..REFUSED
    },
    Case {
        job: b"out s atomic element\ns .= 0\npar i in 0..3 {\ns[] += i\ns[] = i\n}\n%%\n",
        err: b"refused C1 line 5\n",
        ..REFUSED
    },
    Case {
        job: b"out s mutex element\ns .= 0\npar i in 0..3 {\ns[] += i\ns[] *= i\n}\n%%\n",
        err: b"refused C2 line 5\n",
        ..REFUSED
    },
    Case {
        job: b"out y dense element shape 3\ny .= 0\npar i {\npar j in 0..2 { y[i] += j }\n}\n%%\n",
        err: b"refused C4 line 4\n",
        ..REFUSED
    },
    Case {
        job: b"out s atomic element\ns .= 0\npar i in 0..3 {\nfreeze s\nthaw s\n}\n%%\n",
        err: b"refused C5 line 4\n",
        ..REFUSED
    },
];

#[test]
fn parallel_loops_are_safe_or_refused(rt: HostRuntime) -> Result<(), Fail> {
    for case in &PARALLEL {
        ends_as(&rt, rt.alloc(), case)?;
    }
    Ok(())
}
