//! Whole jobs with tensors that are refused, and some that `check` accepts.
use crate::case::{Case, REFUSED, RUN, ends_as};
use std::test::Fail;

const WHOLES: [Case; 14] = [
    // a tensor that is filled in order, out of order
    Case {
        words: &["finch", "run"],
        job: b"in A dense list element\nin B dense list element\nout C dense list element\nC .= 0\nfor i { for k { for j { C[i,j] += A[i,k] * B[k,j] } } }\n%%\ntensor A\nformat dense list element\nfill 0\nshape 2 2\nptr 1 0 2 3\nidx 1 0 1 1\nval 1 2 3\nend\ntensor B\nformat dense list element\nfill 0\nshape 2 3\nptr 1 0 1 2\nidx 1 1 0\nval 4 5\nend\n",
        err: b"refused U1 line 5\n",
        ..REFUSED
    },
    Case {
        words: &["finch", "check"],
        job: b"in A dense list element\nin B dense list element\nout C dense list element\nC .= 0\nfor i { for k { for j { C[i,j] += A[i,k] * B[k,j] } } }\n%%\ntensor A\nformat dense list element\nfill 0\nshape 2 2\nptr 1 0 2 3\nidx 1 0 1 1\nval 1 2 3\nend\ntensor B\nformat dense list element\nfill 0\nshape 2 3\nptr 1 0 1 2\nidx 1 1 0\nval 4 5\nend\n",
        err: b"refused U1 line 5\n",
        ..REFUSED
    },
    // an index past its extent
    Case {
        words: &["finch", "run"],
        job: b"in A dense element\nout y dense element shape 3\ny .= 0\nfor i { y[i] += A[i+1] }\n%%\ntensor A\nformat dense element\nfill 0\nshape 3\nval 1 2 3\nend\n",
        err: b"refused M3 line 4\n",
        ..REFUSED
    },
    Case {
        words: &["finch", "check"],
        job: b"in A dense element\nout y dense element shape 3\ny .= 0\nfor i { y[i] += A[i+1] }\n%%\ntensor A\nformat dense element\nfill 0\nshape 3\nval 1 2 3\nend\n",
        err: b"refused M3 line 4\n",
        ..REFUSED
    },
    // two extents for one loop
    Case {
        words: &["finch", "run"],
        job: b"in a dense element\nin b dense element\nout s element\ns .= 0\nfor i {\ns[] += a[i]\ns[] += b[i]\n}\n%%\ntensor a\nformat dense element\nfill 0\nshape 3\nval 1 2 3\nend\ntensor b\nformat dense element\nfill 0\nshape 4\nval 1 2 3 4\nend\n",
        err: b"refused M1 line 7\n",
        ..REFUSED
    },
    Case {
        words: &["finch", "check"],
        job: b"in a dense element\nin b dense element\nout s element\ns .= 0\nfor i {\ns[] += a[i]\ns[] += b[i]\n}\n%%\ntensor a\nformat dense element\nfill 0\nshape 3\nval 1 2 3\nend\ntensor b\nformat dense element\nfill 0\nshape 4\nval 1 2 3 4\nend\n",
        err: b"refused M1 line 7\n",
        ..REFUSED
    },
    Case {
        words: &["finch", "plain"],
        job: b"in a dense element\nin b dense element\nout s element\ns .= 0\nfor i {\ns[] += a[i]\ns[] += b[i]\n}\n%%\ntensor a\nformat dense element\nfill 0\nshape 3\nval 1 2 3\nend\ntensor b\nformat dense element\nfill 0\nshape 4\nval 1 2 3 4\nend\n",
        err: b"refused M1 line 7\n",
        ..REFUSED
    },
    // cut inside a line
    Case {
        words: &["finch", "run"],
        job: b"in A dense list element\nin x dense element\nout y dense element\ny .= 0\nfor i { for j { y[i] += A[i,j] * x[j] } }\n%%\ntensor A\nformat dense list element\nfill 0\nshape 2 3\nptr 1 0 2 3\nidx 1 0 2 1\nval 5 ",
        err: b"refused X3 line 13\n",
        ..REFUSED
    },
    // places past the end
    Case {
        words: &["finch", "run"],
        job: b"in A dense list element\nin x dense element\nout y dense element\ny .= 0\nfor i { for j { y[i] += A[i,j] * x[j] } }\n%%\ntensor A\nformat dense list element\nfill 0\nshape 2 3\nptr 1 0 4 3\nidx 1 0 2 1\nval 5 7 9\nend\ntensor x\nformat dense element\nfill 0\nshape 3\nval 1 2 3\nend\n",
        err: b"refused X4 line 11\n",
        ..REFUSED
    },
    // a tensor too many
    Case {
        words: &["finch", "run"],
        job: b"in A dense list element\nin x dense element\nout y dense element\ny .= 0\nfor i { for j { y[i] += A[i,j] * x[j] } }\n%%\ntensor A\nformat dense list element\nfill 0\nshape 2 3\nptr 1 0 2 3\nidx 1 0 2 1\nval 5 7 9\nend\ntensor x\nformat dense element\nfill 0\nshape 3\nval 1 2 3\nend\ntensor z\nformat element\nfill 0\nshape\nval 0\nend\n",
        err: b"refused X6 line 21\n",
        ..REFUSED
    },
    // a tensor too few
    Case {
        words: &["finch", "run"],
        job: b"in A dense list element\nin x dense element\nout y dense element\ny .= 0\nfor i { for j { y[i] += A[i,j] * x[j] } }\n%%\ntensor A\nformat dense list element\nfill 0\nshape 2 3\nptr 1 0 2 3\nidx 1 0 2 1\nval 5 7 9\nend\n",
        err: b"refused X6 line 2\n",
        ..REFUSED
    },
    // nine choices in a loop
    Case {
        words: &["finch", "run"],
        job: b"in a list element\nout s element\ns .= 0\nfor i { s[] += a[i]*a[i]*a[i]*a[i]*a[i]*a[i]*a[i]*a[i]*a[i] }\n%%\ntensor a\nformat list element\nfill 0\nshape 3\nptr 0 0 1\nidx 0 1\nval 2\nend\n",
        err: b"refused B3 line 4\n",
        ..REFUSED
    },
    // a wrap of an input
    Case {
        words: &["finch", "check"],
        job: b"in A dense atomic element\n%%\n",
        err: b"refused F1 line 1\n",
        ..REFUSED
    },
    // another value than the fill
    Case {
        words: &["finch", "check"],
        job: b"out s element\ns .= 1\n%%\n",
        err: b"refused F2 line 2\n",
        ..REFUSED
    },
];

const ACCEPTED: [Case; 6] = [
    // a matrix and a vector
    Case {
        words: &["finch", "check"],
        job: b"in A dense list element\nin x dense element\nout y dense element\ny .= 0\nfor i { for j { y[i] += A[i,j] * x[j] } }\n%%\ntensor A\nformat dense list element\nfill 0\nshape 2 3\nptr 1 0 2 3\nidx 1 0 2 1\nval 5 7 9\nend\ntensor x\nformat dense element\nfill 0\nshape 3\nval 1 2 3\nend\n",
        out: b"ok\n",
        ..RUN
    },
    // no rows
    Case {
        words: &["finch", "check"],
        job: b"in A dense list element\nout B dense list element\nB .= 0\nfor i { for j { B[i,j] += A[i,j] } }\n%%\ntensor A\nformat dense list element\nfill 0\nshape 0 3\nptr 1 0\nidx 1\nval\nend\n",
        out: b"ok\n",
        ..RUN
    },
    // a stored fill
    Case {
        words: &["finch", "check"],
        job: b"in A dense list element\nout B dense list element\nB .= 0\nfor i { for j { B[i,j] += A[i,j] } }\n%%\ntensor A\nformat dense list element\nfill 0\nshape 1 3\nptr 1 0 2\nidx 1 0 2\nval 0 4\nend\n",
        out: b"ok\n",
        ..RUN
    },
    // two matrices
    Case {
        words: &["finch", "check"],
        job: b"in A dense list element\nin B dense list element\nout C dense list element\ntmp w dense element\nC .= 0\nfor i {\n  w .= 0\n  for k { for j { w[j] += A[i,k] * B[k,j] } }\n  for j { C[i,j] += w[j] }\n}\n%%\ntensor A\nformat dense list element\nfill 0\nshape 2 2\nptr 1 0 2 3\nidx 1 0 1 1\nval 1 2 3\nend\ntensor B\nformat dense list element\nfill 0\nshape 2 3\nptr 1 0 1 2\nidx 1 1 0\nval 4 5\nend\n",
        out: b"ok\n",
        ..RUN
    },
    // neighbours
    Case {
        words: &["finch", "check"],
        job: b"in x dense element\nout y dense element shape 3\ny .= 0\nfor i { for k in 0..3 { y[i] += x[~(i+k-1)] } }\n%%\ntensor x\nformat dense element\nfill 0\nshape 3\nval 1 2 3\nend\n",
        out: b"ok\n",
        ..RUN
    },
    // a block and runs
    Case {
        words: &["finch", "check"],
        job: b"in x dense element\nout b band element\nout r runs element\nb .= 0\nr .= 0\nfor i { b[i] += x[i] r[i] += x[i] }\n%%\ntensor x\nformat dense element\nfill 0\nshape 6\nval 0 0 4 0 5 0\nend\n",
        out: b"ok\n",
        ..RUN
    },
];

#[test]
fn whole_jobs_are_judged(rt: HostRuntime) -> Result<(), Fail> {
    for case in WHOLES.iter().chain(&ACCEPTED) {
        ends_as(&rt, rt.alloc(), case)?;
    }
    Ok(())
}
