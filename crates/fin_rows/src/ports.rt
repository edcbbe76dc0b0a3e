//! Statuses and texts of single calls: words without a reading, faults of each port, want of memory, several workers.
use crate::case::{
    Case, PRODUCT, PRODUCT_TEXT, PRODUCT_WORK, REFUSED, ROOM, RUN, STATS, ends_as, words,
};
use fin_cli::{asks_workers, finch, finch_one};
use fin_ports::{MemSink, MemSource};
use std::test::Fail;

const UNEQUAL: &[u8] =
    b"in a dense element\nin b dense element\nout y dense element\ny .= 0\nfor i { y[i] += a[i] * b[i] }\n%%\ntensor a\nformat dense element\nfill 0\nshape 3\nval 1 2 3\nend\ntensor b\nformat dense element\nfill 0\nshape 2\nval 4 5\nend\n";

const EMPTY: &[u8] =
    b"in a dense element\nin b dense element\nout y dense element\ny .= 0\nfor i { y[i] += a[i] * b[i] }\n%%\ntensor a\nformat dense element\nfill 0\nshape 0\nval\nend\ntensor b\nformat dense element\nfill 0\nshape 0\nval\nend\n";

const EMPTY_TEXT: &[u8] = b"tensor y\nformat dense element\nfill 0\nshape 0\nval\nend\n";

const USAGE: &[u8] =
    b"usage: finch run,check,plain,gen [--workers N] [--budget N] [--stats] [--seed N] [--size N]\n";

const CASES: [Case; 22] = [
    RUN,
    Case { most: 1, ..RUN },
    Case {
        most: 1 << 20,
        ..RUN
    },
    Case {
        job: UNEQUAL,
        err: b"refused M1 line 5\n",
        ..REFUSED
    },
    Case {
        job: EMPTY,
        out: EMPTY_TEXT,
        ..RUN
    },
    Case {
        job: b"",
        err: b"refused J2 line 0\n",
        ..REFUSED
    },
    Case {
        words: &["finch", "check", "--workers", "2"],
        out: b"ok\n",
        ..RUN
    },
    Case {
        words: &["finch", "plain"],
        ..RUN
    },
    Case {
        words: &["finch", "plain"],
        out_fails: &[2],
        status: 4,
        out: b"tensor y\nforma",
        err: b"write fault\n",
        ..RUN
    },
    Case {
        words: &["finch", "gen", "--size", "3"],
        source_fails: &[0],
        err: b"refused S2 line 0\n",
        ..REFUSED
    },
    Case {
        source_fails: &[0],
        status: 3,
        out: b"",
        err: b"read fault\n",
        ..RUN
    },
    Case {
        source_fails: &[2],
        err_fails: &[1],
        status: 4,
        out: b"",
        err: b"read fawrite fault\n",
        ..RUN
    },
    Case {
        out_fails: &[2],
        status: 4,
        out: b"tensor y\nforma",
        err: b"write fault\n",
        ..RUN
    },
    Case {
        job: UNEQUAL,
        err_fails: &[0],
        status: 4,
        err: b"write fault\n",
        ..REFUSED
    },
    Case {
        job: UNEQUAL,
        err_fails: &[1, 2],
        status: 4,
        err: b"refused",
        ..REFUSED
    },
    // a check has no work to tell
    Case {
        words: &["finch", "check", "--stats"],
        out: b"ok\n",
        ..RUN
    },
    // behind the whole output the line of the work fails, at once or within
    Case {
        words: STATS,
        err_fails: &[0],
        status: 4,
        err: b"write fault\n",
        ..RUN
    },
    Case {
        words: STATS,
        err_fails: &[1],
        status: 4,
        err: b"work 19write fault\n",
        ..RUN
    },
    // where the output fails there is no such line
    Case {
        words: STATS,
        out_fails: &[2],
        status: 4,
        out: b"tensor y\nforma",
        err: b"write fault\n",
        ..RUN
    },
    Case {
        words: &["finch"],
        source_fails: &[0],
        status: 2,
        out: b"",
        err: USAGE,
        ..RUN
    },
    Case {
        words: &["finch", "fly"],
        source_fails: &[0],
        status: 2,
        out: b"",
        err: USAGE,
        ..RUN
    },
    Case {
        words: &["finch", "run", "--workers", "65"],
        source_fails: &[0],
        status: 2,
        out: b"",
        err: USAGE,
        ..RUN
    },
];

#[test]
fn each_call_ends_as_it_is_due(rt: HostRuntime) -> Result<(), Fail> {
    for case in &CASES {
        ends_as(&rt, rt.alloc(), case)?;
    }
    Ok(())
}

// Whichever allocation fails, the call says so or comes to what is due.
#[test]
fn a_refused_allocation_is_told(rt: HostRuntime) -> Result<(), Fail> {
    let alloc = rt.alloc();
    let Ok(words) = words(alloc, STATS) else {
        return Ok(());
    };
    let (Ok(job), Ok(mut out), Ok(mut err)) = (
        PRODUCT.to_vec(alloc),
        MemSink::new(alloc, ROOM, 7, Vec::new(alloc)),
        MemSink::new(alloc, ROOM, 7, Vec::new(alloc)),
    ) else {
        return Ok(());
    };
    let mut source = MemSource::new(job, 7, Vec::new(alloc));
    let Ok(false) = asks_workers(alloc, &words) else {
        return Ok(());
    };
    let status = finch_one(alloc, &words, &mut source, &mut out, &mut err);
    if status == 5 {
        assert_eq!(rt; err.taken(), b"out of memory\n".as_slice());
    } else {
        assert_eq!(rt; status, 0);
        assert_eq!(rt; out.taken(), PRODUCT_TEXT);
        assert_eq!(rt; err.taken(), PRODUCT_WORK);
    }
    Ok(())
}

// For now a run by several workers is done by one.
#[test]
fn several_workers_are_served(rt: HostRuntime) -> Result<(), Fail> {
    let alloc = rt.alloc();
    let words = words(alloc, &["finch", "run", "--workers", "2", "--stats"])?;
    let mut source = MemSource::new(PRODUCT.to_vec(alloc)?, 7, Vec::new(alloc));
    let mut out = MemSink::new(alloc, ROOM, 7, Vec::new(alloc))?;
    let mut err = MemSink::new(alloc, ROOM, 7, Vec::new(alloc))?;
    let status = finch(&rt, alloc, &words, &mut source, &mut out, &mut err);
    assert_eq!(rt; status, 0);
    assert_eq!(rt; out.taken(), PRODUCT_TEXT);
    assert_eq!(rt; err.taken(), PRODUCT_WORK);
    Ok(())
}
