//! Jobs that run, in both modes that run them, and their budgets.
use crate::case::{Case, REFUSED, RUN, STATS, ends_as};
use crate::examples::EXAMPLES;
use crate::rows::{
    ENDLESS, LARGE, MASK, MASK_TEXT, ROWS, SAME, SAME_TEXT, SAME_WORK, TIMES, TIMES_TEXT,
};
use std::test::Fail;

const PLAIN: &[&str] = &["finch", "plain", "--stats"];

// A run tells its work where that is asked for; evaluation has none.
#[test]
fn each_job_is_served(rt: HostRuntime) -> Result<(), Fail> {
    for row in ROWS.iter().chain(&EXAMPLES) {
        let run = Case {
            words: STATS,
            job: row.job,
            out: row.out,
            err: row.told,
            ..RUN
        };
        ends_as(&rt, rt.alloc(), &run)?;
        let plain = Case {
            words: PLAIN,
            err: b"",
            ..run
        };
        ends_as(&rt, rt.alloc(), &plain)?;
    }
    Ok(())
}

// An update that names nothing of its loop is done once for all 2^40 coordinates.
#[test]
fn updates_are_done_at_once(rt: HostRuntime) -> Result<(), Fail> {
    let case = Case {
        words: STATS,
        job: SAME,
        out: SAME_TEXT,
        err: SAME_WORK,
        ..RUN
    };
    ends_as(&rt, rt.alloc(), &case)
}

// Evaluation stops at a turn too many, and an output that is too large isn't stored.
#[test]
fn limits_are_kept(rt: HostRuntime) -> Result<(), Fail> {
    for job in [ENDLESS, LARGE] {
        let case = Case {
            words: PLAIN,
            job,
            err: b"refused B2 line 0\n",
            ..REFUSED
        };
        ends_as(&rt, rt.alloc(), &case)?;
    }
    Ok(())
}

// A run ends whole where its budget is its work.
const ENOUGH: [Case; 2] = [
    Case {
        words: &["finch", "run", "--budget", "30"],
        job: TIMES,
        out: TIMES_TEXT,
        ..RUN
    },
    Case {
        words: &["finch", "run", "--budget", "21"],
        job: MASK,
        out: MASK_TEXT,
        ..RUN
    },
];

// It doesn't where that is less. An output that is too large is over every budget.
const OVER: Case = Case {
    err: b"refused W1 line 0\n",
    ..REFUSED
};

const TOO_LITTLE: [Case; 4] = [
    Case {
        words: &["finch", "run", "--budget", "29"],
        job: TIMES,
        ..OVER
    },
    Case {
        words: &["finch", "run", "--budget", "20"],
        job: MASK,
        ..OVER
    },
    Case {
        words: &["finch", "run", "--budget", "5"],
        job: ENDLESS,
        ..OVER
    },
    Case { job: LARGE, ..OVER },
];

#[test]
fn budgets_are_kept(rt: HostRuntime) -> Result<(), Fail> {
    for case in ENOUGH.iter().chain(&TOO_LITTLE) {
        ends_as(&rt, rt.alloc(), case)?;
    }
    Ok(())
}
