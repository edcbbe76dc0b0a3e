//! A call of the program over ports in memory, and how it must end.
use fin_cli::{asks_workers, finch_one};
use fin_ports::{MemSink, MemSource};
use std::alloc::{AllocError, Global};
use std::process::Abort;
use std::test::Fail;

pub(crate) const ROOM: usize = 1 << 12;

pub(crate) const PRODUCT: &[u8] =
    b"in a dense element\nin b dense element\nout y dense element\ny .= 0\nfor i { y[i] += a[i] * b[i] }\n%%\ntensor a\nformat dense element\nfill 0\nshape 3\nval 1 2 3\nend\ntensor b\nformat dense element\nfill 0\nshape 3\nval 4 5 6\nend\n";

pub(crate) const PRODUCT_TEXT: &[u8] =
    b"tensor y\nformat dense element\nfill 0\nshape 3\nval 4 10 18\nend\n";

pub(crate) const PRODUCT_WORK: &[u8] = b"work 19\n";

/// A run that tells its work.
pub(crate) const STATS: &[&str] = &["finch", "run", "--stats"];

#[derive(Clone, Copy)]
pub(crate) struct Case {
    pub(crate) words: &'static [&'static str],
    pub(crate) job: &'static [u8],
    // how many bytes a call of a port moves at the most
    pub(crate) most: usize,
    pub(crate) source_fails: &'static [u64],
    pub(crate) out_fails: &'static [u64],
    pub(crate) err_fails: &'static [u64],
    pub(crate) status: u8,
    pub(crate) out: &'static [u8],
    pub(crate) err: &'static [u8],
}

pub(crate) const RUN: Case = Case {
    words: &["finch", "run"],
    job: PRODUCT,
    most: 7,
    source_fails: &[],
    out_fails: &[],
    err_fails: &[],
    status: 0,
    out: PRODUCT_TEXT,
    err: b"",
};

pub(crate) const REFUSED: Case = Case {
    status: 1,
    out: b"",
    ..RUN
};

pub(crate) fn words(alloc: Global, texts: &[&str]) -> Result<Vec<String>, AllocError> {
    let mut words = Vec::new(alloc);
    for text in texts {
        words.push(String::from_str(alloc, text)?)?;
    }
    Ok(words)
}

pub(crate) fn ends_as(rt: &impl Abort, alloc: Global, case: &Case) -> Result<(), Fail> {
    assert!(rt; case.most > 0);
    let words = words(alloc, case.words)?;
    let source_fails = case.source_fails.to_vec(alloc)?;
    let mut source = MemSource::new(case.job.to_vec(alloc)?, case.most, source_fails);
    let mut out = MemSink::new(alloc, ROOM, case.most, case.out_fails.to_vec(alloc)?)?;
    let mut err = MemSink::new(alloc, ROOM, case.most, case.err_fails.to_vec(alloc)?)?;
    assert!(rt; !asks_workers(alloc, &words)?);
    let status = finch_one(alloc, &words, &mut source, &mut out, &mut err);
    assert_eq!(rt; status, case.status);
    assert_eq!(rt; out.taken(), case.out);
    assert_eq!(rt; err.taken(), case.err);
    Ok(())
}
