//! What `check` says of a program without tensors.
use crate::case::{ROOM, words};
use fin_cli::{asks_workers, finch_one};
use fin_ports::{MemSink, MemSource};
use std::alloc::{AllocError, Global};
use std::process::Abort;
use std::test::Fail;

/// A job by the pieces of its program, each repeated, and no tensors.
fn job_of(alloc: Global, pieces: &[(&[u8], usize)]) -> Result<Vec<u8>, AllocError> {
    let mut job = Vec::new(alloc);
    for (piece, count) in pieces {
        for _ in 0..*count {
            job.extend_from_slice(piece)?;
        }
    }
    job.extend_from_slice(b"\n%%\n")?;
    Ok(job)
}

/// The line stands on the output where it is `ok`, else on the error output.
pub(crate) fn checks_as(
    rt: &impl Abort,
    alloc: Global,
    pieces: &[(&[u8], usize)],
    line: &[u8],
) -> Result<(), Fail> {
    let words = words(alloc, &["finch", "check"])?;
    let mut source = MemSource::new(job_of(alloc, pieces)?, ROOM, Vec::new(alloc));
    let mut out = MemSink::new(alloc, ROOM, ROOM, Vec::new(alloc))?;
    let mut err = MemSink::new(alloc, ROOM, ROOM, Vec::new(alloc))?;
    assert!(rt; !asks_workers(alloc, &words)?);
    let status = finch_one(alloc, &words, &mut source, &mut out, &mut err);
    assert!(rt; status < 2);
    let told = if status == 0 {
        out.taken()
    } else {
        err.taken()
    };
    assert_eq!(rt; told, line);
    Ok(())
}
