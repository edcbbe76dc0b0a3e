//! A whole job read, and a whole text put.
ghost use Rattle.std.specs.Prelude.{◌≡◌, ◌<◌, ◌≤◌, length, IfErr, OnErr};
ghost use Rattle.std.specs.List.{flat_map};
ghost use Rattle.fin_ports.specs.Causes.{HasCause, Rose};
ghost use Rattle.fin_ports.specs.Bytes.{PutsAll, ReadsJob, ReadsPiece, most};
ghost use Rattle.fin_ports.specs.declared.job.JobRead.TheVariants.{Fault, TooLong, Memory};

use crate::{Failed, Sink, Source};
use std::alloc::{AllocError, Global};

/// The most bytes of a job.
pub const MOST: usize = 16_777_216;

const PIECE: usize = 4096;

/// Why a job was not read whole.
#[derive(Debug, Drop)]
pub enum JobRead {
    /// A read of the source failed.
    Fault,
    /// More bytes are left than a job may have.
    TooLong,
    /// Memory ran out.
    Memory(AllocError),
}

/// Reads all that is left, at most `MOST` bytes.
pub fn read_job<S: Source>(alloc: Global, source: &mut S) -> Result<Vec<u8>, JobRead>
    ensures bytes { ReadsJob (λ v. v.items) (S.left source.old) (S.left source.new) result }
    ensures cause { IfErr result (λ e. e ≡ Fault → Rose (S.faults source.old) (S.faults source.new)) }
    ensures counted { S.faults source.old ≤ S.faults source.new }
    ensures later { S.Later source.old source.new }
{
    let mut bytes = Vec::new(alloc);
    'pieces: loop {
        match read_piece(source, &mut bytes) {
            Ok(true) => {}
            Ok(false) => return Ok(bytes),
            Err(e) => return Err(e),
        }
    }
}

// Reads one more piece behind the bytes so far, or finds the end.
fn read_piece<S: Source>(source: &mut S, bytes: &mut Vec<u8>) -> Result<bool, JobRead>
    requires { length bytes.old.items ≤ most }
    ensures bytes { ReadsPiece bytes.old.items bytes.new.items (S.left source.old) (S.left source.new) result }
    ensures cause { IfErr result (λ e. e ≡ Fault → Rose (S.faults source.old) (S.faults source.new)) }
    ensures counted { S.faults source.old ≤ S.faults source.new }
    ensures later { S.Later source.old source.new }
{
    let mut piece = [0; PIECE];
    let room = (MOST + 1 - bytes.len()).min(PIECE);
    match source.read(&mut piece[..room]) {
        Err(Failed) => Err(JobRead::Fault),
        Ok(0) => Ok(false),
        Ok(count) if bytes.len() + count > MOST => Err(JobRead::TooLong),
        Ok(count) => match bytes.extend_from_slice(&piece[..count]) {
            Ok(()) => Ok(true),
            Err(refused) => Err(JobRead::Memory(refused)),
        },
    }
}

/// Puts all the bytes, or fewer where a put fails.
pub fn put_all<K: Sink>(sink: &mut K, bytes: &[u8]) -> Result<(), Failed>
    ensures bytes { PutsAll (K.taken sink.old) (K.taken sink.new) result bytes.now }
    ensures cause { HasCause (K.faults sink.old) (K.faults sink.new) result }
    ensures later { K.Later sink.old sink.new }
{
    let mut at = 0;
    while at < bytes.len() {
        at += sink.put(&bytes[at..])?;
    }
    Ok(())
}

/// Puts texts one after another, or less than all where a put fails.
pub fn put_each<K: Sink>(sink: &mut K, texts: &[Vec<u8>]) -> Result<(), Failed>
    ensures bytes { PutsAll (K.taken sink.old) (K.taken sink.new) result (flat_map (λ text. text.items) texts.now) }
    ensures cause { HasCause (K.faults sink.old) (K.faults sink.new) result }
    ensures later { K.Later sink.old sink.new }
{
    for text in texts {
        if let Err(failed) = put_all(sink, text) {
            return Err(failed);
        }
    }
    Ok(())
}
