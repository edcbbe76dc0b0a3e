//! Ports in memory, and over readers and writers.
use fin_ports::{MemSink, MemSource, Sink, Source, StdSink, StdSource, put_all, read_job};
use std::test::Fail;

#[test]
fn reads_a_job_in_pieces(rt: HostRuntime) -> Result<(), Fail> {
    let alloc = rt.alloc();
    for (bytes, most) in [("", 1), ("abc", 1), ("abc", 2), ("abc", 9)] {
        let mut source = MemSource::new(bytes.as_bytes().to_vec(alloc)?, most, Vec::new(alloc));
        let read = read_job(alloc, &mut source);
        assert!(rt;
            read.is_ok_and(|job| job.as_slice() == bytes.as_bytes()),
            "{bytes} by {most}"
        );
        assert_eq!(rt; source.read(&mut [0; 4]), Ok(0));
        assert_eq!(rt; source.read(&mut [0; 4]), Ok(0));
    }
    let mut broken = MemSource::new(b"abc".to_vec(alloc)?, 2, [1].to_vec(alloc)?);
    assert!(rt; read_job(alloc, &mut broken).is_err());
    assert_eq!(rt; broken.read(&mut [0; 4]), Ok(1));
    Ok(())
}

#[test]
fn puts_what_there_is_room_for(rt: HostRuntime) -> Result<(), Fail> {
    let alloc = rt.alloc();
    let mut sink = MemSink::new(alloc, 5, 1, [2].to_vec(alloc)?)?;
    for (text, ok, taken) in [
        ("ab", true, "ab"),
        ("cd", false, "ab"),
        ("cde", true, "abcde"),
        ("f", false, "abcde"),
        ("", true, "abcde"),
    ] {
        assert_eq!(rt;
            put_all(&mut sink, text.as_bytes()).is_ok(),
            ok,
            "at {text}"
        );
        assert_eq!(rt; sink.taken(), taken.as_bytes());
    }
    assert!(rt; sink.put(b"g").is_err());
    Ok(())
}

#[test]
fn stands_on_readers_and_writers(rt: HostRuntime) -> Result<(), Fail> {
    let alloc = rt.alloc();
    let mut source = StdSource::new(b"abc".as_slice());
    assert!(rt; read_job(alloc, &mut source).is_ok_and(|job| job.as_slice() == b"abc".as_slice()));
    let mut room = [0; 4];
    let mut sink = StdSink::new(room.as_mut_slice());
    assert!(rt; put_all(&mut sink, b"abc").is_ok());
    assert!(rt; put_all(&mut sink, b"de").is_err());
    Ok(())
}
