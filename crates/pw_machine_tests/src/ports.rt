//! The ports over memory, over std's readers and writers, and over the current folder, call by call.

use pw_base::Name;
use pw_io::{
    Asked, DirStore, Failed, MemSink, MemSource, MemStore, Next, ReadError, Sink, Source, StdSink,
    StdSource, Store, WriteError,
};
use std::io::{Read, Write};
use std::test::Fail;
use std::{fs, io};

#[test]
fn a_failed_call_takes_nothing_and_the_end_comes_after_the_last_byte(
    rt: HostRuntime,
) -> Result<(), Fail> {
    let alloc = rt.alloc();
    let mut source = MemSource::new(vec![in alloc; b'a', b'b']?, vec![in alloc; 2]?);
    assert_eq!(rt; source.next(), Next::Byte(b'a'));
    assert_eq!(rt; source.next(), Next::Failed);
    assert_eq!(rt; source.left(), b"b".as_slice());
    assert_eq!(rt; source.next(), Next::Byte(b'b'));
    assert_eq!(rt; source.next(), Next::End);
    assert_eq!(rt; source.faults(), 1);
    Ok(())
}

#[test]
fn a_sink_fails_at_its_third_call_and_where_it_is_full(rt: HostRuntime) -> Result<(), Fail> {
    let alloc = rt.alloc();
    let mut sink = MemSink::new(alloc, 3, vec![in alloc; 3]?)?;
    assert_eq!(rt; sink.put(b'a'), Ok(()));
    assert_eq!(rt; sink.put(b'b'), Ok(()));
    assert_eq!(rt; sink.put(b'c'), Err(Failed));
    assert_eq!(rt; sink.written(), b"ab".as_slice());
    assert_eq!(rt; sink.flush(), Ok(()));
    assert_eq!(rt; sink.put(b'c'), Ok(()));
    assert_eq!(rt; sink.put(b'd'), Err(Failed));
    assert_eq!(rt; sink.written(), b"abc".as_slice());
    assert_eq!(rt; (sink.flushed(), sink.faults()), (2, 2));
    Ok(())
}

#[test]
fn a_store_reads_within_the_limit_and_fails_at_its_second_call(
    rt: HostRuntime,
) -> Result<(), Fail> {
    let alloc = rt.alloc();
    let name = Name::read(alloc, b"a")?;
    let missing = Name::read(alloc, b"b")?;
    let file = (Name::read(alloc, b"a")?, vec![in alloc; 1, 2, 3]?);
    let mut store = MemStore::new(alloc, vec![in alloc; file]?, vec![in alloc; 2]?);
    assert_eq!(rt;
        store.read(alloc, &name, 3)?.as_slice(),
        [1, 2, 3].as_slice()
    );
    assert_eq!(rt; store.read(alloc, &name, 3).err(), Some(ReadError::Failed));
    assert_eq!(rt;
        store.read(alloc, &name, 2).err(),
        Some(ReadError::TooLong(2))
    );
    assert_eq!(rt;
        store.read(alloc, &missing, 2).err(),
        Some(ReadError::Failed)
    );
    assert_eq!(rt; (store.calls().len(), store.faults()), (4, 2));
    Ok(())
}

#[test]
fn a_written_file_is_read_back_and_the_others_stay(rt: HostRuntime) -> Result<(), Fail> {
    let alloc = rt.alloc();
    let old = Name::read(alloc, b"old")?;
    let new = Name::read(alloc, b"new")?;
    let mut store = MemStore::new(alloc, vec![in alloc]?, vec![in alloc; 4]?);
    store.write(&old, b"first")?;
    store.write(&new, b"second")?;
    store.write(&old, b"third")?;
    assert_eq!(rt; store.write(&new, b"fourth"), Err(WriteError::Failed));
    assert_eq!(rt; store.read(alloc, &old, 9)?.as_slice(), b"third".as_slice());
    assert_eq!(rt; store.file(&new), Some(b"second".as_slice()));
    assert_eq!(rt; matches!(store.calls().last(), Some(Asked::Read(_))), true);
    Ok(())
}

/// A reader that each call fails of.
#[derive(Drop)]
struct Broken;

impl Read for Broken {
    fn read(&mut self, _buf: &mut [u8]) -> io::Result<usize> {
        Err(io::Error::from(io::ErrorKind::Interrupted))
    }
}

#[test]
fn a_source_over_a_reader_gives_its_bytes_and_counts_its_errors(rt: HostRuntime) {
    let mut source = StdSource::new(b"a".as_slice());
    assert_eq!(rt; source.next(), Next::Byte(b'a'));
    assert_eq!(rt; source.next(), Next::End);
    assert_eq!(rt; source.faults(), 0);
    let mut broken = StdSource::new(Broken);
    assert_eq!(rt; broken.next(), Next::Failed);
    assert_eq!(rt; broken.faults(), 1);
}

/// A writer that takes nothing, and cannot be flushed.
#[derive(Drop)]
struct Closed;

impl Write for Closed {
    fn write(&mut self, _buf: &[u8]) -> io::Result<usize> {
        Ok(0)
    }

    fn flush(&mut self) -> io::Result<()> {
        Err(io::Error::from(io::ErrorKind::Interrupted))
    }
}

#[test]
fn a_sink_over_a_writer_writes_each_byte_and_counts_what_is_not_taken(rt: HostRuntime) {
    let mut written = Vec::new(rt.alloc());
    let mut sink = StdSink::new(&mut written);
    assert_eq!(rt; sink.put(b'a'), Ok(()));
    assert_eq!(rt; sink.put(b'b'), Ok(()));
    assert_eq!(rt; sink.flush(), Ok(()));
    assert_eq!(rt; sink.faults(), 0);
    assert_eq!(rt; written.as_slice(), b"ab".as_slice());
    let mut closed = StdSink::new(Closed);
    assert_eq!(rt; closed.put(b'a'), Err(Failed));
    assert_eq!(rt; closed.flush(), Err(Failed));
    assert_eq!(rt; closed.faults(), 2);
}

#[test]
fn a_written_file_is_read_back_and_what_is_missing_or_a_folder_fails(
    rt: HostRuntime,
) -> Result<(), Fail> {
    let alloc = rt.alloc();
    let name = Name::read(alloc, b"pw_io-written-by-a-test")?;
    let missing = Name::read(alloc, b"pw_io-written-by-no-test")?;
    let folder = Name::read(alloc, b"..")?;
    let mut store = DirStore::new(&rt);
    store.write(&name, b"a longer text")?;
    store.write(&name, b"text")?;
    assert_eq!(rt; store.read(alloc, &name, 4)?.as_slice(), b"text".as_slice());
    assert_eq!(rt;
        store.read(alloc, &name, 3).err(),
        Some(ReadError::TooLong(3))
    );
    assert_eq!(rt; store.faults(), 0);
    assert_eq!(rt;
        store.read(alloc, &missing, 4).err(),
        Some(ReadError::Failed)
    );
    assert_eq!(rt;
        store.read(alloc, &folder, 4).err(),
        Some(ReadError::Failed)
    );
    assert_eq!(rt; store.write(&folder, b"text"), Err(WriteError::Failed));
    assert_eq!(rt; store.faults(), 3);
    fs::remove_file(&rt, "pw_io-written-by-a-test")?;
    Ok(())
}
