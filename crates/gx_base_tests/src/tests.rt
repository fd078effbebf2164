//! Streams in memory and real ones, tried at short texts.
use gx_base::{
    CleanSource, Failed, MemSink, MemSource, ReadAllFault, Sink, Source, StdSink, StdSource,
    read_all, write_all,
};
use std::alloc::Global;
use std::fs::File;
use std::io;
use std::io::{Cursor, ErrorKind, Read, Write};
use std::test::Fail;

const TEXT: &[u8] = b"All the bytes to be.";

// One less than the length of a piece.
const SHORTER: [u16; 3] = [0, 6, 4095];

fn rest_of_text(from: usize) -> &'static [u8] {
    let text = TEXT;
    &text[from.min(text.len())..]
}

// A reader that never gives anything.
#[derive(Drop)]
struct NoReader;

impl Read for NoReader {
    fn read(&mut self, _buf: &mut [u8]) -> io::Result<usize> {
        Err(io::Error::from(ErrorKind::TimedOut))
    }
}

// A writer that takes nothing and calls that no error.
#[derive(Drop)]
struct FullWriter;

impl Write for FullWriter {
    fn write(&mut self, _buf: &[u8]) -> io::Result<usize> {
        Ok(0)
    }

    fn flush(&mut self) -> io::Result<()> {
        Ok(())
    }
}

// A writer that keeps all in a buffer which it can't empty.
#[derive(Drop)]
struct StuckBuffer;

impl Write for StuckBuffer {
    fn write(&mut self, buf: &[u8]) -> io::Result<usize> {
        Ok(buf.len())
    }

    fn flush(&mut self) -> io::Result<()> {
        Err(io::Error::from(ErrorKind::StorageFull))
    }
}

#[test]
fn pieces_of_any_length_give_the_same(rt: HostRuntime) -> Result<(), Fail> {
    let alloc = rt.alloc();
    let text = vec![in alloc; 7; 5000]?;
    for shorter in SHORTER {
        let piece = usize::from(shorter) + 1;
        let mut source = MemSource::new(text.clone()?, piece, Vec::new(alloc));
        assert_eq!(rt;
            read_all(alloc, &mut source, 5000)?.as_slice(),
            text.as_slice()
        );
        let mut clean = CleanSource::new(text.clone()?, piece);
        assert_eq!(rt;
            read_all(alloc, &mut clean, 6000)?.as_slice(),
            text.as_slice()
        );
    }
    Ok(())
}

#[test]
fn a_read_that_fails_is_a_fault(rt: HostRuntime) -> Result<(), Fail> {
    let alloc = rt.alloc();
    // Three calls give the text, and the fourth its end.
    for (failing, read) in [(1, 0), (2, 8), (3, 16), (4, 20)] {
        let failing = [failing].to_vec(alloc)?;
        let mut source = MemSource::new(TEXT.to_vec(alloc)?, 8, failing);
        let answer = read_all(alloc, &mut source, 100);
        assert_eq!(rt; answer.err(), Some(ReadAllFault::ReadFault));
        assert_eq!(rt;
            read_all(alloc, &mut source, 100)?.as_slice(),
            rest_of_text(read)
        );
    }
    let mut source = MemSource::new(TEXT.to_vec(alloc)?, 8, [5, 0].to_vec(alloc)?);
    assert_eq!(rt; read_all(alloc, &mut source, 20)?.as_slice(), TEXT);
    assert_eq!(rt; source.read(&mut [0; 9]), Err(Failed));
    Ok(())
}

#[test]
fn one_byte_too_many_is_too_long(rt: HostRuntime) -> Result<(), Fail> {
    let alloc = rt.alloc();
    for shorter in SHORTER {
        for max in [0u8, 6, 7, 19] {
            let piece = usize::from(shorter) + 1;
            let max = usize::from(max);
            let mut source = CleanSource::new(TEXT.to_vec(alloc)?, piece);
            let answer = read_all(alloc, &mut source, max);
            assert_eq!(rt; answer.err(), Some(ReadAllFault::TooLong));
            assert_eq!(rt;
                read_all(alloc, &mut source, 20)?.as_slice(),
                rest_of_text(max + 1)
            );
        }
    }
    let mut empty = CleanSource::new(Vec::new(alloc), 1);
    assert_eq!(rt; read_all(alloc, &mut empty, 0)?.len(), 0);
    Ok(())
}

// A piece, the room, the call that fails, what a write of the whole text answers, and how many
// bytes the sink has then.
const WRITES: [(usize, usize, u64, Result<(), usize>, usize); 7] = [
    (10, 20, 0, Ok(()), 20),
    (10, 20, 1, Err(0), 0),
    (10, 20, 2, Err(10), 10),
    (10, 20, 3, Ok(()), 20),
    (4096, 64, 2, Ok(()), 20),
    (7, 12, 0, Err(12), 12),
    (1, 0, 0, Err(0), 0),
];

#[test]
fn a_sink_takes_what_it_has_room_for(rt: HostRuntime) -> Result<(), Fail> {
    let alloc = rt.alloc();
    for (piece, room, failing, answer, taken) in WRITES {
        let failing = [failing].to_vec(alloc)?;
        let mut sink = MemSink::new(alloc, piece.max(1), room, failing)?;
        assert_eq!(rt; write_all(&mut sink, TEXT), answer);
        assert_eq!(rt; sink.taken(), &TEXT[..taken.min(TEXT.len())]);
        assert_eq!(rt; write_all(&mut sink, b""), Ok(()));
    }
    Ok(())
}

#[test]
fn readers_are_sources(rt: HostRuntime) -> Result<(), Fail> {
    let alloc = rt.alloc();
    let mut slice = StdSource::new(TEXT);
    assert_eq!(rt; read_all(alloc, &mut slice, 20)?.as_slice(), TEXT);
    let mut cursor = StdSource::new(Cursor::new(TEXT));
    assert_eq!(rt;
        read_all(alloc, &mut cursor, 4).err(),
        Some(ReadAllFault::TooLong)
    );
    let mut broken = StdSource::new(NoReader);
    assert_eq!(rt;
        read_all(alloc, &mut broken, 4).err(),
        Some(ReadAllFault::ReadFault)
    );
    Ok(())
}

#[test]
fn writers_are_sinks(rt: HostRuntime) -> Result<(), Fail> {
    let mut bytes = Vec::new(rt.alloc());
    let mut sink = StdSink::new(&mut bytes);
    assert_eq!(rt; write_all(&mut sink, TEXT), Ok(()));
    assert_eq!(rt; bytes.as_slice(), TEXT);
    assert_eq!(rt; write_all(&mut StdSink::new(FullWriter), TEXT), Err(0));
    assert_eq!(rt; write_all(&mut StdSink::new(StuckBuffer), TEXT), Err(0));
    assert_eq!(rt;
        write_all(&mut StdSink::new(File::create(&rt, "/dev/full")?), TEXT),
        Err(0)
    );
    assert_eq!(rt;
        write_all(&mut StdSink::new(File::create(&rt, "/dev/null")?), TEXT),
        Ok(())
    );
    Ok(())
}
