// Sources of bytes and sinks of bytes: what each call moves, and what stands after a failure.
use pc_outside::{
    Failed, FileSink, FileSource, MemorySink, MemorySource, NoMemory, Sink, SliceSink, SliceSource,
    Source, read_all, write_pieces,
};
use std::alloc::Global;
use std::io::{self, ErrorKind, Read, Write};

/// A read: how much room its buffer has, how it ends, and what the front of the buffer is then.
type ReadStep<'a> = (usize, Result<usize, Failed>, &'a [u8]);

/// A write: its bytes, and how it ends.
type WriteStep<'a> = (&'a [u8], Result<(), Failed>);

/// Whether these reads into one buffer, one after the other, end like this.
fn is_read_like(source: &mut impl Source, steps: &[ReadStep<'_>]) -> bool {
    let mut buf = [b'.'; 4];
    for (room, end, front) in steps {
        if source.read(&mut buf[..(*room).min(4)]) != *end || !buf.starts_with(front) {
            return false;
        }
    }
    true
}

/// Whether these writes, one after the other, end like this.
fn is_written_like(sink: &mut impl Sink, steps: &[WriteStep<'_>]) -> bool {
    for (bytes, end) in steps {
        if sink.write(bytes) != *end {
            return false;
        }
    }
    true
}

const READS_OF_A_SLICE: &[ReadStep<'_>] = &[
    (0, Ok(0), b"...."),
    (3, Ok(3), b"abc."),
    (3, Ok(2), b"dec."),
    (3, Ok(0), b"dec."),
];

#[test]
fn reads_move_what_fits(rt: HostRuntime) {
    let mut source = SliceSource::new(b"abcde");
    assert!(rt; is_read_like(&mut source, READS_OF_A_SLICE));
}

const READS_OF_PIECES: &[ReadStep<'_>] = &[
    (4, Ok(2), b"ab.."),
    (0, Ok(0), b"ab.."),
    (4, Err(Failed), b"ab.."),
    (4, Ok(2), b"cd.."),
    (4, Ok(1), b"ed.."),
    (4, Ok(0), b"ed.."),
];

/// A source of five bytes that moves two at a time. The reads with these numbers fail.
fn by_two(alloc: Global, failing: &[u32]) -> Result<MemorySource, NoMemory> {
    let bytes = b"abcde".to_vec(alloc)?;
    Ok(MemorySource::new(bytes, Vec::from_slice(alloc, failing)?).with_piece(2))
}

#[test]
fn listed_reads_fail_and_the_others_move_a_piece(rt: HostRuntime) {
    let mut source = by_two(rt.alloc(), &[2]).expect(&rt, "memory");
    assert!(rt; is_read_like(&mut source, READS_OF_PIECES));
}

/// Gives "ab", is interrupted, gives "c", and then ends.
#[derive(Drop)]
struct Reader {
    calls: u8,
}

impl Read for Reader {
    fn read(&mut self, buf: &mut [u8]) -> io::Result<usize> {
        self.calls = self.calls.saturating_add(1);
        match (self.calls, buf) {
            (1, [first, second, ..]) => {
                *first = b'a';
                *second = b'b';
                Ok(2)
            }
            (2, _) => Err(io::Error::from(ErrorKind::Interrupted)),
            (3, [first, ..]) => {
                *first = b'c';
                Ok(1)
            }
            _ => Ok(0),
        }
    }
}

const READS_OF_A_READER: &[ReadStep<'_>] = &[
    (0, Ok(0), b"...."),
    (4, Ok(2), b"ab.."),
    (4, Err(Failed), b"ab.."),
    (4, Ok(1), b"cb.."),
    (4, Ok(0), b"cb.."),
];

#[test]
fn each_read_is_one_call_of_the_reader(rt: HostRuntime) {
    let mut reader = Reader { calls: 0 };
    let mut source = FileSource::new(&mut reader);
    assert!(rt; is_read_like(&mut source, READS_OF_A_READER));
    assert!(rt; reader.calls == 4);
}

#[test]
fn as_many_bytes_as_the_limit(rt: HostRuntime) {
    let mut source = by_two(rt.alloc(), &[]).expect(&rt, "memory");
    let read = read_all(rt.alloc(), &mut source, 5).expect(&rt, "bytes");
    assert!(rt; read.as_slice() == b"abcde".as_slice());
}

const WRITES_BEFORE_THE_COUNT: &[WriteStep<'_>] = &[(b"ab", Ok(()))];

const WRITES_BEHIND_THE_COUNT: &[WriteStep<'_>] = &[(b"cd", Ok(())), (b"efg", Err(Failed))];

#[test]
fn a_write_that_does_not_fit_fills_the_slice(rt: HostRuntime) {
    let mut slice = [b'.'; 5];
    let mut sink = SliceSink::new(&mut slice);
    assert!(rt; is_written_like(&mut sink, WRITES_BEFORE_THE_COUNT) && sink.count() == 2);
    assert!(rt; is_written_like(&mut sink, WRITES_BEHIND_THE_COUNT) && sink.count() == 5);
    assert!(rt; slice == *b"abcde");
}

const WRITES_THAT_FAIL: &[WriteStep<'_>] = &[
    (b"ab", Ok(())),
    (b"", Ok(())),
    (b"cde", Err(Failed)),
    (b"fg", Err(Failed)),
];

/// A sink with this much room. The writes with these numbers fail.
fn roomy(alloc: Global, room: usize, failing: &[u32]) -> Result<MemorySink, NoMemory> {
    MemorySink::new(alloc, room, Vec::from_slice(alloc, failing)?)
}

#[test]
fn a_failed_write_leaves_a_front(rt: HostRuntime) {
    let mut sink = roomy(rt.alloc(), 4, &[2]).expect(&rt, "memory");
    assert!(rt; is_written_like(&mut sink, WRITES_THAT_FAIL));
    assert!(rt; sink.bytes() == b"abcf".as_slice());
}

/// Takes two bytes a call, none in its fourth call, and is interrupted in its sixth.
#[derive(Drop)]
struct Writer {
    calls: u8,
    content: Vec<u8>,
}

impl Write for Writer {
    fn write(&mut self, buf: &[u8]) -> io::Result<usize> {
        self.calls = self.calls.saturating_add(1);
        match self.calls {
            4 => Ok(0),
            6 => Err(io::Error::from(ErrorKind::Interrupted)),
            _ => {
                let n = buf.len().min(2);
                self.content.extend_from_slice(&buf[..n])?;
                Ok(n)
            }
        }
    }

    fn flush(&mut self) -> io::Result<()> {
        Ok(())
    }
}

const WRITES_OF_A_WRITER: &[WriteStep<'_>] = &[
    (b"", Ok(())),
    (b"abcde", Ok(())),
    (b"f", Err(Failed)),
    (b"ghi", Err(Failed)),
];

#[test]
fn a_write_goes_on_until_all_is_taken(rt: HostRuntime) {
    let mut writer = Writer {
        calls: 0,
        content: Vec::new(rt.alloc()),
    };
    let mut sink = FileSink::new(&mut writer);
    assert!(rt; is_written_like(&mut sink, WRITES_OF_A_WRITER));
    assert!(rt; writer.content.as_slice() == b"abcdegh".as_slice() && writer.calls == 6);
}

#[test]
fn pieces_follow_each_other(rt: HostRuntime) {
    let mut sink = roomy(rt.alloc(), 3, &[]).expect(&rt, "memory");
    assert!(rt; write_pieces(&mut sink, &[b"ab", b"", b"c"]) == Ok(()));
    assert!(rt; sink.bytes() == b"abc".as_slice());
}
