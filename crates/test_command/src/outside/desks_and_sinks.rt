// Desks and sinks: what is expected was worked by hand from what the calls promise.

use cs_io::{
    BufferedSink, Desk, DeskError, FolderDesk, MemoryDesk, MemorySink, NullSink, Sink, SinkError,
    StreamSink, write_all,
};
use std::alloc::{AllocError, Global};
use std::fs;
use std::test::Fail;

// A name, how many bytes are asked for, and what a desk answers.
type DeskRead = (&'static str, usize, Result<&'static [u8], DeskError>);

fn answers<D: Desk>(alloc: Global, desk: &mut D, read: &DeskRead) -> bool {
    match desk.read(alloc, read.0, read.1) {
        Ok(bytes) => Ok(bytes.as_slice()) == read.2,
        Err(error) => Err(error) == read.2,
    }
}

fn three_files(alloc: Global) -> Result<Vec<(String, Vec<u8>)>, AllocError> {
    let mut files = Vec::new(alloc);
    files.push((String::from_str(alloc, "a")?, b"one".to_vec(alloc)?))?;
    files.push((String::from_str(alloc, "a")?, b"two".to_vec(alloc)?))?;
    files.push((String::from_str(alloc, "b")?, b"three".to_vec(alloc)?))?;
    Ok(files)
}

const READS: &[DeskRead] = &[
    ("a", 9, Ok(b"one")),
    ("a", 9, Err(DeskError::Failed)),
    ("c", 9, Err(DeskError::Missing)),
    ("b", 5, Ok(b"three")),
    ("b", 2, Ok(b"th")),
];

#[test]
fn a_desk_in_memory_fails_at_the_chosen_call(rt: HostRuntime) -> Result<(), Fail> {
    let alloc = rt.alloc();
    let mut desk = MemoryDesk::new(three_files(alloc)?, [1].to_vec(alloc)?)?;
    for read in READS {
        assert!(rt; answers(alloc, &mut desk, read), "{read:?}");
    }
    Ok(())
}

// Whether a sink answers this to a piece, and has taken these bytes then.
fn takes(
    sink: &mut MemorySink,
    piece: &[u8],
    want: Result<usize, SinkError>,
    written: &[u8],
) -> bool {
    !piece.is_empty() && sink.write(piece) == want && sink.written() == written
}

const WRITES: &[(&[u8], Result<usize, SinkError>, &[u8])] = &[
    (b"abc", Ok(2), b"ab"),
    (b"c", Err(SinkError::Failed), b"ab"),
    (b"c", Ok(1), b"abc"),
    (b"defg", Ok(2), b"abcde"),
    (b"f", Err(SinkError::Failed), b"abcde"),
];

#[test]
fn a_sink_in_memory_fails_at_the_chosen_call_and_when_full(rt: HostRuntime) -> Result<(), Fail> {
    let alloc = rt.alloc();
    let mut sink = MemorySink::new(alloc, 5, 2, [1].to_vec(alloc)?)?;
    for &(piece, want, written) in WRITES {
        assert!(rt; takes(&mut sink, piece, want, written), "{piece:?}");
    }
    Ok(())
}

// Whether a piece is written whole or not, and the sink has taken these bytes then.
fn takes_whole(
    sink: &mut MemorySink,
    piece: &[u8],
    want: Result<(), SinkError>,
    written: &[u8],
) -> bool {
    write_all(sink, piece) == want && sink.written() == written
}

const PIECES: &[(&[u8], Result<(), SinkError>, &[u8])] = &[
    (b"abc", Ok(()), b"abc"),
    (b"", Ok(()), b"abc"),
    (b"defg", Err(SinkError::Failed), b"abcde"),
];

#[test]
fn a_piece_is_written_whole_or_by_a_prefix(rt: HostRuntime) -> Result<(), Fail> {
    let alloc = rt.alloc();
    let mut sink = MemorySink::new(alloc, 5, 1, Vec::new(alloc))?;
    for &(piece, want, written) in PIECES {
        assert!(rt; takes_whole(&mut sink, piece, want, written), "{piece:?}");
    }
    Ok(())
}

const FOLDER_READS: &[DeskRead] = &[
    ("folder-desk-test", 9, Ok(b"12345")),
    ("folder-desk-test-missing", 9, Err(DeskError::Failed)),
    ("folder-desk-test", 2, Ok(b"12")),
];

#[test]
fn a_folder_is_read(rt: HostRuntime) -> Result<(), Fail> {
    fs::write(&rt, "folder-desk-test", "12345")?;
    let mut desk = FolderDesk::new(&rt);
    for read in FOLDER_READS {
        assert!(rt; answers(rt.alloc(), &mut desk, read), "{read:?}");
    }
    fs::remove_file(&rt, "folder-desk-test")?;
    Ok(())
}

#[test]
fn a_stream_is_written(rt: HostRuntime) -> Result<(), Fail> {
    let mut file = StreamSink::new(fs::File::create(&rt, "stream-sink-test")?);
    write_all(&mut file, b"abc")?;
    write_all(&mut file, b"de")?;
    let bytes = fs::read(&rt, "stream-sink-test")?;
    fs::remove_file(&rt, "stream-sink-test")?;
    assert_eq!(rt; bytes.as_slice(), b"abcde".as_slice());
    Ok(())
}

#[test]
fn a_slice_is_written(rt: HostRuntime) {
    let mut short = [0u8; 2];
    let mut slice = StreamSink::new(short.as_mut_slice());
    assert!(rt; slice.write(b"abc") == Ok(2));
    assert!(rt; slice.write(b"c") == Err(SinkError::Failed));
}

const LARGE: &[&[u8]] = &[b"ab", b"cd", b"e", b"fghijk", b"l"];

#[test]
fn a_buffered_sink_passes_on_large_pieces(rt: HostRuntime) -> Result<(), Fail> {
    let alloc = rt.alloc();
    let mut lent = MemorySink::new(alloc, 20, 20, Vec::new(alloc))?;
    let mut buffer = Vec::with_capacity(alloc, 4)?;
    let mut sink = BufferedSink::new(&mut lent, &mut buffer);
    for piece in LARGE {
        assert!(rt; write_all(&mut sink, piece) == Ok(()));
    }
    assert!(rt; lent.written() == b"abcdefghi".as_slice());
    let mut sink = BufferedSink::new(&mut lent, &mut buffer);
    assert!(rt; write_all(&mut sink, b"m") == Ok(()) && sink.flush() == Ok(()));
    assert!(rt; lent.written() == b"abcdefghim".as_slice());
    Ok(())
}

#[test]
fn a_buffered_sink_keeps_what_a_failed_flush_left(rt: HostRuntime) -> Result<(), Fail> {
    let alloc = rt.alloc();
    let mut lent = MemorySink::new(alloc, 20, 1, [2].to_vec(alloc)?)?;
    let mut buffer = Vec::with_capacity(alloc, 4)?;
    let mut sink = BufferedSink::new(&mut lent, &mut buffer);
    assert!(rt; write_all(&mut sink, b"abcd") == Ok(()));
    assert!(rt; write_all(&mut sink, b"ef") == Err(SinkError::Failed));
    assert!(rt; write_all(&mut sink, b"gh") == Ok(()) && sink.flush() == Ok(()));
    assert!(rt; lent.written() == b"abcdgh".as_slice());
    Ok(())
}

#[test]
fn a_null_sink_takes_each_piece_whole(rt: HostRuntime) -> Result<(), Fail> {
    let mut sink = NullSink::new();
    assert!(rt; sink.write(b"abc") == Ok(3));
    assert!(rt; write_all(&mut sink, b"") == Ok(()));
    Ok(())
}
