use super::*;
use std::alloc::Global;
use std::io;
use std::random::RandomSource;
use std::test::Fail;

fn source_of(
    alloc: Global,
    text: &str,
    pieces: &[usize],
    failing: &[u64],
) -> Result<MemSource, OutOfMemory> {
    let bytes = text.as_bytes().to_vec(alloc)?;
    let pieces = pieces.to_vec(alloc)?;
    let failing = failing.to_vec(alloc)?;
    Ok(MemSource::new(bytes, pieces, failing))
}

#[test]
fn a_memory_source_gives_pieces_and_fails_as_planned(rt: HostRuntime) -> Result<(), Fail> {
    let mut source = source_of(rt.alloc(), "abcdef", &[2, 0, 9], &[2])?;
    let mut buf = [0; 4];
    for (answer, buffer) in [
        (Ok(2), b"ab\0\0"),
        (Err(Failed), b"ab\0\0"),
        (Ok(1), b"cb\0\0"),
        (Ok(3), b"def\0"),
        (Ok(0), b"def\0"),
    ] {
        assert_eq!(rt; source.read(&mut buf), answer);
        assert_eq!(rt; buf, *buffer);
    }
    assert_eq!(rt; source.reads(), 5);
    assert_eq!(rt; source.faults(), 1);
    Ok(())
}

#[test]
fn read_all_gives_the_input_up_to_its_end_or_the_bound(rt: HostRuntime) -> Result<(), Fail> {
    for (pieces, bound, text, reads) in [
        ([2, 2], 6, "hello", 4),
        ([2, 2], 5, "hello", 3),
        ([2, 2], 3, "hel", 2),
        ([9, 1], 1_048_577, "hello", 2),
        ([9, 1], 0, "", 0),
    ] {
        // The read after the one that gives 0 would fail.
        let mut source = source_of(rt.alloc(), "hello", &pieces, &[reads + 1])?;
        let given = read_all(rt.alloc(), &mut source, bound)?;
        assert_eq!(rt; given.as_slice(), text.as_bytes(), "at {bound}");
        assert_eq!(rt; source.reads(), reads, "at {bound}");
    }
    Ok(())
}

#[test]
fn read_all_hands_a_fault_on_and_loses_what_it_read(rt: HostRuntime) -> Result<(), Fail> {
    let mut source = source_of(rt.alloc(), "hello", &[2], &[2])?;
    assert_eq!(rt;
        read_all(rt.alloc(), &mut source, 9).err(),
        Some(ReadError::Failed)
    );
    assert_eq!(rt; source.faults(), 1);
    assert_eq!(rt;
        read_all(rt.alloc(), &mut source, 9)?.as_slice(),
        b"llo".as_slice()
    );
    Ok(())
}

#[test]
fn read_all_joins_chunks(rt: HostRuntime) -> Result<(), Fail> {
    let long = vec![in rt.alloc(); 7; 10_000]?;
    let mut source = MemSource::new(long, Vec::new(rt.alloc()), Vec::new(rt.alloc()));
    let given = read_all(rt.alloc(), &mut source, 9_999)?;
    assert_eq!(rt; given.len(), 9_999);
    assert_eq!(rt; source.reads(), 3);
    Ok(())
}

#[test]
fn a_memory_sink_takes_what_fits(rt: HostRuntime) -> Result<(), Fail> {
    let mut sink = MemSink::with_limit(rt.alloc(), 4)?;
    for (piece, answer) in [(b"abc", Ok(3)), (b"def", Ok(1)), (b"ghi", Err(Failed))] {
        assert_eq!(rt; sink.write(piece), answer);
    }
    assert_eq!(rt; sink.taken(), b"abcd".as_slice());
    assert_eq!(rt; sink.faults(), 1);
    Ok(())
}

#[test]
fn write_all_writes_a_whole_piece_or_leaves_a_front(rt: HostRuntime) -> Result<(), Fail> {
    let mut sink = MemSink::new(rt.alloc());
    write_all(&mut sink, b"hello, ")?;
    write_all(&mut sink, b"")?;
    write_all(&mut sink, b"world")?;
    assert_eq!(rt; sink.taken(), b"hello, world".as_slice());

    let mut small = MemSink::with_limit(rt.alloc(), 10)?;
    write_all(&mut small, b"hello, ")?;
    assert_eq!(rt; write_all(&mut small, b"world"), Err(Failed));
    assert_eq!(rt; small.taken(), b"hello, wor".as_slice());
    assert_eq!(rt; small.faults(), 1);
    Ok(())
}

#[test]
fn memory_dice_give_their_words_and_then_fail(rt: HostRuntime) -> Result<(), Fail> {
    let words = [7, u64::MAX].to_vec(rt.alloc())?;
    let mut dice = MemDice::new(words, [2].to_vec(rt.alloc())?);
    for answer in [Ok(7), Err(Failed), Ok(u64::MAX), Err(Failed)] {
        assert_eq!(rt; dice.draw(), answer);
    }
    assert_eq!(rt; dice.draws(), 4);
    assert_eq!(rt; dice.faults(), 2);
    Ok(())
}

/// A device at which each call fails.
#[derive(Drop)]
struct Broken;

impl io::Read for Broken {
    fn read(&mut self, _buf: &mut [u8]) -> io::Result<usize> {
        Err(io::Error::from(io::ErrorKind::NotFound))
    }
}

impl RandomSource for Broken {
    fn fill_bytes(&self, _buf: &mut [u8]) -> io::Result<()> {
        Err(io::Error::from(io::ErrorKind::NotFound))
    }
}

#[test]
fn a_reader_of_std_is_a_source(rt: HostRuntime) -> Result<(), Fail> {
    let mut source = StdSource::new(b"hello".as_slice());
    assert_eq!(rt;
        read_all(rt.alloc(), &mut source, 9)?.as_slice(),
        b"hello".as_slice()
    );
    let mut broken = StdSource::new(Broken);
    assert_eq!(rt; broken.read(&mut [0; 4]), Err(Failed));
    let mut input = StdSource::new(rt.reader());
    assert!(rt; input.read(&mut [0; 4]).is_ok());
    Ok(())
}

#[test]
fn a_writer_of_std_is_a_sink(rt: HostRuntime) -> Result<(), Fail> {
    let mut room = [0; 5];
    let mut sink = StdSink::new(room.as_mut_slice());
    assert_eq!(rt; write_all(&mut sink, b"hello!"), Err(Failed));
    write_all(&mut StdSink::new(io::writer(&rt)), b"hello\n")?;
    Ok(())
}

#[test]
fn system_dice_draw(rt: HostRuntime) -> Result<(), Fail> {
    let mut dice = SystemDice::new(&rt);
    let first = dice.draw()?;
    assert_ne!(rt; dice.draw()?, first);
    assert_eq!(rt; SystemDice::new(Broken).draw(), Err(Failed));
    Ok(())
}
