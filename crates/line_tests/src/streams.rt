use outside_io::{
    Failed, Gate, MemSink, MemSource, NoShelf, OpenGate, Point, Shelf, Sink, Source, StdSink,
    StdSource, SureSource, write_all,
};
use std::io;
use std::io::{ErrorKind, Read, Write};
use std::process::Abort;
use std::test::Fail;

/// Takes with a buffer of two bytes. `None` is a fault.
fn expect_takes<S: Source>(rt: &impl Abort, source: &mut S, wanted: &[Option<&[u8]>]) {
    for want in wanted {
        let mut buf = [0u8; 2];
        match source.take(&mut buf) {
            Ok(count) => assert_eq!(rt; Some(&buf[..count]), *want),
            Err(Failed) => assert_eq!(rt; None, *want),
        }
    }
}

/// Puts piece after piece. `None` is a fault.
fn expect_puts<K: Sink>(rt: &impl Abort, sink: &mut K, pieces: &[(&[u8], Option<usize>)]) {
    for (piece, want) in pieces {
        assert!(rt; !piece.is_empty());
        assert_eq!(rt; sink.put(*piece).ok(), *want);
    }
}

/// A reader and a writer whose every second call fails, the first one too. As a writer it takes
/// nothing at its fourth call.
#[derive(Drop)]
struct Stammering<T> {
    inner: T,
    calls: u8,
}

impl<T> Stammering<T> {
    fn fails(&mut self) -> bool {
        self.calls = self.calls.saturating_add(1);
        self.calls % 2 == 1
    }
}

impl<R: Read> Read for Stammering<R> {
    fn read(&mut self, buf: &mut [u8]) -> io::Result<usize> {
        if self.fails() {
            return Err(io::Error::from(ErrorKind::Interrupted));
        }
        self.inner.read(buf)
    }
}

impl<W: Write> Write for Stammering<W> {
    fn write(&mut self, buf: &[u8]) -> io::Result<usize> {
        if self.fails() {
            return Err(io::Error::from(ErrorKind::Interrupted));
        }
        if self.calls == 4 {
            return Ok(0);
        }
        self.inner.write(buf)
    }

    fn flush(&mut self) -> io::Result<()> {
        self.inner.flush()
    }
}

/// A sink in memory that takes one byte a call.
#[derive(Drop)]
struct OneByte(MemSink);

impl Sink for OneByte {
    ghost use Rattle.std.specs.Prelude.{Some};

    ghost written = { λ s. Some s.0.written };

    ghost faults = { λ s. s.0.calls.faults };

    fn put(&mut self, piece: &[u8]) -> Result<usize, Failed> {
        self.0.put(&piece[..1])
    }
}

#[test]
fn sources_give_their_bytes_and_fail_where_told(rt: HostRuntime) -> Result<(), Fail> {
    let alloc = rt.alloc();
    let mut source = MemSource::new(b"abcde".to_vec(alloc)?, [1, 3].to_vec(alloc)?);
    expect_takes(
        &rt,
        &mut source,
        &[Some(b"ab"), None, Some(b"cd"), None, Some(b"e"), Some(b"")],
    );
    let mut source = SureSource::new(b"abc".to_vec(alloc)?);
    expect_takes(&rt, &mut source, &[Some(b"ab"), Some(b"c"), Some(b"")]);
    let text: &[u8] = b"abc";
    let mut source = StdSource::new(text);
    expect_takes(&rt, &mut source, &[Some(b"ab"), Some(b"c"), Some(b"")]);
    let mut source = StdSource::new(Stammering {
        inner: text,
        calls: 0,
    });
    expect_takes(
        &rt,
        &mut source,
        &[None, Some(b"ab"), None, Some(b"c"), None],
    );
    Ok(())
}

#[test]
fn sinks_take_what_they_have_room_for_and_fail_where_told(rt: HostRuntime) -> Result<(), Fail> {
    let alloc = rt.alloc();
    let mut sink = MemSink::new(alloc, 5, [1].to_vec(alloc)?)?;
    expect_puts(
        &rt,
        &mut sink,
        &[
            (b"abc", Some(3)),
            (b"d", None),
            (b"def", Some(2)),
            (b"f", None),
        ],
    );
    assert_eq!(rt; sink.bytes(), b"abcde".as_slice());

    let mut bytes = Vec::new(alloc);
    let mut sink = StdSink::new(Stammering {
        inner: &mut bytes,
        calls: 0,
    });
    expect_puts(
        &rt,
        &mut sink,
        &[(b"ab", None), (b"ab", Some(2)), (b"c", None), (b"c", None)],
    );
    assert_eq!(rt; bytes.as_slice(), b"ab".as_slice());
    Ok(())
}

#[test]
fn all_bytes_are_written_one_a_call_or_a_front_of_them(rt: HostRuntime) -> Result<(), Fail> {
    let alloc = rt.alloc();
    for failing in 0..=5u8 {
        let mut sink = OneByte(MemSink::new(alloc, 5, [u64::from(failing)].to_vec(alloc)?)?);
        let result = write_all(&mut sink, b"hello");
        assert_eq!(rt; result.is_ok(), failing == 5);
        assert_eq!(rt; sink.0.bytes(), &b"hello"[..usize::from(failing)]);
    }
    Ok(())
}

fn expect_send<T: Send>(_value: &T) {}

#[test]
fn the_shelf_without_a_folder_has_no_file(rt: HostRuntime) -> Result<(), Fail> {
    let mut shelf = NoShelf;
    expect_send(&shelf);
    assert_eq!(rt; shelf.place("folder"), Ok(()));
    assert_eq!(rt; shelf.put("name", b"bytes"), Ok(()));
    assert_eq!(rt; shelf.get(rt.alloc(), "name"), Ok(None));
    OpenGate.pass(Point::AfterQuery { client: 1 });
    Ok(())
}
