use corr_port::{
    MemSink, MemSource, PutEnd, Source, StdSink, StdSource, SureSink, SureSource, put_all,
};
use std::alloc::Global;
use std::io::Cursor;
use std::process::Abort;
use std::test::Fail;

fn bytes(alloc: Global, text: &[u8]) -> Result<Vec<u8>, Fail> {
    Ok(Vec::from_slice(alloc, text)?)
}

// Takes once, into a buffer of four bytes, and compares what came; none says that the take failed.
fn expect_take<S: Source>(rt: &impl Abort, source: &mut S, want: Option<&[u8]>) {
    let mut buf = [0u8; 4];
    match (source.take(&mut buf), want) {
        (Ok(n), Some(text)) => assert_eq!(rt; &buf[..n], text),
        (Err(_), None) => {}
        _ => assert!(rt; false, "the take went another way"),
    }
}

#[test]
fn sources_give_their_bytes_in_steps(rt: HostRuntime) -> Result<(), Fail> {
    let mut fails = Vec::new(rt.alloc());
    fails.push(1u64)?;
    let mut failing = MemSource::new(bytes(rt.alloc(), b"corrupt")?, 3, fails);
    expect_take(&rt, &mut failing, Some(b"cor"));
    expect_take(&rt, &mut failing, None);
    expect_take(&rt, &mut failing, Some(b"rup"));
    expect_take(&rt, &mut failing, Some(b"t"));
    expect_take(&rt, &mut failing, Some(b""));

    let mut sure = SureSource::new(bytes(rt.alloc(), b"corrupt")?, 9);
    expect_take(&rt, &mut sure, Some(b"corr"));
    expect_take(&rt, &mut sure, Some(b"upt"));
    expect_take(&rt, &mut sure, Some(b""));
    Ok(())
}

#[test]
fn sinks_keep_a_front_of_what_failed(rt: HostRuntime) -> Result<(), Fail> {
    let mut fails = Vec::new(rt.alloc());
    fails.push(1u64)?;
    let mut failing = MemSink::new(rt.alloc(), 4, fails);
    assert!(rt; put_all(&mut failing, b"polygon") == Err(PutEnd::Failed));
    assert_eq!(rt; failing.held(), b"poly".as_slice());
    assert!(rt; put_all(&mut failing, b"").is_ok());
    assert!(rt; put_all(&mut failing, b"-gon!").is_ok());
    assert_eq!(rt; failing.held(), b"poly-gon!".as_slice());

    let mut sure = SureSink::new(rt.alloc(), 1);
    assert!(rt; put_all(&mut sure, b"side").is_ok());
    assert_eq!(rt; sure.held(), b"side".as_slice());
    Ok(())
}

#[test]
fn the_edge_reads_and_writes_what_std_does(rt: HostRuntime) -> Result<(), Fail> {
    let mut source = StdSource::new(Cursor::new(b"angles".as_slice()));
    expect_take(&rt, &mut source, Some(b"angl"));
    expect_take(&rt, &mut source, Some(b"es"));
    expect_take(&rt, &mut source, Some(b""));

    let mut sink = StdSink::new(Vec::new(rt.alloc()));
    assert!(rt; put_all(&mut sink, b"corner").is_ok());
    assert_eq!(rt; sink.inner.as_slice(), b"corner".as_slice());

    let mut room = [0u8; 3];
    let mut full = StdSink::new(room.as_mut_slice());
    assert!(rt; put_all(&mut full, b"corner") == Err(PutEnd::Failed));
    Ok(())
}
