// Runs that end by a fault of a stream, and the numbers with which runs end.
use corr_port::{MemSink, MemSource, SureSink, SureSource};
use corr_run::{Status, run};
use std::alloc::Global;
use std::test::Fail;

const ONE: &[u8] = b"EFG 2 R \"One\" { \"A\" \"B\" }\n\"\"\nt \"\" 1 \"\" { 3, 4 }\n";

fn words_of(alloc: Global, texts: &[&str]) -> Result<Vec<String>, Fail> {
    let mut words = Vec::new(alloc);
    for text in texts {
        words.push(String::from_str(alloc, text)?)?;
    }
    Ok(words)
}

#[test]
fn a_fault_leaves_a_front_of_the_text(rt: HostRuntime) -> Result<(), Fail> {
    let alloc = rt.alloc();
    let words = words_of(alloc, &["solve"])?;
    let mut source = SureSource::new(Vec::from_slice(alloc, ONE)?, 7);
    let mut failing = MemSink::new(alloc, 16, vec![in alloc; 1u64]?);
    assert_eq!(rt;
        run(alloc, &words, &mut source, &mut failing),
        Status::WriteFault
    );
    assert_eq!(rt; failing.held(), b"corr-report 1\nsc".as_slice());

    let mut unread = MemSource::new(Vec::from_slice(alloc, ONE)?, 7, vec![in alloc; 0u64]?);
    let mut sink = SureSink::new(alloc, 16);
    assert_eq!(rt;
        run(alloc, &words, &mut unread, &mut sink),
        Status::ReadFault
    );
    assert_eq!(rt; sink.held().len(), 0);
    Ok(())
}

#[test]
fn statuses_have_their_exit_numbers(rt: HostRuntime) {
    let all = [
        Status::Solved,
        Status::Written,
        Status::Yes,
        Status::No,
        Status::Refused,
        Status::TooWide,
        Status::Usage,
        Status::NoMemory,
        Status::ReadFault,
        Status::WriteFault,
    ];
    let numbers = [0u8, 0, 0, 1, 2, 3, 64, 70, 72, 74];
    for (status, number) in all.iter().zip(numbers) {
        assert_eq!(rt; status.code(), number);
    }
}
