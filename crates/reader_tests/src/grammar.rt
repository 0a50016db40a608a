use efg_lines::{FileRefusal, LineKind, NodeLine, read_lines};
use std::alloc::AllocError;
use std::process::Abort;
use std::test::Fail;

#[test]
fn a_file_that_goes_on_no_further(rt: HostRuntime) {
    let bytes = b"EFG 2 R \"\" { } p \"\" +1 1 0";
    assert_eq!(rt;
        read_lines(rt.alloc(), bytes).err(),
        Some(FileRefusal::Syntax { at: 20 })
    );
}

/// The numbers of a line: the set's, the outcome's, and how many actions and payoffs are listed.
fn shape_of(line: &NodeLine) -> (&[u8], &[u8], Option<usize>, Option<usize>) {
    let (set, acts) = match &line.kind {
        LineKind::Chance { set, acts } => (set.as_slice(), acts.as_ref()),
        LineKind::Player { set, acts, .. } => (set.as_slice(), acts.as_ref()),
        LineKind::Leaf => (line.outcome.as_slice(), None),
    };
    let listed = line.pays.as_ref().map(|words| words.len());
    (
        set,
        line.outcome.as_slice(),
        acts.map(|acts| acts.len()),
        listed,
    )
}

#[test]
fn lines_of_a_file(rt: HostRuntime) -> Result<(), Fail> {
    let bytes: &[u8] =
        b"EFG 2 R \"Draw\" { \"A\" \"B\" \"C\" } \"\" c \"\" 7 \"\" { \"l\" 1/2 \"r\" .5 } 0 p \"\" 2 03 1 \"\" {1 2,3} t \"\" 9";
    assert!(rt; bytes.len() < 1000);
    let file = read_lines(rt.alloc(), bytes)?;
    assert_eq!(rt; file.players(), 3);
    let expected: [(&[u8], &[u8], Option<usize>, Option<usize>); 3] = [
        (b"7", b"0", Some(2), None),
        (b"03", b"1", None, Some(3)),
        (b"9", b"9", None, None),
    ];
    assert_eq!(rt; file.lines().len(), 3);
    for (line, expected) in file.lines().iter().zip(expected) {
        assert_eq!(rt; shape_of(line), expected);
    }
    Ok(())
}
