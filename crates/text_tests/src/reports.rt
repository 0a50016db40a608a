use report_reader::{ReportRefusal, read_report};
use report_text::write_report;
use std::test::Fail;

#[test]
fn reports_come_back_as_they_were(rt: HostRuntime) -> Result<(), Fail> {
    let point: &[u8] =
        b"corr-report 1\nscale 1 1\nnotion efce found\ncorners 1\ncorner 0 3 4 total 1 pairs 1\nweight 1\none\ntwo\nsides 4\nside 1 0 corner 0 den 1\nfirst 3\nsecond 4\nside 0 1 corner 0 den 1\nfirst 3\nsecond 4\nside -1 0 corner 0 den 1\nfirst 3\nsecond 4\nside 0 -1 corner 0 den 1\nfirst 3\nsecond 4\nnotion efcce found\ncorners 1\ncorner 0 3 4 total 1 pairs 1\nweight 1\none\ntwo\nsides 4\nside 1 0 corner 0 den 1\nfirst 3\nsecond 4\nside 0 1 corner 0 den 1\nfirst 3\nsecond 4\nside -1 0 corner 0 den 1\nfirst 3\nsecond 4\nside 0 -1 corner 0 den 1\nfirst 3\nsecond 4\nnotion nfcce found\ncorners 1\ncorner 0 3 4 total 1 pairs 1\nweight 1\none\ntwo\nsides 4\nside 1 0 corner 0 den 1\nfirst 3 0 0\nsecond 4 0 0\nside 0 1 corner 0 den 1\nfirst 3 0 0\nsecond 4 0 0\nside -1 0 corner 0 den 1\nfirst 3 0 0\nsecond 4 0 0\nside 0 -1 corner 0 den 1\nfirst 3 0 0\nsecond 4 0 0\nend\n";
    let mixed: &[u8] =
        b"corr-report 1\nscale 2 16777216\nnotion efce empty\nmultipliers 1 -4611686018427387903\nnotion efcce toowide\nbasis 0 7 4294967295\nat phase 12\nnotion nfcce found\ncorners 2\ncorner 0 -3/4 5 total 3 pairs 2\nweight 1\none - 64\ntwo 1\nweight 2\none 2 -\ntwo -\ncorner 1 0 5/85070591730234615865843651857942052863 total 1 pairs 1\nweight 1\none\ntwo\nsides 1\nside 3 -2 corner 1 den 9\nfirst\nsecond 5\nend\n";
    for text in [point, mixed] {
        let mut bytes = Vec::new(rt.alloc());
        bytes.extend_from_slice(text)?;
        bytes.extend_from_slice(b"rest")?;
        match read_report(rt.alloc(), bytes.as_slice()) {
            Ok((report, length)) => {
                assert_eq!(rt; length, text.len());
                assert_eq!(rt; write_report(rt.alloc(), &report)?.as_slice(), text);
            }
            Err(_) => assert!(rt; false),
        }
    }
    Ok(())
}

#[test]
fn the_first_piece_with_which_no_report_goes_on(rt: HostRuntime) {
    let rows: [(&[u8], usize); 17] = [
        (b"", 0),
        (b"corr-rep", 0),
        (b"corr-report 2\n", 12),
        (b"corr-report 1\nscale 1 1\nend\n", 24),
        (b"corr-report 1\nscale 0 1\n", 20),
        (b"corr-report 1\nscale 01 1\n", 20),
        (
            b"corr-report 1\nscale 1 1\nnotion nfcce empty\nmultipliers -0\n",
            55,
        ),
        (
            b"corr-report 1\nscale 1 1\nnotion nfcce empty\nmultipliers +3\n",
            55,
        ),
        (
            b"corr-report 1\nscale 1 1\nnotion nfcce empty\nmultipliers 3\nnotion efce",
            57,
        ),
        (
            b"corr-report 1\nscale 1 1\nnotion efcce empty\nmultipliers\nnotion efce",
            62,
        ),
        (
            b"corr-report 1\nscale 1 1\nnotion efce found\ncorners 18446744073709551615\n",
            71,
        ),
        (
            b"corr-report 1\nscale 1 1\nnotion efce found\ncorners 18446744073709551616\n",
            50,
        ),
        (
            b"corr-report 1\nscale 1 1\nnotion efce found\ncorners 1\ncorner 0 2/4",
            61,
        ),
        (
            b"corr-report 1\nscale 1 1\nnotion efce found\ncorners 1\ncorner 1 ",
            59,
        ),
        (
            b"corr-report 1\nscale 1 1\nnotion efce toowide\nbasis 4294967295 ",
            60,
        ),
        (
            b"corr-report 1\nscale 1 1\nnotion efce toowide\nbasis 3 3",
            52,
        ),
        (
            b"corr-report 1\nscale 1 1\nnotion efce empty\nmultipliers \n",
            54,
        ),
    ];
    for (text, place) in rows {
        match read_report(rt.alloc(), text) {
            Err(ReportRefusal::Syntax { at }) => assert_eq!(rt; at, place),
            _ => assert!(rt; false, "a refusal is missing"),
        }
    }
}
