use std::test::Fail;
use text_pieces::{add_bytes, add_number};

#[test]
fn pieces_stand_one_behind_the_other(rt: HostRuntime) -> Result<(), Fail> {
    let mut out = Vec::new(rt.alloc());
    add_bytes(&mut out, b"n ")?;
    add_number(&mut out, &7u32)?;
    add_bytes(&mut out, b" ")?;
    add_number(&mut out, &-170141183460469231731687303715884105728i128)?;
    add_bytes(&mut out, b"")?;
    add_number(&mut out, &0i64)?;
    let want = b"n 7 -1701411834604692317316873037158841057280";
    assert_eq!(rt; out.as_slice(), want.as_slice());
    Ok(())
}
