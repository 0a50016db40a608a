use corr_game::Pay;
use one_node_file::first_form;

#[test]
fn a_file_of_one_node(rt: HostRuntime) {
    let pay = Pay { one: 0, two: 7 };
    assert_eq!(rt;
        first_form(b"EFG 2 R\"\"{\"\"\"\"}t\"\"9{-0 007}"),
        Some(pay)
    );
    assert_eq!(rt;
        first_form(b"EFG 2 R \"\" { \"\" \"\" } t \"\" 000 { 3 4 }"),
        None
    );
}
