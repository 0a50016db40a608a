use number_words::{common_denominator, has_negative, number_value, sums_to_one, whole_value};
use std::alloc::AllocError;

#[test]
fn values_of_words(rt: HostRuntime) {
    let half = number_value(b"-3/6").map(|it| (it.is_negative(), it.num(), it.den()));
    assert_eq!(rt; half, Some((true, 1, 2)));
    assert!(rt; number_value(b"1099511627777").is_none());
    assert_eq!(rt; whole_value(b"007"), Some(7));
    assert_eq!(rt; whole_value(b"2147483648"), None);
}

#[test]
fn probabilities_that_sum_to_one(rt: HostRuntime) -> Result<(), AllocError> {
    let mut probs = Vec::new(rt.alloc());
    for word in [b"1/2", b"1/3", b"1/6"] {
        if let Some(prob) = number_value(word) {
            probs.push(prob)?;
        }
    }
    assert!(rt; !has_negative(probs.as_slice()));
    let Some(common) = common_denominator(probs.as_slice()) else {
        assert!(rt; false, "they have a common denominator");
        return Ok(());
    };
    assert!(rt; sums_to_one(probs.as_slice(), common));
    Ok(())
}
