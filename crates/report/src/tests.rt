// What no program calls.
use crate::size::named;
use rom::{LARGE_LENGTH, LARGE_SIZE, SMALL_LENGTH, SMALL_SIZE};

#[test]
fn a_size_is_named_that_was_given_or_is_not_the_smaller(rt: HostRuntime) {
    let cases = [
        (None, SMALL_LENGTH, None),
        (None, LARGE_LENGTH, Some(LARGE_SIZE)),
        (None, 300, None),
        (Some(SMALL_SIZE), LARGE_LENGTH, Some(SMALL_SIZE)),
        (Some(LARGE_SIZE), SMALL_LENGTH, Some(LARGE_SIZE)),
        (Some(300), SMALL_LENGTH, Some(300)),
    ];
    for (said, length, size) in cases {
        assert_eq!(rt; named(said, length), size, "a file of {length} bytes");
    }
}
