//! The numbers of refusals, and what the tool says of each.

use cilk_messages::reasons::{MEANING, has_meaning, line_of, title_of};
use cilk_messages::report::of_all;

#[test]
fn the_list_has_each_number_with_a_meaning(rt: HostRuntime) {
    let mut count = 0usize;
    for number in 0..u16::MAX {
        assert!(rt;
            has_meaning(number) != title_of(number).is_empty(),
            "{number}"
        );
        if has_meaning(number) {
            assert!(rt; !line_of(number, MEANING).is_empty(), "{number}");
            count = count.saturating_add(1);
        }
    }
    let mut lines = 0usize;
    let list = of_all(rt.alloc()).expect(&rt, "memory");
    for _line in list.as_str().lines() {
        lines = lines.saturating_add(1);
    }
    assert_eq!(rt; lines, count);
}
