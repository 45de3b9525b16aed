//! The number of files that are read. A text is judged before the next one is read, and words that
//! are no command read nothing.

use cilk_served::served::{Broken, shown};

const SOUND: &str = "int main(){return input_count();}";

const BAD: &str = "int main(){return x;}";

// A program, the words, the number of files that are read, and the beginning of standard error.
type Row = (&'static str, &'static [&'static str], u64, &'static str);

// The input is no list of numbers, and the other files are empty.
const ROWS: [Row; 10] = [
    (
        BAD,
        &["run", "program", "--input", "input"],
        1,
        "program 111 at 18\n",
    ),
    (
        SOUND,
        &["run", "program", "--input", "input"],
        2,
        "input 121 at 2\n",
    ),
    (
        BAD,
        &["settle", "program", "--input", "input"],
        1,
        "program 111 at 18\n",
    ),
    (
        BAD,
        &["certify", "program", "--input", "input"],
        1,
        "program 111 at 18\n",
    ),
    (
        BAD,
        &["check", "program", "certificate"],
        1,
        "program 111 at 18\n",
    ),
    (
        SOUND,
        &["check", "program", "certificate", "--input", "input"],
        2,
        "input 121 at 2\n",
    ),
    (
        BAD,
        &["play", "program", "script"],
        1,
        "program 111 at 18\n",
    ),
    (
        SOUND,
        &["play", "program", "script", "--input", "input"],
        2,
        "input 121 at 2\n",
    ),
    (
        SOUND,
        &["play", "program", "script", "--workers", "65"],
        0,
        "",
    ),
    (SOUND, &["run", "program", "program"], 0, ""),
];

#[test]
fn texts_are_judged_before_the_next_is_read(rt: HostRuntime) {
    for (program, words, reads, told) in ROWS {
        let ended = shown(rt.alloc(), words, program.as_bytes(), b"4 x", &mut Broken);
        assert!(rt;
            ended.status == 2
                && ended.reads == reads
                && ended.out.is_empty()
                && !ended.err.is_empty()
                && ended.err.as_slice().starts_with(told.as_bytes()),
            "{words:?}"
        );
    }
}
