// What each kind of line makes of the reports.
use crate::prints;

// A script, and what it prints.
const PRINTED: [(&str, &str); 13] = [
    (
        "new 6\nnew 1\nall 19\n",
        "drive 3\n\nCaused by:\n    ├─0: gauge 3\n    ├─1: gauge 6\n    └─2: gauge 1\nclass 5 cause 19 retry yes lenient yes\n",
    ),
    ("all 3\n", "gauge 3\nclass 5 cause 3 retry no lenient no\n"),
    (
        "all 3\nall 20\n",
        "drive 4\n\nCaused by:\n    ├─0: gauge 4\n    └─1: gauge 3\nclass 3 cause 20 retry no lenient yes\n",
    ),
    (
        "new 0\nnew 1\nraise 17\n",
        "gauge 1\nclass 9 cause 1 retry no lenient no\ndrive 1\n\nCaused by:\n    ├─0: gauge 1\n    └─1: gauge 0\nclass 9 cause 17 retry no lenient no\n",
    ),
    (
        "new 0\nnew 1\nnew 2\nchain\n",
        "gauge 2\nclass 7 cause 2 retry no lenient no\ngauge 0\n\nCaused by:\n    0: gauge 1\nclass 9 cause 1 retry no lenient no\n",
    ),
    (
        "new 0\nnew 1\nnew 2\nall 33\nnew 5\ndrain\n",
        "gauge 5\nclass none cause 5 retry yes lenient yes\ngauge 0\nclass none cause 0 retry no lenient no\ngauge 1\nclass 9 cause 1 retry no lenient no\ngauge 2\nclass 7 cause 2 retry no lenient no\ngate 1\n\nCaused by:\n    0: drive 1\n    1: gauge 1\nclass 9 cause 1 retry no lenient no\n",
    ),
    (
        "new 3\ndrain\n",
        "gauge 3\nclass 5 cause 3 retry no lenient no\n",
    ),
    (
        "new 3\nnew 4\ndrop\n",
        "gauge 4\nclass 3 cause 4 retry no lenient yes\n",
    ),
    ("new 3\ndrop\n", ""),
    (
        "new 2\nraise 18\nraise 34\n",
        "gate 2\n\nCaused by:\n    ├─0: drive 2\n    │ └─ gauge 2\n    └─1: drive 2\n      ├─0: gauge 2\n      └─1: gauge 2\nclass 7 cause 34 retry no lenient no\n",
    ),
    (
        "new 47\n",
        "gate 15\n\nCaused by:\n    0: drive 15\n    1: gauge 15\nclass none cause 15 retry no lenient no\n",
    ),
    (
        "new 16\nnew 17\nchain\nnew 18\nnew 32\nchain\nraise 40\n",
        "drive 0\n\nCaused by:\n    ├─0: gauge 0\n    ├─1: drive 1\n    │ └─ gauge 1\n    └─2: drive 2\n      └─ gauge 2\nclass 7 cause 16 retry no lenient no\ngate 8\n\nCaused by:\n    ├─0: drive 8\n    │ └─ gauge 8\n    └─1: gate 0\n      ├─0: drive 0\n      └─1: gauge 0\nclass none cause 40 retry no lenient yes\n",
    ),
    (
        "new 12\nnew 13\nnew 14\nnew 15\nall 31\nnew 40\nchain\ndrain\nchain\n",
        "gauge 14\nclass none cause 14 retry no lenient no\ngauge 15\nclass none cause 15 retry no lenient no\ngate 8\n\nCaused by:\n    0: drive 8\n    1: gauge 8\nclass none cause 8 retry no lenient yes\ndrive 15\n\nCaused by:\n    0: gauge 15\nclass none cause 15 retry no lenient no\ngauge 12\n\nCaused by:\n    0: gauge 13\nclass none cause 13 retry no lenient yes\n",
    ),
];

#[test]
fn printed_reports(rt: HostRuntime) {
    for (script, wanted) in PRINTED {
        assert!(rt; prints(script.as_bytes(), wanted.as_bytes()), "{script:?}");
    }
}

#[test]
fn an_empty_script(rt: HostRuntime) {
    assert!(rt; prints(b"", b""));
}
