// Lines that are refused, and lines that are read.
use crate::prints;

// A script, and what it prints.
const REFUSED: [(&str, &str); 45] = [
    ("raise 0\n", "line 1 refused 10\n"),
    ("chain\n", "line 1 refused 10\n"),
    ("drain\n", "line 1 refused 10\n"),
    ("drop\n", "line 1 refused 10\n"),
    ("new 0\nchain\n", "line 2 refused 10\n"),
    ("new 0\ndrop\ndrop\n", "line 3 refused 10\n"),
    ("new 48\n", "line 1 refused 1\n"),
    ("all 48\n", "line 1 refused 1\n"),
    ("new 0\nraise 48\n", "line 2 refused 1\n"),
    ("new 0\nall 65535\n", "line 2 refused 1\n"),
    ("new 65535\n", "line 1 refused 1\n"),
    ("raise 48\n", "line 1 refused 10\n"),
    ("new 65536\n", "line 1 refused 10\n"),
    ("raise 65536\n", "line 1 refused 10\n"),
    ("all 65536\n", "line 1 refused 10\n"),
    ("new 184467440737095516160\n", "line 1 refused 10\n"),
    ("new 0", "line 1 refused 10\n"),
    ("new 0\nnew 1", "line 2 refused 10\n"),
    ("\n", "line 1 refused 10\n"),
    ("new 0\n\n", "line 2 refused 10\n"),
    ("new 0\r\n", "line 1 refused 10\n"),
    ("new\t0\n", "line 1 refused 10\n"),
    ("new  0\n", "line 1 refused 10\n"),
    ("new 0 \n", "line 1 refused 10\n"),
    (" new 0\n", "line 1 refused 10\n"),
    ("new 00\n", "line 1 refused 10\n"),
    ("new 01\n", "line 1 refused 10\n"),
    ("raise 00\n", "line 1 refused 10\n"),
    ("all 007\n", "line 1 refused 10\n"),
    ("new +1\n", "line 1 refused 10\n"),
    ("new -1\n", "line 1 refused 10\n"),
    ("new 0x1\n", "line 1 refused 10\n"),
    ("new \n", "line 1 refused 10\n"),
    ("new\n", "line 1 refused 10\n"),
    ("chain 1\n", "line 1 refused 10\n"),
    ("drain 0\n", "line 1 refused 10\n"),
    ("drop \n", "line 1 refused 10\n"),
    ("New 0\n", "line 1 refused 10\n"),
    ("news 0\n", "line 1 refused 10\n"),
    ("drops\n", "line 1 refused 10\n"),
    ("chai\n", "line 1 refused 10\n"),
    ("all\n", "line 1 refused 10\n"),
    ("# a comment\n", "line 1 refused 10\n"),
    ("new 0\nnew 1\nnonsense\nnew 48\n", "line 3 refused 10\n"),
    ("new é\n", "line 1 refused 10\n"),
];

#[test]
fn refused_lines(rt: HostRuntime) {
    for (script, wanted) in REFUSED {
        assert!(rt; prints(script.as_bytes(), wanted.as_bytes()), "{script:?}");
    }
}

#[test]
fn bytes_that_are_no_text(rt: HostRuntime) {
    assert!(rt; prints(b"new \xff\n", b"line 1 refused 10\n"));
    assert!(rt; prints(b"\xff\n", b"line 1 refused 10\n"));
    assert!(rt; prints(b"\0", b"line 1 refused 10\n"));
}
