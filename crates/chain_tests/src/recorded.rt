// Recorded cases of the Rust crate: the report of each is built, flattened and rebuilt; nodes, errors in order and frames
// are compared with the recorded ones.
use crate::hosts::table;
use crate::plan::{KEPT, front};
use crate::recorded_cases::CASES;
use crate::tokens::{discard, granted, take};
use chains::iter::iter_chain_errors;
use drive_host::drive::DriveHost;
use host::host::Host;
use nodes::node::Node;
use std::alloc::{AllocError, Global};
use std::process::Abort;
use std::test::Fail;
use store::store::Store;
use store::token::{Basket, Exn};
use table_host::record::Record;

// A line: its first word, and the numbers behind it.
#[derive(Clone, Copy)]
struct Line<'a> {
    head: &'a str,
    words: [Option<u32>; 4],
}

fn read_line(text: &str) -> Line {
    let mut parts = text.split(' ');
    let head = parts.next().unwrap_or("");
    let mut words = [None; 4];
    for word in &mut words {
        *word = parts.next().and_then(|part| part.parse::<u32>().ok());
    }
    Line { head, words }
}

// Reports and baskets by their numbers.
struct Bench {
    store: Store,
    reports: [Option<Exn>; 3],
    baskets: [Option<Basket>; 3],
}

// Takes what has a name.
fn pull<T>(rt: &impl Abort, named: &mut [Option<T>], name: Option<u32>) -> T {
    let found = name.and_then(|n| named.get_mut(n as usize));
    match found.and_then(|place| place.take()) {
        Some(value) => value,
        None => panic!(rt; "no such name"),
    }
}

// Gives a name to a value.
fn put<T>(rt: &impl Abort, named: &mut [Option<T>], name: Option<u32>, value: T) {
    match name.and_then(|n| named.get_mut(n as usize)) {
        Some(place) => match place.replace(value) {
            None => {}
            Some(_) => panic!(rt; "a name is taken"),
        },
        None => panic!(rt; "no such name"),
    }
}

// Ends a name that no report has.
fn end_report(rt: &impl Abort, report: Option<Exn>) {
    match report {
        None => {}
        Some(_) => panic!(rt; "a report is left"),
    }
}

// Ends a name that a basket may have.
fn end_basket(rt: &impl Abort, store: &mut Store, basket: Option<Basket>) {
    if let Some(basket) = basket {
        granted(rt, basket.discard(store));
    }
}

fn number(rt: &impl Abort, word: Option<u32>) -> u32 {
    granted(rt, word.ok_or("no number"))
}

fn error(rt: &impl Abort, word: Option<u32>) -> u16 {
    granted(rt, u16::try_from(number(rt, word)))
}

impl Bench {
    fn new() -> Bench {
        Bench {
            store: Store::new(1),
            reports: [None, None, None],
            baskets: [None, None, None],
        }
    }

    // The calls that make a new root.
    fn make<H: Host>(&mut self, rt: &impl Abort, host: &H, line: Line) {
        let [name, from, error_word, place_word] = line.words;
        let store = &mut self.store;
        let report = match line.head.as_bytes() {
            b"new" => {
                let (error, place) = (error(rt, from), number(rt, error_word));
                granted(rt, Exn::new(store, host, error, place))
            }
            b"raise" => {
                let (error, place) = (error(rt, from), number(rt, error_word));
                let report = pull(rt, &mut self.reports, name);
                granted(rt, report.raise(store, host, error, place))
            }
            _ => {
                let (error, place) = (error(rt, error_word), number(rt, place_word));
                let basket = pull(rt, &mut self.baskets, from);
                granted(rt, Exn::raise_all(store, host, basket, error, place))
            }
        };
        put(rt, &mut self.reports, name, report);
    }

    // The calls on a report whose root stays.
    fn change(&mut self, rt: &impl Abort, line: Line) {
        let [name, other, ..] = line.words;
        let store = &mut self.store;
        let report = pull(rt, &mut self.reports, name);
        match line.head.as_bytes() {
            b"chain" => {
                let child = pull(rt, &mut self.reports, other);
                granted(rt, report.chain(store, child));
            }
            b"chain_all" => {
                let basket = pull(rt, &mut self.baskets, other);
                granted(rt, report.chain_all(store, basket));
            }
            _ => {
                let basket = granted(rt, report.drain_children(store));
                put(rt, &mut self.baskets, other, basket);
            }
        }
        put(rt, &mut self.reports, name, report);
    }

    // The calls on a basket that stays.
    fn queue(&mut self, rt: &impl Abort, line: Line) {
        let [name, other, ..] = line.words;
        let store = &mut self.store;
        let mut basket = pull(rt, &mut self.baskets, name);
        match line.head.as_bytes() {
            b"collect" => {
                let report = pull(rt, &mut self.reports, other);
                granted(rt, basket.collect(store, report));
            }
            _ => {
                let report = take(rt, store, &mut basket);
                put(rt, &mut self.reports, other, report);
            }
        }
        put(rt, &mut self.baskets, name, basket);
    }

    fn call<H: Host>(&mut self, rt: &impl Abort, host: &H, line: Line) {
        let name = line.words[0];
        match line.head.as_bytes() {
            b"new" | b"raise" | b"raise_all" => self.make(rt, host, line),
            b"chain" | b"chain_all" | b"drain_children" => self.change(rt, line),
            b"collect" | b"take" => self.queue(rt, line),
            b"basket" => {
                let basket = self.store.basket();
                put(rt, &mut self.baskets, name, basket);
            }
            b"drop" => {
                let report = pull(rt, &mut self.reports, name);
                discard(rt, &mut self.store, report);
            }
            b"empty" => {
                let basket = pull(rt, &mut self.baskets, name);
                granted(rt, basket.discard(&mut self.store));
            }
            _ => panic!(rt; "unknown call {}", line.head),
        }
    }

    // Ends without a report, and discards the baskets.
    fn end(self, rt: &impl Abort) {
        let Bench {
            mut store,
            reports: [r0, r1, r2],
            baskets: [b0, b1, b2],
        } = self;
        end_report(rt, r0);
        end_report(rt, r1);
        end_report(rt, r2);
        end_basket(rt, &mut store, b0);
        end_basket(rt, &mut store, b1);
        end_basket(rt, &mut store, b2);
    }
}

// A number of a line.
fn word(n: usize) -> Option<u32> {
    u32::try_from(n).ok()
}

// The lines of the nodes of a flattening.
fn add_nodes(lines: &mut Vec<Line<'static>>, list: &[Node]) -> Result<(), AllocError> {
    for (i, node) in list.iter().enumerate() {
        let error = Some(u32::from(node.error.number()));
        let parent = node.parent.and_then(word);
        let words = [word(i), error, Some(node.place), parent];
        let head = if node.native { "native" } else { "explicit" };
        lines.push(Line { head, words })?;
    }
    Ok(())
}

// The lines of its errors that are no markers.
fn add_errors(lines: &mut Vec<Line<'static>>, shown: &[Node]) -> Result<(), AllocError> {
    for (k, node) in shown.iter().enumerate() {
        let error = Some(u32::from(node.error.number()));
        let words = [word(k), error, None, None];
        lines.push(Line {
            head: "shown",
            words,
        })?;
    }
    Ok(())
}

// The lines of the frames of its tree.
fn add_frames(
    heap: Global,
    lines: &mut Vec<Line<'static>>,
    list: &[Node],
) -> Result<(), AllocError> {
    let mut frames: Vec<usize> = Vec::new(heap);
    for (i, node) in list.iter().enumerate() {
        if !node.native {
            let error = Some(u32::from(node.error.number()));
            let above = node
                .parent
                .and_then(|parent| frames.iter().position(|frame| *frame == parent))
                .and_then(word);
            let words = [word(frames.len()), error, Some(node.place), above];
            lines.push(Line {
                head: "frame",
                words,
            })?;
            frames.push(i)?;
        }
    }
    Ok(())
}

// Whether lines are the recorded ones.
fn same_lines(rt: &impl Abort, made: &[Line], recorded: &[Line]) {
    assert_eq!(rt; made.len(), recorded.len());
    for (one, other) in made.iter().zip(recorded) {
        assert_eq!(rt; one.head, other.head);
        assert_eq!(rt; one.words, other.words);
    }
}

// Makes the calls of a case, and compares what they come to with the answers.
fn compare<H: Host>(
    rt: &impl Abort,
    heap: Global,
    host: &H,
    calls: &[Line],
    answers: &[Line],
) -> Result<(), Fail> {
    let mut bench = Bench::new();
    for line in calls {
        bench.call(rt, host, *line);
    }
    let subject = answers.first().and_then(|line| line.words[0]);
    let mut list = [KEPT; 32];
    let report = pull(rt, &mut bench.reports, subject);
    let store = &mut bench.store;
    let chain = granted(rt, report.into_chain(store, host, &mut list));
    let mut lines = Vec::new(heap);
    granted(rt, add_nodes(&mut lines, chain.front(&list)));
    let mut errors = [KEPT; 32];
    let shown = granted(rt, iter_chain_errors(&chain, host, &list, &mut errors));
    granted(rt, add_errors(&mut lines, front(&errors, shown)));

    let report = granted(rt, chain.into_exn(store, host, &list));
    let mut again = [KEPT; 32];
    let chain = granted(rt, report.into_chain(store, host, &mut again));
    bench.end(rt);
    assert!(rt; again == list);
    add_frames(heap, &mut lines, chain.front(&again))?;
    same_lines(rt, lines.as_slice(), answers.get(1..).unwrap_or(&[]));
    Ok(())
}

// The record of a line.
fn record(line: &Line) -> Record {
    let [kind, detail, source, _] = line.words;
    let byte = |word: Option<u32>| word.and_then(|n| u8::try_from(n).ok()).unwrap_or(255);
    Record {
        kind: byte(kind),
        detail: byte(detail),
        source: source.and_then(|n| u16::try_from(n).ok()),
        start: 0,
        len: 0,
    }
}

// A case: the records of its table, or none for the drive; its calls, and what they come to.
#[derive(Drop)]
struct Case<'a> {
    records: Vec<Record>,
    calls: Vec<Line<'a>>,
    answers: Vec<Line<'a>>,
}

fn case_of(heap: Global, block: &str) -> Result<Case, AllocError> {
    let mut records = Vec::new(heap);
    let mut calls = Vec::new(heap);
    let mut answers = Vec::new(heap);
    for text in block.lines().skip(2) {
        let line = read_line(text);
        match line.head.as_bytes() {
            b"error" => records.push(record(&line))?,
            b"of" | b"explicit" | b"native" | b"shown" | b"frame" => answers.push(line)?,
            _ => calls.push(line)?,
        }
    }
    Ok(Case {
        records,
        calls,
        answers,
    })
}

#[test]
fn recorded_cases(rt: HostRuntime) -> Result<(), Fail> {
    let heap = rt.alloc();
    let mut count = 0usize;
    for block in CASES.split("case ").skip(1) {
        let Case {
            records,
            calls,
            answers,
        } = case_of(heap, block)?;
        let (calls, answers) = (calls.as_slice(), answers.as_slice());
        if records.as_slice().is_empty() {
            compare(&rt, heap, &DriveHost, calls, answers)?;
        } else {
            let host = table(heap, records)?;
            compare(&rt, heap, &host, calls, answers)?;
        }
        count = count.wrapping_add(1);
    }
    assert_eq!(rt; count, 55);
    Ok(())
}
