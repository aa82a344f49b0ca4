// The calls of a store beside a plain model of the ledger: each report has the tree that it must have, each basket the row
// of trees. What a call must answer is told from the model alone.
ghost use Rattle.std.specs.Prelude.{◌<◌};

use crate::tree::Tree;
use drive_host::drive::DriveHost;
use nodes::node::{BLANK, Node};
use std::alloc::Global;
use std::mem;
use std::process::Abort;
use store::chain::ChainedError;
use store::store::Store;
use store::token::{Basket, Exn, Refusal};
use vocabulary::fault::{HostFault, StoreFault};

// The calls whose answers are compared.
#[derive(Clone, Copy, Debug)]
enum Call {
    New,
    Raise,
    RaiseAll,
    Chain,
    ChainAll,
    Collect,
    Take,
    Drain,
    Discard,
    DiscardAll,
    IntoChain,
    IntoExn,
}

// A report of the store `home`, and its tree.
struct Report {
    home: usize,
    exn: Exn,
    tree: Tree,
}

// A basket of the store `home`, and its trees.
struct Row {
    home: usize,
    basket: Basket,
    trees: Vec<Tree>,
}

// Numbers as if at random, the same in each run.
#[derive(Drop)]
struct Random {
    seed: u32,
}

impl Random {
    fn below(&mut self, bound: usize) -> usize
        requires { 0 < bound }
        ensures { result < bound }
    {
        self.seed = self.seed.wrapping_mul(1664525).wrapping_add(1013904223);
        (self.seed >> 8) as usize % bound
    }

    // The store that a handle of `home` is given to: mostly its own.
    fn store_for(&mut self, home: usize) -> usize {
        if self.below(8) == 0 {
            1usize.wrapping_sub(home)
        } else {
            home
        }
    }

    // An error, mostly live, and a place.
    fn frame(&mut self) -> (u16, u32) {
        let error = self.below(50) as u16;
        (error, self.seed)
    }
}

// Why a call on handles is turned down.
fn held_fault(held: bool) -> Option<StoreFault> {
    (!held).then_some(StoreFault::NotHeld)
}

// Why a call that needs a new frame is.
fn frame_fault(held: bool, error: u16, free: usize) -> Option<StoreFault> {
    if !held {
        Some(StoreFault::NotHeld)
    } else if error >= 48 {
        Some(StoreFault::Host(HostFault::NotLive(error)))
    } else if free == 0 {
        Some(StoreFault::NoFrames(1))
    } else {
        None
    }
}

fn frames_of(trees: &[Tree]) -> usize {
    let mut frames = 0usize;
    for tree in trees {
        frames = frames.wrapping_add(tree.frames());
    }
    frames
}

// Two stores with reports and baskets.
pub struct Model {
    alloc: Global,
    stores: [Store; 2],
    reports: Vec<Report>,
    rows: Vec<Row>,
    random: Random,
    // the answers that each call gave, a bit for the number of each refusal and the lowest for a granted one
    answers: [u8; 12],
}

// The answers that there are, in the order of `Call`: 1 for granted, 2, 4, 8 and 16 for the refusals 1 to 4.
const ALL_ANSWERS: [u8; 12] = [7, 15, 15, 9, 9, 9, 9, 9, 9, 9, 25, 5];

impl Model {
    pub fn new(alloc: Global) -> Model {
        Model {
            alloc,
            stores: [Store::new(1), Store::new(2)],
            reports: Vec::new(alloc),
            rows: Vec::new(alloc),
            random: Random { seed: 7 },
            answers: [0; 12],
        }
    }

    // The frames that are free in a store.
    fn free(&self, at: usize) -> usize {
        let mut used = 0usize;
        for report in &self.reports {
            if report.home == at {
                used = used.wrapping_add(report.tree.frames());
            }
        }
        for row in &self.rows {
            if row.home == at {
                used = used.wrapping_add(frames_of(&row.trees));
            }
        }
        1024usize.wrapping_sub(used)
    }

    // Compares what a call answered, none or a fault, with what it must answer.
    fn answered(
        &mut self,
        rt: &impl Abort,
        call: Call,
        got: Option<StoreFault>,
        want: Option<StoreFault>,
    ) {
        assert_eq!(rt; got, want, "{call:?}");
        let bit = match got {
            None => 1,
            Some(StoreFault::Host(_)) => 2,
            Some(StoreFault::NoFrames(_)) => 4,
            Some(StoreFault::NotHeld) => 8,
            Some(StoreFault::ListTooShort(_)) => 16,
            Some(StoreFault::NotFlattening(_)) => 32,
        };
        if let Some(answers) = self.answers.get_mut(call as usize) {
            *answers |= bit;
        }
    }

    fn keep(&mut self, rt: &impl Abort, home: usize, exn: Exn, tree: Tree) {
        match self.reports.push(Report { home, exn, tree }) {
            Ok(()) => {}
            Err(_failed) => rt.abort(),
        }
    }

    fn keep_row(&mut self, rt: &impl Abort, home: usize, basket: Basket, trees: Vec<Tree>) {
        match self.rows.push(Row {
            home,
            basket,
            trees,
        }) {
            Ok(()) => {}
            Err(_failed) => rt.abort(),
        }
    }

    fn pick(&mut self) -> Option<Report> {
        if self.reports.is_empty() {
            return None;
        }
        let i = self.random.below(self.reports.len());
        Some(self.reports.swap_remove(i))
    }

    fn pick_row(&mut self) -> Option<Row> {
        if self.rows.is_empty() {
            return None;
        }
        let i = self.random.below(self.rows.len());
        Some(self.rows.swap_remove(i))
    }

    fn begin(&mut self, rt: &impl Abort) {
        let at = self.random.store_for(0);
        let (error, place) = self.random.frame();
        let want = frame_fault(true, error, self.free(at));
        match Exn::new(&mut self.stores[at % 2], &DriveHost, error, place) {
            Ok(exn) => {
                self.answered(rt, Call::New, None, want);
                let tree = Tree::new(error, place, Vec::new(self.alloc));
                self.keep(rt, at, exn, tree);
            }
            Err(fault) => self.answered(rt, Call::New, Some(fault), want),
        }
    }

    fn raise(&mut self, rt: &impl Abort, free: [usize; 2]) {
        let Some(Report { home, exn, tree }) = self.pick() else {
            return;
        };
        let at = self.random.store_for(home);
        let (error, place) = self.random.frame();
        let want = frame_fault(home == at, error, free[at % 2]);
        match exn.raise(&mut self.stores[at % 2], &DriveHost, error, place) {
            Ok(exn) => {
                self.answered(rt, Call::Raise, None, want);
                let mut children = Vec::new(self.alloc);
                assert!(rt; children.push(tree).is_ok());
                self.keep(rt, at, exn, Tree::new(error, place, children));
            }
            Err(Refusal { fault, given }) => {
                self.answered(rt, Call::Raise, Some(fault), want);
                self.keep(rt, home, given, tree);
            }
        }
    }

    fn raise_all(&mut self, rt: &impl Abort, free: [usize; 2]) {
        let Some(
            Row {
                home,
                basket,
                trees,
            },
        ) = self.pick_row()
        else {
            return;
        };
        let at = self.random.store_for(home);
        let (error, place) = self.random.frame();
        let want = frame_fault(home == at, error, free[at % 2]);
        match Exn::raise_all(&mut self.stores[at % 2], &DriveHost, basket, error, place) {
            Ok(exn) => {
                self.answered(rt, Call::RaiseAll, None, want);
                self.keep(rt, at, exn, Tree::new(error, place, trees));
            }
            Err(Refusal { fault, given }) => {
                self.answered(rt, Call::RaiseAll, Some(fault), want);
                self.keep_row(rt, home, given, trees);
            }
        }
    }

    fn chain(&mut self, rt: &impl Abort) {
        let Some(mut onto) = self.pick() else {
            return;
        };
        if let Some(Report { home, exn, tree }) = self.pick() {
            let at = self.random.store_for(onto.home);
            let want = held_fault(onto.home == at && home == at);
            match onto.exn.chain(&mut self.stores[at % 2], exn) {
                Ok(()) => {
                    self.answered(rt, Call::Chain, None, want);
                    assert!(rt; onto.tree.children.push(tree).is_ok());
                }
                Err(Refusal { fault, given }) => {
                    self.answered(rt, Call::Chain, Some(fault), want);
                    self.keep(rt, home, given, tree);
                }
            }
        }
        let Report { home, exn, tree } = onto;
        self.keep(rt, home, exn, tree);
    }

    fn chain_all(&mut self, rt: &impl Abort) {
        let Some(mut onto) = self.pick() else {
            return;
        };
        if let Some(
            Row {
                home,
                basket,
                mut trees,
            },
        ) = self.pick_row()
        {
            let at = self.random.store_for(onto.home);
            let want = held_fault(onto.home == at && home == at);
            match onto.exn.chain_all(&mut self.stores[at % 2], basket) {
                Ok(()) => {
                    self.answered(rt, Call::ChainAll, None, want);
                    assert!(rt; onto.tree.children.append(&mut trees).is_ok());
                }
                Err(Refusal { fault, given }) => {
                    self.answered(rt, Call::ChainAll, Some(fault), want);
                    self.keep_row(rt, home, given, trees);
                }
            }
        }
        let Report { home, exn, tree } = onto;
        self.keep(rt, home, exn, tree);
    }

    fn open(&mut self, rt: &impl Abort) {
        let at = self.random.store_for(0);
        let basket = self.stores[at % 2].basket();
        let trees = Vec::new(self.alloc);
        self.keep_row(rt, at, basket, trees);
    }

    fn collect(&mut self, rt: &impl Abort) {
        let Some(mut row) = self.pick_row() else {
            return;
        };
        if let Some(Report { home, exn, tree }) = self.pick() {
            let at = self.random.store_for(row.home);
            let want = held_fault(row.home == at && home == at);
            match row.basket.collect(&mut self.stores[at % 2], exn) {
                Ok(()) => {
                    self.answered(rt, Call::Collect, None, want);
                    assert!(rt; row.trees.push(tree).is_ok());
                }
                Err(Refusal { fault, given }) => {
                    self.answered(rt, Call::Collect, Some(fault), want);
                    self.keep(rt, home, given, tree);
                }
            }
        }
        let Row {
            home,
            basket,
            trees,
        } = row;
        self.keep_row(rt, home, basket, trees);
    }

    fn take(&mut self, rt: &impl Abort) {
        let Some(mut row) = self.pick_row() else {
            return;
        };
        let at = self.random.store_for(row.home);
        let want = held_fault(row.home == at);
        match row.basket.take(&mut self.stores[at % 2]) {
            Ok(Some(exn)) => {
                self.answered(rt, Call::Take, None, want);
                assert!(rt; !row.trees.is_empty());
                let tree = row.trees.remove(0);
                self.keep(rt, at, exn, tree);
            }
            Ok(None) => {
                self.answered(rt, Call::Take, None, want);
                assert!(rt; row.trees.is_empty());
            }
            Err(fault) => self.answered(rt, Call::Take, Some(fault), want),
        }
        let Row {
            home,
            basket,
            trees,
        } = row;
        self.keep_row(rt, home, basket, trees);
    }

    fn drain(&mut self, rt: &impl Abort) {
        let Some(
            Report {
                home,
                exn,
                mut tree,
            },
        ) = self.pick()
        else {
            return;
        };
        let at = self.random.store_for(home);
        let want = held_fault(home == at);
        match exn.drain_children(&mut self.stores[at % 2]) {
            Ok(basket) => {
                self.answered(rt, Call::Drain, None, want);
                let trees = mem::replace(&mut tree.children, Vec::new(self.alloc));
                self.keep_row(rt, at, basket, trees);
            }
            Err(fault) => self.answered(rt, Call::Drain, Some(fault), want),
        }
        self.keep(rt, home, exn, tree);
    }

    fn discard(&mut self, rt: &impl Abort) {
        let Some(Report { home, exn, tree }) = self.pick() else {
            return;
        };
        let at = self.random.store_for(home);
        let want = held_fault(home == at);
        match exn.discard(&mut self.stores[at % 2]) {
            Ok(()) => self.answered(rt, Call::Discard, None, want),
            Err(Refusal { fault, given }) => {
                self.answered(rt, Call::Discard, Some(fault), want);
                self.keep(rt, home, given, tree);
            }
        }
    }

    fn discard_row(&mut self, rt: &impl Abort) {
        let Some(
            Row {
                home,
                basket,
                trees,
            },
        ) = self.pick_row()
        else {
            return;
        };
        let at = self.random.store_for(home);
        let want = held_fault(home == at);
        match basket.discard(&mut self.stores[at % 2]) {
            Ok(()) => self.answered(rt, Call::DiscardAll, None, want),
            Err(Refusal { fault, given }) => {
                self.answered(rt, Call::DiscardAll, Some(fault), want);
                self.keep_row(rt, home, given, trees);
            }
        }
    }

    // A report flattened into a list that may be too short, and built again in either store.
    fn flatten(&mut self, rt: &impl Abort) {
        let Some(report) = self.pick() else {
            return;
        };
        let at = self.random.store_for(report.home);
        let to = self.random.below(2);
        let short = self.random.below(4) == 0;
        self.rebuild(rt, report, at, to, short);
    }

    // Flattens a report, whose nodes must be those of its tree, and builds it again.
    fn rebuild(&mut self, rt: &impl Abort, report: Report, at: usize, to: usize, short: bool) {
        let Report { home, exn, tree } = report;
        let nodes = tree.nodes(self.alloc).expect(rt, "memory");
        let len = nodes.len();
        let room = if short {
            len.saturating_sub(1)
        } else {
            len.saturating_add(2)
        };
        let mut list = vec![in self.alloc; BLANK; room].expect(rt, "memory");
        let want = if home != at {
            Some(StoreFault::NotHeld)
        } else {
            (room < len).then_some(StoreFault::ListTooShort(len))
        };
        match exn.into_chain(&mut self.stores[at % 2], &DriveHost, list.as_mut_slice()) {
            Ok(chain) => {
                self.answered(rt, Call::IntoChain, None, want);
                assert!(rt; chain.front(list.as_slice()) == nodes.as_slice());
                self.build(rt, chain, list.as_slice(), to, tree);
            }
            Err(Refusal { fault, given }) => {
                self.answered(rt, Call::IntoChain, Some(fault), want);
                self.keep(rt, home, given, tree);
            }
        }
    }

    // Builds the report of a chain.
    fn build(
        &mut self,
        rt: &impl Abort,
        chain: ChainedError,
        list: &[Node],
        to: usize,
        tree: Tree,
    ) {
        let frames = tree.frames();
        let want = (self.free(to) < frames).then_some(StoreFault::NoFrames(frames));
        match chain.into_exn(&mut self.stores[to % 2], &DriveHost, list) {
            Ok(exn) => {
                self.answered(rt, Call::IntoExn, None, want);
                self.keep(rt, to, exn, tree);
            }
            Err(Refusal { fault, given: _ }) => self.answered(rt, Call::IntoExn, Some(fault), want),
        }
    }

    // Every report has its tree, seen in its nodes, and is built again.
    fn compare_reports(&mut self, rt: &impl Abort) {
        for _ in 0..self.reports.len() {
            assert!(rt; !self.reports.is_empty());
            let report = self.reports.remove(0);
            let home = report.home;
            self.rebuild(rt, report, home, home, false);
        }
    }

    // Every basket has its row: its reports come out, have their trees, and go in again.
    fn compare_rows(&mut self, rt: &impl Abort) {
        for _ in 0..self.rows.len() {
            assert!(rt; !self.rows.is_empty());
            let mut row = self.rows.remove(0);
            for _ in 0..row.trees.len() {
                self.turn(rt, &mut row);
            }
            let Row {
                home,
                basket,
                trees,
            } = row;
            self.keep_row(rt, home, basket, trees);
        }
    }

    // Moves the first report of a basket to its end.
    fn turn(&mut self, rt: &impl Abort, row: &mut Row) {
        let Ok(Some(exn)) = row.basket.take(&mut self.stores[row.home % 2]) else {
            panic!(rt);
        };
        assert!(rt; !row.trees.is_empty());
        let tree = row.trees.remove(0);
        let home = row.home;
        self.rebuild(rt, Report { home, exn, tree }, home, home, false);
        let Some(Report { home: _, exn, tree }) = self.reports.pop() else {
            panic!(rt);
        };
        match row.basket.collect(&mut self.stores[home % 2], exn) {
            Ok(()) => assert!(rt; row.trees.push(tree).is_ok()),
            Err(_refused) => rt.abort(),
        }
    }

    // All reports and all baskets.
    pub fn compare(&mut self, rt: &impl Abort) {
        self.compare_reports(rt);
        self.compare_rows(rt);
    }

    // Compares all reports and baskets, discards them, and tells whether each call gave each of its answers.
    pub fn finish(mut self, rt: &impl Abort) {
        self.compare(rt);
        let Model {
            alloc: _,
            mut stores,
            mut reports,
            mut rows,
            random: _,
            answers,
        } = self;
        'reports: while let Some(Report { home, exn, tree: _ }) = reports.pop() {
            let Some(store) = stores.get_mut(home) else {
                panic!(rt);
            };
            match exn.discard(store) {
                Ok(()) => {}
                Err(_refused) => rt.abort(),
            }
        }
        reports.destroy_empty();
        'rows: while let Some(
            Row {
                home,
                basket,
                trees: _,
            },
        ) = rows.pop()
        {
            let Some(store) = stores.get_mut(home) else {
                panic!(rt);
            };
            match basket.discard(store) {
                Ok(()) => {}
                Err(_refused) => rt.abort(),
            }
        }
        rows.destroy_empty();
        for store in &stores {
            assert_eq!(rt; store.free(), 1024);
        }
        assert_eq!(rt; answers, ALL_ANSWERS);
    }

    // One call of some kind; where reports grow none is discarded.
    pub fn call(&mut self, rt: &impl Abort, grows: bool) {
        let kind = if grows {
            self.random.below(18)
        } else {
            self.random.below(20)
        };
        let free = [self.free(0), self.free(1)];
        match kind {
            0..=2 => self.begin(rt),
            3..=5 => self.raise(rt, free),
            6 => self.raise_all(rt, free),
            7 => self.open(rt),
            8..=9 => self.chain(rt),
            10 => self.chain_all(rt),
            11..=13 => self.collect(rt),
            14..=15 => self.take(rt),
            16 => self.drain(rt),
            17 => self.flatten(rt),
            18 => self.discard_row(rt),
            _ => self.discard(rt),
        }
        assert_eq!(rt; self.stores[0].free(), self.free(0));
        assert_eq!(rt; self.stores[1].free(), self.free(1));
    }
}
