// The calls between reports and chains.
ghost use Rattle.std.specs.Prelude.{vec_len};
ghost use Rattle.runs.specs.declared.call.Call.TheVariants.{ChainOf, IntoChain, IntoExn};
ghost use Rattle.model.specs.Host.{Errors};
ghost use Rattle.runs.specs.Tokens.{Stood};
ghost use Rattle.runs.specs.Built.{BuiltExn, FlattenedInto};
ghost use Rattle.runs.specs.Session.{Ends, Stands, state_of};

use crate::call::{Answer, Name};
use crate::names::{rename, reserve};
use crate::session::Session;
use crate::stop::Stop;
use host::host::Host;
use nodes::node::{BLANK, Node};
use std::alloc::Global;
use store::chain::ChainedError;
use store::store::Store;
use store::token::{Exn, Refusal};
use vocabulary::fault::StoreFault;

impl Session {
    // A report becomes a chain.
    pub(crate) fn into_chain<H: Host>(
        &mut self,
        alloc: Global,
        host: &H,
        name: Name,
        room: usize,
    ) -> Result<Answer, Stop>
        ensures step { Ends (state_of (H.Host.errors host.now) self.old) (IntoChain name room) (state_of (H.Host.errors host.now) self.new) result }
        ensures stands { Stands (H.Host.errors host.now) self.old → Stands (H.Host.errors host.now) self.new }
    {
        reserve(&mut self.chains)?;
        let list = vec![in alloc; BLANK; room]?;
        let report = self.reports.take(name)?;
        match flatten(&mut self.store, host, report, list) {
            Ok(list) => {
                let count = list.len();
                rename(&mut self.reports.names, name, None);
                self.chains.push_reserved(Some(list));
                Ok(Answer::Chain(count))
            }
            Err(refusal) => Err(self.reports.give_back(name, refusal)),
        }
    }

    // A chain of any list.
    pub(crate) fn chain_of(&mut self, nodes: Vec<Node>) -> Result<Answer, Stop>
        ensures step { (h : Errors) → Ends (state_of h self.old) (ChainOf nodes) (state_of h self.new) result }
        ensures stands { (h : Errors) → Stands h self.old → Stands h self.new }
    {
        reserve(&mut self.chains)?;
        let count = ChainedError::of(&nodes).nodes();
        self.chains.push_reserved(Some(nodes));
        Ok(Answer::Chain(count))
    }

    // A chain becomes the report of its tree.
    pub(crate) fn into_exn<H: Host>(&mut self, host: &H, chain: usize) -> Result<Answer, Stop>
        ensures step { Ends (state_of (H.Host.errors host.now) self.old) (IntoExn chain) (state_of (H.Host.errors host.now) self.new) result }
        ensures stands { Stands (H.Host.errors host.now) self.old → Stands (H.Host.errors host.now) self.new }
    {
        reserve(&mut self.reports.names)?;
        let Some(Some(list)) = self.chains.get(chain) else {
            return Err(Stop::Missing);
        };
        let report = build(&mut self.store, host, list)?;
        self.chains[chain] = None;
        Ok(Answer::Report(self.reports.add(report)))
    }
}

// The report of the tree of a chain, which is all of a list.
fn build<H: Host>(store: &mut Store, host: &H, list: &[Node]) -> Result<Exn, StoreFault>
    ensures built { BuiltExn store.old store.new (H.Host.errors host.now) list.now result }
    ensures stands { Stood (H.Host.errors host.now) store.old → Stood (H.Host.errors host.now) store.new }
{
    match ChainedError::of(list).into_exn(store, host, list) {
        Ok(report) => Ok(report),
        Err(Refusal { fault, given: _ }) => Err(fault),
    }
}

// The flattening of a report, in a list with as many places.
fn flatten<H: Host>(
    store: &mut Store,
    host: &H,
    report: Exn,
    mut list: Vec<Node>,
) -> Result<Vec<Node>, Refusal<Exn>>
    ensures flattened { FlattenedInto store.old store.new (H.Host.errors host.now) report (vec_len list) result }
    ensures stands { Stood (H.Host.errors host.now) store.old → Stood (H.Host.errors host.now) store.new }
{
    match report.into_chain(store, host, &mut list) {
        Ok(chain) => {
            list.truncate(chain.nodes());
            Ok(list)
        }
        Err(refusal) => Err(refusal),
    }
}
