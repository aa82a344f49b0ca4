// Reports as chains: flattened into the caller's list, and built again.
ghost use Rattle.std.specs.Prelude.{◌≡◌, length};
ghost use Rattle.ledger.specs.Ledger.{Ledger};
ghost use Rattle.store.specs.Chains.{Flattened, Rebuilt, RebuiltBy, RootBuilt, nodes_in};
ghost use Rattle.store.specs.Reached.{Reached};

use crate::store::Store;
use crate::token::{Exn, Refusal, Token, accept, beside};
use checks::check::{check_flattening, explicit_nodes};
use host::host::Host;
use nodes::node::Node;
use rebuilding::build::build;
use traversal::report::flatten_report;
use vocabulary::fault::StoreFault;

// A chain: the first nodes of a list, which the caller keeps and lends to each call, since nothing here allocates.
#[derive(Drop)]
pub struct ChainedError {
    pub(crate) nodes: usize,
}

impl ChainedError {
    // A chain of all nodes of a list. Nothing is checked here: each question to a chain checks it first.
    pub fn of(list: &[Node]) -> ChainedError
        ensures { result ≡ record { nodes = length list.now } }
    {
        ChainedError { nodes: list.len() }
    }

    // Builds the tree of the chain, a frame for each node that is no source. Its nodes stand in `list`.
    pub fn into_exn<H: Host>(
        self,
        store: &mut Store,
        host: &H,
        list: &[Node],
    ) -> Result<Exn, Refusal<ChainedError>>
        ensures built { Rebuilt store.old store.new (H.Host.errors host.now) self list.now result }
        ensures reached { (l : Ledger) → Reached (H.Host.errors host.now) store.old l → RebuiltBy store.old store.new l (H.Host.errors host.now) (nodes_in self list.now) result }
    {
        let (root, _) = beside(store.rebuild(host, self.front(list)), self)?;
        Ok(store.token(root))
    }

    // The nodes of the chain in the list that it is lent: all of a list that has fewer.
    pub fn front<'a>(&self, list: &'a [Node]) -> &'a [Node]
        ensures { result.now ≡ nodes_in self.now list.now }
    {
        &list[..self.nodes.min(list.len())]
    }

    // How many nodes of its list are the chain's.
    pub fn nodes(&self) -> usize
        ensures { result ≡ self.now.nodes }
    {
        self.nodes
    }
}

impl Store {
    // The frames of the tree that flattens to the nodes, and their root.
    #[tactic(auto, using(crate::proofs::Trees::no_tree, crate::proofs::Trees::too_few))]
    pub(crate) fn rebuild<H: Host>(&mut self, host: &H, nodes: &[Node]) -> Result<u16, StoreFault>
        ensures { RootBuilt self.old self.new (H.Host.errors host.now) nodes.now result }
    {
        check_flattening(host, nodes)?;
        let need = explicit_nodes(nodes);
        if self.frames.free() < need {
            return Err(StoreFault::NoFrames(need));
        }
        Ok(build(&mut self.frames, nodes))
    }
}

impl Token<u16> {
    // Writes the flattening of the report into a list, and frees its frames.
    pub fn into_chain<H: Host>(
        self,
        store: &mut Store,
        host: &H,
        list: &mut [Node],
    ) -> Result<ChainedError, Refusal<Exn>>
        ensures { Flattened store.old store.new (H.Host.errors host.now) self list.old list.new result }
    {
        let report = accept(store.holds(&self), self)?;
        let flattened = flatten_report(host, &store.frames, report.root, list);
        let (nodes, report) = beside(flattened, report)?;
        store.frames.discard(report.spend());
        Ok(ChainedError { nodes })
    }
}
