// The reads of a function, and the arcs along which a location stays unassigned.

ghost use Rattle.std.specs.Prelude.{◌≡◌, ◌<◌, map};
ghost use Rattle.std.specs.List.{All};
ghost use Rattle.definite_assignment.specs.Leaving.{turned};
ghost use Rattle.definite_assignment.specs.Reads.{is_argument};
ghost use Rattle.definite_assignment.specs.Window.{windowed};

use crate::arcs::{arcs_of, arcs_turned};
use crate::window::{Window, place_of, windowed};
use bril_tree::numbered_function::Func;
use flow_graph::{Access, AccessLists, Graph, all_reads};
use graph_search::{ArcGraph, ReachedSets, Seed, number_of_length, one_bit};
use std::alloc::{AllocError, Global};

// The reads of a function with `args` arguments, their indices in rows by the windows of what they read, and the arcs along
// which a location stays unassigned, as they are and turned round.
#[derive(Drop)]
pub(crate) struct Flow {
    pub args: u32,
    pub reads: Vec<Access>,
    pub rows: AccessLists,
    pub forward: ArcGraph,
    pub backward: ArcGraph,
    ghost rows_are: { rows.list ≡ map windowed reads.items },
    ghost items: { All (λ read. read.item < forward.nodes) reads.items },
    ghost turned: { backward.arcs ≡ map turned forward.arcs },
    ghost nodes: { backward.nodes ≡ forward.nodes },
    ghost start: { 0 < forward.nodes },
}

// Whether the location is one of the first `args` variables.
fn is_argument_location(args: u32, location: u32) -> bool
    ensures { result ≡ is_argument args location }
{
    location % 2 == 0 && location / 2 < args
}

impl Flow {
    ghost use Rattle.std.specs.Prelude.{Some, true, false, length, slice_get, slice_index, min, ℕ, ◌^◌, ◌-◌, ◌↔◌, ◌⊎◌, ◌∷◌, [], IfOk, OnOk};
    ghost use Rattle.std.specs.List.{Contains};
    ghost use Rattle.flow_graph.specs.Graph.{IsGraphOf};
    ghost use Rattle.flow_graph.specs.Reads.{reads_from};
    ghost use Rattle.flow_graph.specs.declared.reads.Access.{Access};
    ghost use Rattle.graph_search.specs.Path.{IsReached, other_than};
    ghost use Rattle.graph_search.specs.Sets.{has_bit, seeds_of};
    ghost use Rattle.definite_assignment.specs.Leaving.{leaving_arcs};
    ghost use Rattle.definite_assignment.specs.Reads.{IsOpen, IsFirstOpen, Lowers};
    ghost use Rattle.definite_assignment.specs.Window.{IsFound, place_of, window_of};

    // The reads and the arcs of a function. As many as 2^32 - 1 of either are taken to need more memory than there is.
    pub fn of(alloc: Global, func: &Func, graph: &Graph) -> Result<Flow, AllocError>
        requires few { length func.now.code < 2 ^ 32 - 1 }
        requires graph { IsGraphOf func.now.code graph.now }
        ensures args { IfOk result (λ flow. flow.args ≡ func.now.args) }
        ensures reads { IfOk result (λ flow. flow.reads.items ≡ reads_from 0 func.now.code) }
        ensures arcs { IfOk result (λ flow. flow.forward.arcs ≡ leaving_arcs func.now.code graph.now.edges) }
    {
        let code = func.code.as_slice();
        let reads = all_reads(alloc, code)?;
        let arcs = arcs_of(alloc, code, graph.edges())?;
        number_of_length(reads.len())?;
        number_of_length(arcs.len())?;
        let nodes = code.len() + 1;
        let backward = ArcGraph::of(alloc, nodes, arcs_turned(alloc, arcs.as_slice())?)?;
        let forward = ArcGraph::of(alloc, nodes, arcs)?;
        let rows = AccessLists::of(alloc, windowed(alloc, reads.as_slice())?)?;
        Ok(Flow {
            args: func.args,
            reads,
            rows,
            forward,
            backward,
        })
    }

    // Adds a seed for the read, unless it reads an argument.
    fn push_seed(&self, seeds: &mut Vec<Seed>, read: Access) -> Result<(), AllocError>
        requires item { read.item < self.now.forward.nodes }
        requires nodes { All (λ seed. seed.node < self.now.forward.nodes) seeds.old.items }
        ensures nodes { OnOk result (All (λ seed. seed.node < self.now.forward.nodes) seeds.new.items) }
        ensures kept { OnOk result ((k node : ℕ) → Contains (seeds_of k seeds.old.items) node → Contains (seeds_of k seeds.new.items) node) }
        ensures there { OnOk result (is_argument self.now.args read.location ≡ false → Contains (seeds_of (place_of read.location) seeds.new.items) read.item) }
    {
        if !is_argument_location(self.args, read.location) {
            seeds.push(Seed {
                node: read.item,
                bits: one_bit(place_of(read.location)),
            })?;
        }
        Ok(())
    }

    // A seed for each read of the window's locations that are no arguments, the last read first.
    fn seeds(&self, alloc: Global, window: u32) -> Result<Vec<Seed>, AllocError>
        requires window { window < self.now.rows.locations }
        ensures nodes { IfOk result (λ seeds. All (λ seed. seed.node < self.now.forward.nodes) seeds.items) }
        ensures all { IfOk result (λ seeds. (k : ℕ) (read : Access) → slice_get self.now.reads.items k ≡ Some read → window_of read.location ≡ window →
            is_argument self.now.args read.location ≡ false → Contains (seeds_of (place_of read.location) seeds.items) read.item) }
    {
        let mut seeds = Vec::new(alloc);
        let mut end = self.rows.end(window);
        while end > 0 {
            let k = end - 1;
            self.push_seed(&mut seeds, self.reads[k as usize])?;
            end = self.rows.before(k);
        }
        Ok(seeds)
    }

    // The word whose bits are the window's locations that some item reads to which arcs past items that don't assign the
    // location lead from the start. This goes back from those items, and so sees only the points at which a location of the
    // window is live.
    fn open_at_start(
        &self,
        alloc: Global,
        sets: &mut ReachedSets,
        window: u32,
    ) -> Result<u64, AllocError>
        requires window { window < self.now.rows.locations }
        requires nodes { sets.old.nodes ≡ self.now.forward.nodes }
        ensures nodes { sets.new.nodes ≡ sets.old.nodes }
        ensures all { IfOk result (λ word. (k : ℕ) (read : Access) → slice_get self.now.reads.items k ≡ Some read → window_of read.location ≡ window →
            IsOpen self.now.forward.arcs self.now.args read → has_bit word (place_of read.location) ≡ true) }
    {
        let seeds = self.seeds(alloc, window)?;
        sets.search(&self.backward, seeds.as_slice(), &Window { number: window })?;
        Ok(sets.word(0))
    }

    // Whether the search of the read's location found its item, and the location is no argument.
    fn is_found(&self, sets: &ReachedSets, read: Access) -> bool
        requires item { read.item < self.now.forward.nodes }
        requires nodes { sets.now.nodes ≡ self.now.forward.nodes }
        ensures { (result ≡ true) ↔ IsFound self.now.args sets.now.words read }
    {
        !is_argument_location(self.args, read.location)
            && sets.is_reached(read.item, place_of(read.location))
    }

    // The least of a number and `k`, where the read at `k` was found; else the number.
    fn lower_at(&self, sets: &ReachedSets, k: usize, least: usize) -> usize
        requires k { k < length self.now.reads.items }
        requires nodes { sets.now.nodes ≡ self.now.forward.nodes }
        ensures { (read : Access) → slice_get self.now.reads.items k ≡ Some read →
            (IsFound self.now.args sets.now.words read × (result ≡ min least k)) ⊎ ((¬ IsFound self.now.args sets.now.words read) × (result ≡ least)) }
    {
        if self.is_found(sets, self.reads[k]) {
            return least.min(k);
        }
        least
    }

    // The least of a number and the indices of reads of the window that were found.
    fn first_found(&self, sets: &ReachedSets, window: u32, first: usize) -> usize
        requires window { window < self.now.rows.locations }
        requires nodes { sets.now.nodes ≡ self.now.forward.nodes }
        ensures { Lowers self.now.reads.items (λ read. (window_of read.location ≡ window) × IsFound self.now.args sets.now.words read) first result }
    {
        let mut least = first;
        let mut end = self.rows.end(window);
        while end > 0 {
            let k = end - 1;
            least = self.lower_at(sets, k as usize, least);
            end = self.rows.before(k);
        }
        least
    }

    // The least of a number and the indices of reads of the window that are open.
    fn lowered(
        &self,
        alloc: Global,
        sets: &mut ReachedSets,
        window: u32,
        first: usize,
    ) -> Result<usize, AllocError>
        requires window { window < self.now.rows.locations }
        requires nodes { sets.old.nodes ≡ self.now.forward.nodes }
        ensures nodes { sets.new.nodes ≡ sets.old.nodes }
        ensures lowered { IfOk result (λ least. Lowers self.now.reads.items (λ read. (window_of read.location ≡ window) × IsOpen self.now.forward.arcs self.now.args read) first least) }
    {
        let bits = self.open_at_start(alloc, sets, window)?;
        if bits == 0 {
            return Ok(first);
        }
        let start = Seed { node: 0, bits };
        sets.search(&self.forward, &[start], &Window { number: window })?;
        Ok(self.first_found(sets, window, first))
    }

    // The index in the list of the first read that is open, or the list's length where none is.
    pub fn first_open(&self, alloc: Global) -> Result<usize, AllocError>
        ensures { IfOk result (λ first. IsFirstOpen self.now.forward.arcs self.now.args self.now.reads.items first) }
    {
        let mut sets = ReachedSets::new(alloc, self.forward.nodes())?;
        let mut first = self.reads.len();
        for window in 0..self.rows.locations() {
            first = self.lowered(alloc, &mut sets, window as u32, first)?;
        }
        Ok(first)
    }
}
