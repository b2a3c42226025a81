// What is dead in a function, by a list of the locations that are to be looked at.

ghost use Rattle.std.specs.Prelude.{◌≡◌, ◌⊎◌, ◌≤◌, ◌<◌, ◌+◌, ◌^◌, ◌-◌, ◌↔◌, ◌++◌, ◌∷◌, [], ℕ, true, false, if◌then◌else◌, IsTrue, None, Some, is_some, length, slice_get, IfOk, OnOk, IfSome, IfNone};
ghost use Rattle.std.specs.List.{All, Contains};
ghost use Rattle.bril_tree.specs.Operand.{reads_of};
ghost use Rattle.bril_tree.specs.Shape.{shape_fault_of};
ghost use Rattle.bril_tree.specs.Sites.{AreSitesSound};
ghost use Rattle.bril_tree.specs.Walk.{IsReached};
ghost use Rattle.bril_tree.specs.declared.numbered.Instr.{Instr};
ghost use Rattle.flow_graph.specs.Accesses.{Accesses};
ghost use Rattle.flow_graph.specs.Graph.{IsGraphOf};
ghost use Rattle.flow_graph.specs.Location.{number_of};
ghost use Rattle.flow_graph.specs.Reads.{reads_from};
ghost use Rattle.dead_code.specs.Emptied.{IsCleared};
ghost use Rattle.dead_code.specs.Removable.{IsIdle, is_computation, is_silent, only_computes};
ghost use Rattle.graph_search.specs.Marks.{is_marked};
ghost use Rattle.dead_code.specs.Work.{AreQueued, IsLookedAt, IsLooking, IsReadBy, IsSearched, IsSound, IsWork, NoneIdle, Queues, Unqueues, assignment_if, assignments_from, reads_left, remaining};
ghost use Rattle.live_sets.specs.Arcs.{AreBackArcs};

use crate::sweep::swept;
use bril_tree::numbered::Instr;
use bril_tree::numbered_function::Func;
use bril_tree::operation::Op;
use flow_graph::{Access, AccessLists, Graph, assigned_number, item_reads};
use graph_search::Reached;
use live_sets::Flow;
use std::alloc::{AllocError, Global};

// What is dead so far, and the locations that are to be looked at: those that may have become dead since they were.
#[derive(Drop)]
struct Work {
    dead: Vec<bool>,
    queue: Vec<u32>,
    queued: Vec<bool>,
}

// Which items are dead: removable ones, one after another until none is left.
pub(crate) fn dead_items(alloc: Global, func: &Func) -> Result<Vec<bool>, AllocError>
    requires shaped { shape_fault_of (is_some func.now.ret) func.now.code ≡ None }
    requires few { length func.now.code < 2 ^ 32 - 1 }
    requires sound { AreSitesSound func.now.code }
    ensures long { IfOk result (λ dead. length dead.items ≡ length func.now.code) }
    ensures cleared { IfOk result (λ dead. IsCleared func.now.code (remaining func.now.code dead.items)) }
{
    let graph = Graph::of_sound(alloc, func)?;
    let flow = Flow::of(alloc, func, &graph)?;
    let assignments = assignments_of(alloc, func.code.as_slice())?;
    let work = Work::new(alloc, func, &graph, assignments.locations())?;
    cleared(alloc, func, &flow, &assignments, work)
}

// What is dead in the end, from the state in which a function is begun with.
fn cleared(
    alloc: Global,
    func: &Func,
    flow: &Flow,
    assignments: &AccessLists,
    work: Work,
) -> Result<Vec<bool>, AllocError>
    requires shaped { shape_fault_of (is_some func.now.ret) func.now.code ≡ None }
    requires few { length func.now.code < 2 ^ 32 - 1 }
    requires total { flow.now.points ≡ length func.now.code + 1 }
    requires reads { flow.now.reads.list ≡ reads_from 0 func.now.code }
    requires arcs { AreBackArcs func.now.code flow.now.arcs }
    requires assignments { assignments.now.list ≡ assignments_from 0 func.now.code }
    requires above { All (λ access. access.location < assignments.now.locations) assignments.now.list }
    requires count { length work.queued.items ≡ assignments.now.locations }
    requires work { IsWork func.now.code work.dead.items work.queue.items work.queued.items (λ n. ⊥) }
    ensures long { IfOk result (λ dead. length dead.items ≡ length func.now.code) }
    ensures cleared { IfOk result (λ dead. IsCleared func.now.code (remaining func.now.code dead.items)) }
{
    let mut reached = Reached::new(alloc, flow.points())?;
    let mut work = work;
    while let Some(location) = work.next() {
        work.look_at(alloc, func, flow, assignments, &mut reached, location)?;
    }
    Ok(work.dead)
}

// Whether the item is a label or a `nop`.
fn is_silent(item: &Instr) -> bool
    ensures { result ≡ is_silent item.now }
{
    match item {
        Instr::Label(_) => true,
        Instr::Const { .. } => false,
        Instr::Act { op, .. } => *op == Op::Nop,
    }
}

// Whether the operation only assigns what it computes, and never faults.
fn only_computes(op: Op) -> bool
    ensures { result ≡ only_computes op }
{
    match op {
        Op::Undef | Op::Get | Op::Set | Op::Id | Op::CharToInt => true,
        Op::Add | Op::Sub | Op::Mul => true,
        Op::Eq | Op::Lt | Op::Gt | Op::Le | Op::Ge => true,
        Op::Ceq | Op::Clt | Op::Cgt | Op::Cle | Op::Cge => true,
        Op::Not | Op::And | Op::Or => true,
        Op::Div | Op::PtrAdd | Op::IntToChar => false,
        Op::Nop | Op::Jmp | Op::Br | Op::Call | Op::Ret | Op::Print => false,
        Op::Alloc | Op::Free | Op::Store | Op::Load => false,
        Op::Speculate | Op::Commit | Op::Guard => false,
    }
}

// Whether the item is a computation.
pub(crate) fn is_computation(item: &Instr) -> bool
    ensures { result ≡ is_computation item.now }
{
    match item {
        Instr::Label(_) => false,
        Instr::Const { .. } => true,
        Instr::Act { op, .. } => only_computes(*op),
    }
}

// Adds the assignment of an item, where it is a computation.
fn push_assignment(
    assignments: &mut Vec<Access>,
    item: u32,
    instr: &Instr,
) -> Result<(), AllocError>
    ensures { OnOk result (assignments.new.items ≡ assignments.old.items ++ assignment_if (is_computation instr.now) item instr.now) }
{
    if !is_computation(instr) {
        return Ok(());
    }
    if let Some(location) = assigned_number(instr)? {
        assignments.push(Access { item, location })?;
    }
    Ok(())
}

// The assignments of computations, by their locations.
fn assignments_of(alloc: Global, code: &[Instr]) -> Result<AccessLists, AllocError>
    requires { length code.now < 2 ^ 32 - 1 }
    ensures { IfOk result (λ assignments. assignments.list ≡ assignments_from 0 code.now) }
{
    let mut assignments = Vec::new(alloc);
    for (item, instr) in code.iter().enumerate() {
        push_assignment(&mut assignments, item as u32, instr)?;
    }
    AccessLists::of(alloc, assignments)
}

// Whether no walk leads to the item at the point, and it isn't silent.
fn is_idle(_func: &Func, graph: &Graph, item: &Instr, point: u32) -> bool
    requires graph { IsGraphOf _func.now.code graph.now }
    requires point { point < length graph.now.sites }
    ensures idle { result ≡ true → IsIdle _func.now.code point item.now }
    ensures busy { result ≡ false → (is_silent item.now ≡ true) ⊎ IsReached _func.now.code point }
{
    if graph.reach(point) {
        return false;
    }
    !is_silent(item)
}

// Marks of the items that no walk reaches and that aren't silent.
fn idle_items(alloc: Global, func: &Func, graph: &Graph) -> Result<Vec<bool>, AllocError>
    requires few { length func.now.code < 2 ^ 32 - 1 }
    requires graph { IsGraphOf func.now.code graph.now }
    ensures sound { IfOk result (λ dead. IsSound func.now.code dead.items) }
    ensures none { IfOk result (λ dead. NoneIdle func.now.code dead.items) }
{
    let mut dead = Vec::new(alloc);
    for (point, item) in func.code.as_slice().iter().enumerate() {
        dead.push(is_idle(func, graph, item, point as u32))?;
    }
    Ok(dead)
}

// The numbers below a bound.
fn numbers_below(alloc: Global, count: usize) -> Result<Vec<u32>, AllocError>
    requires { count ≤ 2 ^ 32 }
    ensures { IfOk result (λ numbers. (n : ℕ) → Contains numbers.items n ↔ (n < count)) }
{
    let mut numbers = Vec::new(alloc);
    for n in 0..count {
        numbers.push(n as u32)?;
    }
    Ok(numbers)
}

impl Work {
    // At first what is idle and what the sweep finds is dead, and each location of a number below the count is to be looked at.
    fn new(alloc: Global, func: &Func, graph: &Graph, count: usize) -> Result<Work, AllocError>
        requires shaped { shape_fault_of (is_some func.now.ret) func.now.code ≡ None }
        requires few { length func.now.code < 2 ^ 32 - 1 }
        requires graph { IsGraphOf func.now.code graph.now }
        requires count { count ≤ 2 ^ 32 }
        ensures count { IfOk result (λ work. length work.queued.items ≡ count) }
        ensures work { IfOk result (λ work. IsWork func.now.code work.dead.items work.queue.items work.queued.items (λ n. ⊥)) }
    {
        let dead = swept(alloc, func, idle_items(alloc, func, graph)?, count)?;
        let queue = numbers_below(alloc, count)?;
        let queued = vec![in alloc; true; count]?;
        Ok(Work {
            dead,
            queue,
            queued,
        })
    }

    // The next location to be looked at, which then isn't queued any more.
    fn next(&mut self) -> Option<u32>
        requires { AreQueued self.old.queue.items self.old.queued.items }
        ensures dead { self.new.dead.items ≡ self.old.dead.items }
        ensures none { IfNone result ((n : ℕ) → is_marked self.new.queued.items n ≡ false) }
        ensures none_left { IfNone result (self.new.queued.items ≡ self.old.queued.items) }
        ensures some { IfSome result (λ location. Unqueues location self.old.queue.items self.new.queue.items self.old.queued.items self.new.queued.items) }
    {
        let location = self.queue.pop()?;
        self.queued[location as usize] = false;
        Some(location)
    }

    // Queues the location, unless it is, or no computation assigns it.
    fn push(&mut self, location: u32) -> Result<(), AllocError>
        requires { AreQueued self.old.queue.items self.old.queued.items }
        ensures dead { self.new.dead.items ≡ self.old.dead.items }
        ensures queued { OnOk result (Queues (λ n. n ≡ location) 1 self.old.queue.items self.new.queue.items self.old.queued.items self.new.queued.items) }
    {
        let k = location as usize;
        if k >= self.queued.len() || self.queued[k] {
            return Ok(());
        }
        self.queue.push(location)?;
        self.queued[k] = true;
        Ok(())
    }

    // Queues the locations that the item reads.
    fn push_reads(&mut self, alloc: Global, item: u32, instr: &Instr) -> Result<(), AllocError>
        requires { AreQueued self.old.queue.items self.old.queued.items }
        ensures dead { self.new.dead.items ≡ self.old.dead.items }
        ensures queued { OnOk result (Queues (IsReadBy instr.now) (length (reads_of instr.now)) self.old.queue.items self.new.queue.items self.old.queued.items self.new.queued.items) }
    {
        let reads = item_reads(alloc, item, instr)?;
        for read in reads.as_slice() {
            self.push(read.location)?;
        }
        Ok(())
    }

    // Adds the item, unless it is dead.
    fn push_alive(&self, alive: &mut Vec<u32>, item: u32) -> Result<(), AllocError>
        requires { item < length self.now.dead.items }
        ensures { OnOk result (alive.new.items ≡ alive.old.items ++ (if is_marked self.now.dead.items item then [] else (item ∷ []))) }
    {
        if !self.dead[item as usize] {
            alive.push(item)?;
        }
        Ok(())
    }

    // Those of the items that aren't dead.
    fn alive(&self, alloc: Global, items: &[u32]) -> Result<Vec<u32>, AllocError>
        requires { All (λ item. item < length self.now.dead.items) items.now }
        ensures { IfOk result (λ alive. (item : ℕ) → Contains alive.items item ↔ (Contains items.now item × (is_marked self.now.dead.items item ≡ false))) }
    {
        let mut alive = Vec::new(alloc);
        for item in items {
            self.push_alive(&mut alive, *item)?;
        }
        Ok(alive)
    }

    // Finds where the location is live, by the items that read it and aren't dead.
    fn search(
        &self,
        alloc: Global,
        _func: &Func,
        flow: &Flow,
        reached: &mut Reached,
        location: u32,
    ) -> Result<(), AllocError>
        requires sound { IsSound _func.now.code self.now.dead.items }
        requires none { NoneIdle _func.now.code self.now.dead.items }
        requires total { flow.now.points ≡ length _func.now.code + 1 }
        requires points { reached.old.nodes ≡ flow.now.points }
        requires reads { flow.now.reads.list ≡ reads_from 0 _func.now.code }
        requires arcs { AreBackArcs _func.now.code flow.now.arcs }
        ensures points { reached.new.nodes ≡ reached.old.nodes }
        ensures searched { OnOk result (IsSearched _func.now.code self.now.dead.items self.now.queued.items location reached.new.found) }
    {
        let readers = flow.reads().items(alloc, location)?;
        let alive = self.alive(alloc, readers.as_slice())?;
        flow.search(reached, alive.as_slice(), location)?;
        Ok(())
    }

    // Looks at an item that assigns the location: it is dead, where it isn't live at the next point.
    fn look_at_item(
        &mut self,
        alloc: Global,
        func: &Func,
        reached: &Reached,
        item: u32,
        _location: u32,
    ) -> Result<(), AllocError>
        requires few { length func.now.code < 2 ^ 32 - 1 }
        requires looking { IsLooking func.now.code self.old.dead.items self.old.queue.items self.old.queued.items _location reached.now.found }
        requires item { Accesses (assignments_from 0 func.now.code) _location item }
        requires points { reached.now.nodes ≡ length func.now.code + 1 }
        ensures count { OnOk result (length self.new.queued.items ≡ length self.old.queued.items) }
        ensures looking { OnOk result (IsLooking func.now.code self.new.dead.items self.new.queue.items self.new.queued.items _location reached.now.found) }
        ensures looked { OnOk result (IsLookedAt self.new.dead.items reached.now.found item) }
        ensures kept { OnOk result ((k : ℕ) → is_marked self.old.dead.items k ≡ true → is_marked self.new.dead.items k ≡ true) }
        ensures less { OnOk result (reads_left (remaining func.now.code self.new.dead.items) + length self.new.queue.items ≤ reads_left (remaining func.now.code self.old.dead.items) + length self.old.queue.items) }
    {
        if self.dead[item as usize] || reached.is_marked(item + 1) {
            return Ok(());
        }
        self.dead[item as usize] = true;
        self.push_reads(alloc, item, &func.code.as_slice()[item as usize])?;
        Ok(())
    }

    // Looks at items that assign the location.
    fn look_at_items(
        &mut self,
        alloc: Global,
        func: &Func,
        reached: &Reached,
        items: &[u32],
        location: u32,
    ) -> Result<(), AllocError>
        requires few { length func.now.code < 2 ^ 32 - 1 }
        requires looking { IsLooking func.now.code self.old.dead.items self.old.queue.items self.old.queued.items location reached.now.found }
        requires items { All (Accesses (assignments_from 0 func.now.code) location) items.now }
        requires points { reached.now.nodes ≡ length func.now.code + 1 }
        ensures count { OnOk result (length self.new.queued.items ≡ length self.old.queued.items) }
        ensures looking { OnOk result (IsLooking func.now.code self.new.dead.items self.new.queue.items self.new.queued.items location reached.now.found) }
        ensures looked { OnOk result (All (IsLookedAt self.new.dead.items reached.now.found) items.now) }
        ensures less { OnOk result (reads_left (remaining func.now.code self.new.dead.items) + length self.new.queue.items ≤ reads_left (remaining func.now.code self.old.dead.items) + length self.old.queue.items) }
    {
        for item in items {
            self.look_at_item(alloc, func, reached, *item, location)?;
        }
        Ok(())
    }

    // Looks at a location: its computations are dead, where it isn't live at the next point.
    fn look_at(
        &mut self,
        alloc: Global,
        func: &Func,
        flow: &Flow,
        assignments: &AccessLists,
        reached: &mut Reached,
        location: u32,
    ) -> Result<(), AllocError>
        requires few { length func.now.code < 2 ^ 32 - 1 }
        requires inside { location < length self.old.queued.items }
        requires work { IsWork func.now.code self.old.dead.items self.old.queue.items self.old.queued.items (λ n. n ≡ location) }
        requires total { flow.now.points ≡ length func.now.code + 1 }
        requires points { reached.old.nodes ≡ flow.now.points }
        requires reads { flow.now.reads.list ≡ reads_from 0 func.now.code }
        requires arcs { AreBackArcs func.now.code flow.now.arcs }
        requires location { location < assignments.now.locations }
        requires assignments { assignments.now.list ≡ assignments_from 0 func.now.code }
        ensures points { reached.new.nodes ≡ reached.old.nodes }
        ensures count { OnOk result (length self.new.queued.items ≡ length self.old.queued.items) }
        ensures work { OnOk result (IsWork func.now.code self.new.dead.items self.new.queue.items self.new.queued.items (λ n. ⊥)) }
        ensures less { OnOk result (reads_left (remaining func.now.code self.new.dead.items) + length self.new.queue.items ≤ reads_left (remaining func.now.code self.old.dead.items) + length self.old.queue.items) }
    {
        self.search(alloc, func, flow, reached, location)?;
        let items = assignments.items(alloc, location)?;
        self.look_at_items(alloc, func, reached, items.as_slice(), location)?;
        Ok(())
    }
}
