// The table of constants of a function.

ghost use Rattle.std.specs.Prelude.{◌≡◌, ◌⊎◌, ◌<◌, ◌≤◌, ◌+◌, ◌*◌, ◌^◌, ◌-◌, [], ◌∷◌, ℕ, IfOk, IfSome, None, is_some, length, slice_get, true};
ghost use Rattle.bril_tree.specs.Operand.{Location, Shadow, Variable};
ghost use Rattle.bril_tree.specs.Shape.{shape_fault_of};
ghost use Rattle.flow_graph.specs.Reads.{reads_from};
ghost use Rattle.constant_pass.specs.constants.Answer.{answer};
ghost use Rattle.constant_pass.specs.constants.Consistent.{IsAtMost, IsConsistent, Table};
ghost use Rattle.graph_search.specs.Marks.{is_marked};
ghost use Rattle.constant_pass.specs.constants.Kept.{kept, told};
ghost use Rattle.constant_pass.specs.constants.Ways.{item_condition};
ghost use Rattle.constant_pass.specs.constants.Work.{IsWork};
ghost use Rattle.constant_pass.specs.declared.constants.known.Known.TheVariants.{Many, Nothing};

use crate::constants::answer::{answer, shadow, variable};
use crate::constants::known::Known;
use crate::constants::work::{Work, condition, settled};
use bril_checker::Checked;
use bril_tree::numbered::Instr;
use bril_tree::numbered_function::Func;
use flow_graph::{AccessLists, all_reads};
use graph_search::{is_marked, number_of_length};
use std::alloc::{AllocError, Global};

/// What is known of each variable and each shadow of a function, and which of its points are reached as far as is known.
#[derive(Drop)]
pub struct ConstTable {
    known: Vec<Known>,
    reached: Vec<bool>,
}

impl ConstTable {
    /// What is known of a variable in all runs of the function; nothing where the function hasn't so many. Takes no memory.
    pub fn var(&self, var: u32) -> Known
        ensures { result ≡ (told self.now).known (Variable var) }
    {
        variable(self.known.as_slice(), var)
    }

    /// What is known of a variable's shadow. Takes no memory.
    pub fn shadow(&self, var: u32) -> Known
        ensures { result ≡ (told self.now).known (Shadow var) }
    {
        shadow(self.known.as_slice(), var)
    }

    /// The answer of an item's row in the table of operations, by what is known of the locations that it reads: nothing where
    /// nothing is known of one of them, else many where one may be many, else what the item gives. A fault, a pointer, a
    /// `load` and a `call` may be many. Takes no memory, and time in proportion to what the item reads.
    pub fn answer(&self, item: &Instr) -> Known
        ensures { result ≡ answer (told self.now).known item.now }
    {
        answer(self.known.as_slice(), item)
    }

    /// What is known of the condition of a `br` or a `guard`, which is its first argument; many for a label and a `const`. Takes
    /// no memory.
    pub fn condition(&self, item: &Instr) -> Known
        ensures { result ≡ item_condition (told self.now).known item.now }
    {
        condition(self.known.as_slice(), item)
    }

    /// Whether the point is reached, as far as is known: from the first item on a reached item leads to the points of its
    /// branches, a `br` or `guard` to those alone to which its condition may lead. Takes no memory.
    pub fn reached(&self, point: u32) -> bool
        ensures { result ≡ (told self.now).reached point }
    {
        is_marked(self.reached.as_slice(), point as usize)
    }
}

/// The table of constants of the function of a number: it is consistent, and at or below every consistent table, at each
/// variable, each shadow and each point. Takes time and memory in proportion to the items of the function and their operands.
/// An error means that there is no memory; a function that names a variable of a number from 2^31 on, or has 2^32 - 1 reads
/// or more, is taken to need more.
pub fn table(alloc: Global, prog: &Checked, func: u32) -> Result<ConstTable, AllocError>
    requires { func < length prog.now.prog.funcs }
    ensures consistent { IfOk result (λ table. IfSome (slice_get prog.now.prog.funcs func) (λ f. IsConsistent f.code f.args (told table))) }
    ensures least { IfOk result (λ table. IfSome (slice_get prog.now.prog.funcs func) (λ f. (u : Table) → IsConsistent f.code f.args u → IsAtMost (told table) u)) }
{
    let prog = prog.prog();
    table_in(alloc, &prog.funcs.as_slice()[func as usize])
}

// The table of a function.
pub(crate) fn table_in(alloc: Global, func: &Func) -> Result<ConstTable, AllocError>
    requires shaped { shape_fault_of (is_some func.now.ret) func.now.code ≡ None }
    requires few { length func.now.code < 2 ^ 32 - 1 }
    ensures consistent { IfOk result (λ table. IsConsistent func.now.code func.now.args (told table)) }
    ensures least { IfOk result (λ table. (u : Table) → IsConsistent func.now.code func.now.args u → IsAtMost (told table) u) }
{
    let labels = func.label_points(alloc)?;
    let reads = reads_of(alloc, func.code.as_slice())?;
    let first = first_work(alloc, func)?;
    let done = settled(alloc, func, labels.as_slice(), &reads, first)?;
    Ok(ConstTable {
        known: done.known,
        reached: done.reached,
    })
}

// The reads of all items, by their locations. As many as 2^32 - 1 are taken to need more memory than there is.
fn reads_of(alloc: Global, code: &[Instr]) -> Result<AccessLists, AllocError>
    requires { length code.now < 2 ^ 32 - 1 }
    ensures { IfOk result (λ reads. reads.list ≡ reads_from 0 code.now) }
{
    let reads = all_reads(alloc, code)?;
    number_of_length(reads.len())?;
    AccessLists::of(alloc, reads)
}

// At first arguments may be many, and nothing is known of any other location. A function with 2^32 variables or more is taken to
// need more memory than there is.
fn first_known(alloc: Global, args: u32, variables: usize) -> Result<Vec<Known>, AllocError>
    requires few { args ≤ variables }
    ensures arguments { IfOk result (λ known. (x : ℕ) → x < args → kept known.items (Variable x) ≡ Many) }
    ensures others { IfOk result (λ known. (x : Location) → (kept known.items x ≡ Nothing) ⊎ ((y : ℕ) × (y < args) × (x ≡ Variable y))) }
{
    if variables > u32::MAX as usize {
        return Err(AllocError);
    }
    let mut known = vec![in alloc; Known::Nothing; 2 * variables]?;
    for x in 0..args {
        known[2 * x as usize] = Known::Many;
    }
    Ok(known)
}

// At first the first item alone is reached.
fn first_marks(alloc: Global, points: usize) -> Result<Vec<bool>, AllocError>
    requires { 0 < points }
    ensures long { IfOk result (λ marks. length marks.items ≡ points) }
    ensures first { IfOk result (λ marks. is_marked marks.items 0 ≡ true) }
    ensures others { IfOk result (λ marks. (p : ℕ) → is_marked marks.items p ≡ true → p ≡ 0) }
{
    let mut marks = vec![in alloc; false; points]?;
    marks[0] = true;
    Ok(marks)
}

// The first item is to be looked at.
fn first_points(alloc: Global) -> Result<Vec<u32>, AllocError>
    ensures { IfOk result (λ points. points.items ≡ 0 ∷ []) }
{
    let mut points = Vec::new(alloc);
    points.push(0)?;
    Ok(points)
}

// The work at first.
fn first_work(alloc: Global, func: &Func) -> Result<Work, AllocError>
    requires { length func.now.code < 2 ^ 32 - 1 }
    ensures long { IfOk result (λ work. length work.reached.items ≡ length func.now.code + 1) }
    ensures work { IfOk result (λ work. IsWork func.now work.known.items work.reached.items work.points.items work.risen.items []) }
{
    Ok(Work {
        known: first_known(alloc, func.args, func.vars.as_slice().len())?,
        reached: first_marks(alloc, func.code.as_slice().len() + 1)?,
        points: first_points(alloc)?,
        risen: Vec::new(alloc),
    })
}
