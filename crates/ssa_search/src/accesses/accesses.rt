// What the blocks of a function read before they assign it, and what they assign first.

ghost use Rattle.std.specs.Prelude.{◌≡◌, ◌<◌, ◌*◌, ◌^◌, ◌-◌, ◌++◌, ℕ, suc, None, Some, is_some, length, slice_index, slice_get, MatchOption, IfOk, OnOk, true};
ghost use Rattle.std.specs.List.{All};
ghost use Rattle.bril_tree.specs.Shape.{shape_fault_of};
ghost use Rattle.bril_tree.specs.Walk.{IsReached};
ghost use Rattle.flow_graph.specs.Graph.{IsGraphOf};
ghost use Rattle.ssa_search.specs.accesses.Accesses.{AreAccessesBefore, AreBlockAccesses, exposed_if, exposed_read, exposed_reads, first_write, last_behind};
ghost use Rattle.ssa_search.specs.placing.Wanted.{head_of, is_label};

use crate::placing::is_label_at;
use bril_tree::numbered::Instr;
use bril_tree::numbered_function::Func;
use flow_graph::{Access, AccessLists, Graph, assigned_number, item_reads};
use graph_search::number_of_length;
use std::alloc::{AllocError, Global};

/// For each location the labels of the blocks that read it before they assign it, in the place of items, and the points that
/// assign it first in their blocks.
#[derive(Drop)]
pub struct BlockAccesses {
    pub exposed: AccessLists,
    pub firsts: AccessLists,
}

// Adds a read, where its location wasn't assigned from the head on.
fn push_read(
    exposed: &mut Vec<Access>,
    read: Access,
    last: &[u32],
    head: u32,
) -> Result<(), AllocError>
    requires { read.location < length last.now }
    ensures { OnOk result (exposed.new.items ≡ exposed.old.items ++ exposed_read head last.now read) }
{
    if last[read.location as usize] <= head {
        exposed.push(Access {
            item: head,
            location: read.location,
        })?;
    }
    Ok(())
}

// Adds those of these reads whose locations weren't assigned from the head on.
fn push_reads(
    exposed: &mut Vec<Access>,
    reads: &[Access],
    last: &[u32],
    head: u32,
) -> Result<(), AllocError>
    requires { All (λ read. read.location < length last.now) reads.now }
    ensures { OnOk result (exposed.new.items ≡ exposed.old.items ++ exposed_reads head last.now reads.now) }
{
    for read in reads {
        push_read(exposed, *read, last, head)?;
    }
    Ok(())
}

// The same, where the reads count.
fn push_exposed(
    exposed: &mut Vec<Access>,
    counts: bool,
    reads: &[Access],
    last: &[u32],
    head: u32,
) -> Result<(), AllocError>
    requires { All (λ read. read.location < length last.now) reads.now }
    ensures { OnOk result (exposed.new.items ≡ exposed.old.items ++ exposed_if counts head last.now reads.now) }
{
    if !counts {
        return Ok(());
    }
    push_reads(exposed, reads, last, head)
}

// Adds an assignment, where the location wasn't assigned from the head on, and notes it.
fn note_assigned(
    firsts: &mut Vec<Access>,
    last: &mut Vec<u32>,
    location: Option<u32>,
    point: u32,
    head: u32,
) -> Result<(), AllocError>
    requires within { MatchOption location (Unit {0}) (λ x. x < length last.old.items) }
    requires few { point < 2 ^ 32 - 1 }
    ensures firsts { OnOk result (firsts.new.items ≡ firsts.old.items ++ first_write point head last.old.items location) }
    ensures last { OnOk result (last.new.items ≡ last_behind point last.old.items location) }
{
    if let Some(x) = location {
        if last[x as usize] <= head {
            firsts.push(Access {
                item: point,
                location: x,
            })?;
        }
        last[x as usize] = point + 1;
    }
    Ok(())
}

// Whether the reads at a point count: walks lead to it, and its block begins with a label.
fn counts_at(code: &[Instr], graph: &Graph, point: u32, head: u32) -> bool
    requires graph { IsGraphOf code.now graph.now }
    requires point { point < length code.now }
    ensures reached { result ≡ true → IsReached code.now point }
    ensures label { result ≡ true → is_label (slice_get code.now head) ≡ true }
    ensures both { IsReached code.now point → is_label (slice_get code.now head) ≡ true → result ≡ true }
{
    if !is_label_at(code, head) {
        return false;
    }
    graph.reach(point)
}

// One past the last point so far that assigns each of two locations for so many variables: none.
fn none_assigned(alloc: Global, variables: usize) -> Result<Vec<u32>, AllocError>
    ensures long { IfOk result (λ last. length last.items ≡ 2 * variables) }
    ensures none { IfOk result (λ last. (x : ℕ) → slice_index last.items x ≡ 0) }
{
    let mut last = Vec::new(alloc);
    for _x in 0..variables {
        last.push(0)?;
        last.push(0)?;
    }
    Ok(last)
}

// The accesses in rows by their locations. As many as 2^32 - 1 are taken to need more memory than there is.
fn access_lists(alloc: Global, list: Vec<Access>) -> Result<AccessLists, AllocError>
    ensures { IfOk result (λ accesses. accesses.list ≡ list.items) }
{
    number_of_length(list.len())?;
    AccessLists::of(alloc, list)
}

// Passes an item: its reads, and then its assignment.
fn pass_item(
    alloc: Global,
    func: &Func,
    graph: &Graph,
    point: u32,
    head: u32,
    last: &mut Vec<u32>,
    exposed: &mut Vec<Access>,
    firsts: &mut Vec<Access>,
) -> Result<(), AllocError>
    requires shaped { shape_fault_of (is_some func.now.ret) func.now.code ≡ None }
    requires few { length func.now.code < 2 ^ 32 - 1 }
    requires graph { IsGraphOf func.now.code graph.now }
    requires point { point < length func.now.code }
    requires head { head ≡ head_of func.now.code point }
    requires long { length last.old.items ≡ 2 * length func.now.vars }
    requires before { AreAccessesBefore func.now.code point last.old.items exposed.old.items firsts.old.items }
    ensures long { OnOk result (length last.new.items ≡ 2 * length func.now.vars) }
    ensures behind { OnOk result (AreAccessesBefore func.now.code (suc point) last.new.items exposed.new.items firsts.new.items) }
{
    let code = func.code.as_slice();
    let item = &code[point as usize];
    let reads = item_reads(alloc, point, item)?;
    let counts = counts_at(code, graph, point, head);
    push_exposed(exposed, counts, reads.as_slice(), last.as_slice(), head)?;
    let location = assigned_number(item)?;
    note_assigned(firsts, last, location, point, head)?;
    Ok(())
}

/// What the blocks of a function read before they assign it, and what they assign first. `heads` has the head of each point's
/// block. Takes time and memory in proportion to the items, their arguments and the variables. The only error is want of memory,
/// which a function is taken to have that names a variable of a number from 2^31 on, or has 2^32 - 1 or more of these reads or of
/// these assignments.
pub(crate) fn block_accesses(
    alloc: Global,
    func: &Func,
    graph: &Graph,
    heads: &[u32],
) -> Result<BlockAccesses, AllocError>
    requires shaped { shape_fault_of (is_some func.now.ret) func.now.code ≡ None }
    requires few { length func.now.code < 2 ^ 32 - 1 }
    requires graph { IsGraphOf func.now.code graph.now }
    requires long { length heads.now ≡ length func.now.code }
    requires heads { (point : ℕ) → point < length func.now.code → slice_index heads.now point ≡ head_of func.now.code point }
    ensures { IfOk result (λ accesses. AreBlockAccesses func.now.code accesses.exposed.list accesses.firsts.list) }
{
    let mut last = none_assigned(alloc, func.vars.as_slice().len())?;
    let mut exposed = Vec::new(alloc);
    let mut firsts = Vec::new(alloc);
    for point in 0..heads.len() {
        pass_item(
            alloc,
            func,
            graph,
            point as u32,
            heads[point],
            &mut last,
            &mut exposed,
            &mut firsts,
        )?;
    }
    Ok(BlockAccesses {
        exposed: access_lists(alloc, exposed)?,
        firsts: access_lists(alloc, firsts)?,
    })
}
