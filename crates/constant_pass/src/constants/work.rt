// The work lists.

ghost use Rattle.std.specs.Prelude.{◌≡◌, ◌+◌, ◌<◌, ◌≤◌, ◌^◌, ◌-◌, ◌++◌, ◌∷◌, [], ℕ, List, All, None, Some, length, is_some, slice_get, IfOk, OnOk};
ghost use Rattle.bril_tree.specs.Labels.{IsLabelTable};
ghost use Rattle.bril_tree.specs.Shape.{shape_fault_of};
ghost use Rattle.flow_graph.specs.Branches.{HasLabels};
ghost use Rattle.flow_graph.specs.Reads.{reads_from};
ghost use Rattle.constant_pass.specs.constants.Answer.{answer};
ghost use Rattle.graph_search.specs.Marks.{is_marked};
ghost use Rattle.constant_pass.specs.constants.Kept.{kept};
ghost use Rattle.constant_pass.specs.constants.Ways.{chosen, item_condition, item_ways};
ghost use Rattle.constant_pass.specs.constants.Work.{Assigns, IsWork, Raises, Reaches, work_left};

use crate::constants::answer::{answer, entry, known_operand};
use crate::constants::known::Known;
use bril_tree::numbered::Instr;
use bril_tree::numbered_function::Func;
use bril_values::bool_of;
use flow_graph::{AccessLists, Branches, assigned_number, branches_of};
use graph_search::is_marked;
use std::alloc::{AllocError, Global};

// What is known so far of each location, by its number; which points are reached; the reached points that weren't looked at;
// and the locations of which more is known since the items that read them were looked at.
#[derive(Drop)]
pub(crate) struct Work {
    pub known: Vec<Known>,
    pub reached: Vec<bool>,
    pub points: Vec<u32>,
    pub risen: Vec<u32>,
}

// What is known of the condition of an item: of its first argument.
pub(crate) fn condition(known: &[Known], item: &Instr) -> Known
    ensures { result ≡ item_condition (kept known.now) item.now }
{
    match item {
        Instr::Act { args, .. } => known_operand(known, args.as_slice(), 0),
        _ => Known::Many,
    }
}

impl Work {
    // More may be known of the location of a number.
    fn raise(&mut self, number: u32, to: Known) -> Result<(), AllocError>
        ensures reached { self.new.reached.items ≡ self.old.reached.items }
        ensures points { self.new.points.items ≡ self.old.points.items }
        ensures raised { OnOk result (Raises number to self.old.known.items self.new.known.items self.old.risen.items self.new.risen.items) }
    {
        let k = number as usize;
        if k >= self.known.len() {
            return Err(AllocError);
        }
        let old = self.known[k];
        let new = old.joined(to);
        if new.height() == old.height() {
            return Ok(());
        }
        self.known[k] = new;
        self.risen.push(number)?;
        Ok(())
    }

    // The location of a number is assigned by an item: as much is known of it as the item's answer. Where it is many already
    // the answer isn't asked for, so that a call with many arguments is looked through once.
    fn raise_by(&mut self, number: u32, item: &Instr) -> Result<(), AllocError>
        ensures reached { self.new.reached.items ≡ self.old.reached.items }
        ensures points { self.new.points.items ≡ self.old.points.items }
        ensures raised { OnOk result (Raises number (answer (kept self.old.known.items) item.now) self.old.known.items self.new.known.items self.old.risen.items self.new.risen.items) }
    {
        if entry(self.known.as_slice(), number as usize).is_many() {
            return Ok(());
        }
        let to = answer(self.known.as_slice(), item);
        self.raise(number, to)
    }

    // What an item assigns rises to its answer.
    fn assign(&mut self, item: &Instr) -> Result<(), AllocError>
        ensures reached { self.new.reached.items ≡ self.old.reached.items }
        ensures points { self.new.points.items ≡ self.old.points.items }
        ensures assigned { OnOk result (Assigns item.now self.old.known.items self.new.known.items self.old.risen.items self.new.risen.items) }
    {
        match assigned_number(item)? {
            None => Ok(()),
            Some(number) => {
                self.raise_by(number, item)?;
                Ok(())
            }
        }
    }

    // The point is reached.
    fn reach(&mut self, to: u32) -> Result<(), AllocError>
        requires { to < length self.old.reached.items }
        ensures known { self.new.known.items ≡ self.old.known.items }
        ensures risen { self.new.risen.items ≡ self.old.risen.items }
        ensures reaches { OnOk result (Reaches (to ∷ []) self.old.reached.items self.new.reached.items self.old.points.items self.new.points.items) }
    {
        if self.reached[to as usize] {
            return Ok(());
        }
        self.reached[to as usize] = true;
        self.points.push(to)?;
        Ok(())
    }

    // The points are reached to which a condition may lead.
    fn choose(&mut self, condition: Known, first: u32, second: u32) -> Result<(), AllocError>
        requires first { first < length self.old.reached.items }
        requires second { second < length self.old.reached.items }
        ensures known { self.new.known.items ≡ self.old.known.items }
        ensures risen { self.new.risen.items ≡ self.old.risen.items }
        ensures reaches { OnOk result (Reaches (chosen condition first second) self.old.reached.items self.new.reached.items self.old.points.items self.new.points.items) }
    {
        match condition {
            Known::Nothing => Ok(()),
            Known::One(value) => self.reach(if bool_of(value) { first } else { second }),
            Known::Many => {
                self.reach(first)?;
                self.reach(second)?;
                Ok(())
            }
        }
    }

    // The points are reached to which an item leads. `labels` has the point of each label.
    fn follow(
        &mut self,
        func: &Func,
        labels: &[u32],
        point: u32,
        item: &Instr,
    ) -> Result<(), AllocError>
        requires placed { IsLabelTable func.now.code labels.now }
        requires labelled { HasLabels (length labels.now) item.now }
        requires here { slice_get func.now.code point ≡ Some item.now }
        requires few { length func.now.code < 2 ^ 32 - 1 }
        requires long { length self.old.reached.items ≡ length func.now.code + 1 }
        ensures known { self.new.known.items ≡ self.old.known.items }
        ensures risen { self.new.risen.items ≡ self.old.risen.items }
        ensures reaches { OnOk result (Reaches (item_ways (kept self.old.known.items) func.now.code point item.now) self.old.reached.items self.new.reached.items self.old.points.items self.new.points.items) }
    {
        match branches_of(labels, item, point) {
            Branches::Nowhere => Ok(()),
            Branches::Single(branch) => self.reach(branch.to),
            Branches::Either(first, second) => {
                let condition = condition(self.known.as_slice(), item);
                self.choose(condition, first.to, second.to)
            }
        }
    }

    // Looks at a point: where it is reached, what its item assigns rises to the item's answer, and the points to which it
    // leads are reached.
    fn visit(&mut self, func: &Func, labels: &[u32], point: u32) -> Result<(), AllocError>
        requires placed { IsLabelTable func.now.code labels.now }
        requires labelled { All (HasLabels (length labels.now)) func.now.code }
        requires shaped { shape_fault_of (is_some func.now.ret) func.now.code ≡ None }
        requires few { length func.now.code < 2 ^ 32 - 1 }
        requires long { length self.old.reached.items ≡ length func.now.code + 1 }
        ensures long { OnOk result (length self.new.reached.items ≡ length func.now.code + 1) }
        ensures work { OnOk result ((left : List ℕ) → IsWork func.now self.old.known.items self.old.reached.items self.old.points.items self.old.risen.items (point ∷ left) → IsWork func.now self.new.known.items self.new.reached.items self.new.points.items self.new.risen.items left) }
        ensures less { OnOk result (work_left self.new.known.items self.new.reached.items self.new.points.items self.new.risen.items ≤ work_left self.old.known.items self.old.reached.items self.old.points.items self.old.risen.items) }
    {
        if !is_marked(self.reached.as_slice(), point as usize) {
            return Ok(());
        }
        match func.code.as_slice().get(point as usize) {
            None => Ok(()),
            Some(item) => {
                self.assign(item)?;
                self.follow(func, labels, point, item)?;
                Ok(())
            }
        }
    }

    // Looks at the points that became reached, until none is left.
    fn visit_points(&mut self, func: &Func, labels: &[u32]) -> Result<(), AllocError>
        requires placed { IsLabelTable func.now.code labels.now }
        requires labelled { All (HasLabels (length labels.now)) func.now.code }
        requires shaped { shape_fault_of (is_some func.now.ret) func.now.code ≡ None }
        requires few { length func.now.code < 2 ^ 32 - 1 }
        requires long { length self.old.reached.items ≡ length func.now.code + 1 }
        requires work { IsWork func.now self.old.known.items self.old.reached.items self.old.points.items self.old.risen.items [] }
        ensures long { OnOk result (length self.new.reached.items ≡ length func.now.code + 1) }
        ensures work { OnOk result (IsWork func.now self.new.known.items self.new.reached.items self.new.points.items self.new.risen.items []) }
        ensures none { OnOk result (self.new.points.items ≡ []) }
        ensures less { OnOk result (work_left self.new.known.items self.new.reached.items self.new.points.items self.new.risen.items ≤ work_left self.old.known.items self.old.reached.items self.old.points.items self.old.risen.items) }
    {
        while let Some(point) = self.points.pop() {
            self.visit(func, labels, point)?;
        }
        Ok(())
    }

    // Looks again at the items that read the location of a number.
    fn revisit(
        &mut self,
        alloc: Global,
        func: &Func,
        labels: &[u32],
        reads: &AccessLists,
        number: u32,
    ) -> Result<(), AllocError>
        requires placed { IsLabelTable func.now.code labels.now }
        requires labelled { All (HasLabels (length labels.now)) func.now.code }
        requires shaped { shape_fault_of (is_some func.now.ret) func.now.code ≡ None }
        requires few { length func.now.code < 2 ^ 32 - 1 }
        requires long { length self.old.reached.items ≡ length func.now.code + 1 }
        requires reads { reads.now.list ≡ reads_from 0 func.now.code }
        requires work { IsWork func.now self.old.known.items self.old.reached.items self.old.points.items (self.old.risen.items ++ number ∷ []) [] }
        ensures long { OnOk result (length self.new.reached.items ≡ length func.now.code + 1) }
        ensures work { OnOk result (IsWork func.now self.new.known.items self.new.reached.items self.new.points.items self.new.risen.items []) }
        ensures less { OnOk result (work_left self.new.known.items self.new.reached.items self.new.points.items self.new.risen.items ≤ work_left self.old.known.items self.old.reached.items self.old.points.items self.old.risen.items) }
    {
        let items = reads.items(alloc, number)?;
        for item in items.as_slice() {
            self.visit(func, labels, *item)?;
        }
        Ok(())
    }
}

// Looks at points and locations until none is left. Then each reached item is settled, and no more is known than in any
// consistent table.
pub(crate) fn settled(
    alloc: Global,
    func: &Func,
    labels: &[u32],
    reads: &AccessLists,
    work: Work,
) -> Result<Work, AllocError>
    requires placed { IsLabelTable func.now.code labels.now }
    requires labelled { All (HasLabels (length labels.now)) func.now.code }
    requires shaped { shape_fault_of (is_some func.now.ret) func.now.code ≡ None }
    requires few { length func.now.code < 2 ^ 32 - 1 }
    requires long { length work.reached.items ≡ length func.now.code + 1 }
    requires reads { reads.now.list ≡ reads_from 0 func.now.code }
    requires work { IsWork func.now work.known.items work.reached.items work.points.items work.risen.items [] }
    ensures { IfOk result (λ done. IsWork func.now done.known.items done.reached.items [] [] []) }
{
    let mut work = work;
    work.visit_points(func, labels)?;
    while let Some(number) = work.risen.pop() {
        work.revisit(alloc, func, labels, reads, number)?;
        work.visit_points(func, labels)?;
    }
    Ok(work)
}
