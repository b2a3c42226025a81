// The interpreter: how it begins, and what it tells.

ghost use Rattle.std.specs.Prelude.{◌≡◌, false, None, Some, IfOk, MatchOption};
ghost use Rattle.std.specs.Option.{option_map};
ghost use Rattle.bril_tree.specs.Run.{FitMain, first_state};

use crate::answer::Here;
use crate::callers::Callers;
use crate::frame::Frame;
use crate::locals::Locals;
use crate::lookup::{items_of, variables_of};
use crate::operand::number_at;
use crate::table::{Table, shades_in, tables_of};
use bril_checker::Checked;
use bril_heap::Cells;
use bril_tree::limits::{End, Fault, Limits};
use bril_tree::numbered::Instr;
use bril_tree::sequence::Seq;
use bril_tree::value::Value;
use std::alloc::{AllocError, Global};
use std::marker::Model;

/// A running program: its frames and its memory, but not what it printed. It borrows the program.
#[derive(Drop)]
pub struct Interp<'a> {
    pub(crate) checked: &'a Checked,
    pub(crate) limits: Limits,
    pub(crate) newest: Frame,
    pub(crate) older: Callers,
    pub(crate) cells: Cells,
    pub(crate) ended: Option<End>,
    pub(crate) tables: Vec<Table>,
    pub(crate) failed: bool,
}

impl<'a> Model for Interp<'a> {
    ghost use Rattle.std.specs.Prelude.{map};
    ghost use Rattle.bril_interpreter.specs.Interpreter.{InterpView, IsInterp};

    ghost Value = { InterpView };

    ghost view = { λ i. record {
      checked = i.checked.now;
      limits = i.limits;
      newest = i.newest;
      older = i.older;
      cells = i.cells;
      ended = i.ended;
      failures = map (λ t. t.failures) i.tables.items;
      has_failed = i.failed;
    } };

    ghost invariant = { λ i. IsInterp i.checked.now.prog i.limits i.newest i.older i.cells i.tables.items };
}

impl<'a> Interp<'a> {
    ghost use Rattle.bril_tree.specs.Step.{code_of, point_of};
    ghost use Rattle.bril_tree.specs.Outcome.{argument};
    ghost use Rattle.bril_interpreter.specs.Interpreter.{state_of, under, newest_frame, place_in, value_in};
    ghost use Rattle.bril_interpreter.specs.Steps.{newest_of, item_of, IsAtItem, HasDest, Did, Makes};
    ghost use Rattle.bril_tree.specs.Step.{gives, advances, jumps, faulted};

    /// A run of the program under the limits, at the first item of `main` with these arguments. It makes the counts of
    /// the guards. Fails only for want of memory.
    pub fn new(
        alloc: Global,
        prog: &'a Checked,
        limits: Limits,
        args: &[Value],
    ) -> Result<Interp<'a>, AllocError>
        requires { FitMain prog.now.prog args.now }
        ensures state { IfOk result (λ made. state_of made ≡ first_state prog.now.prog limits args.now) }
        ensures checked { IfOk result (λ made. made.checked ≡ prog.now) }
        ensures limits { IfOk result (λ made. made.limits ≡ limits) }
        ensures sound { IfOk result (λ made. made.has_failed ≡ false) }
    {
        let program = prog.prog();
        let main = program.main;
        let tables = tables_of(alloc, program.funcs.as_slice())?;
        let shades = shades_in(tables.as_slice(), main);
        let locations = Locals::start(alloc, args, variables_of(program, main), shades)?;
        let newest = Frame::start(alloc, main, locations)?;
        Ok(Interp {
            checked: prog,
            limits,
            newest,
            older: Callers::none(alloc),
            cells: Cells::new(alloc, limits.cells),
            ended: None,
            tables,
            failed: false,
        })
    }

    /// Where the run stands; None exactly where it ended. Takes no memory.
    pub fn here(&self) -> Option<Here>
        ensures { result ≡ option_map place_in (newest_frame (state_of self.now)) }
    {
        if self.ended.is_some() {
            return None;
        }
        Some(Here {
            func: self.newest.function(),
            item: self.newest.point() as u32,
            depth: self.newest.depth().min(u32::MAX as usize) as u32,
        })
    }

    /// How often the guard at an item of a function failed, a count that stays at `u64::MAX`; 0 where there is no such
    /// guard. Takes no memory.
    pub fn fails(&self, func: u32, item: u32) -> u64
        ensures { result ≡ (state_of self.now).failures func item }
    {
        match self.tables.get(func as usize) {
            Some(table) => table.failures(item as usize),
            None => 0,
        }
    }

    /// The program. Takes no memory.
    pub fn prog(&self) -> &Checked
        ensures { result.now ≡ self.now.checked }
    {
        self.checked
    }

    /// What the variable of that number holds in the newest frame; None exactly where the run ended or nothing was
    /// assigned to it. Takes no memory.
    pub fn value(&self, var: u32) -> Option<Value>
        ensures { result ≡ value_in var (newest_frame (state_of self.now)) }
    {
        if self.ended.is_some() {
            return None;
        }
        self.newest.locations().entry(var)
    }

    // The items of the newest frame's function.
    fn code(&self) -> &'a [Instr]
        ensures { result.now ≡ code_of self.now.checked.prog self.now.newest.function }
    {
        let checked = self.checked;
        items_of(checked.prog(), self.newest.function())
    }

    // The item at which the newest frame stands; None at its function's end.
    pub(crate) fn item(&self) -> Option<&'a Instr>
        ensures { MatchOption result (item_of self.now ≡ None) (λ item. item_of self.now ≡ Some item.now) }
    {
        self.code().get(self.newest.point())
    }

    // The point of a label of the newest frame's function.
    fn label_point(&self, label: u32) -> usize
        ensures { result ≡ point_of label (code_of self.now.checked.prog self.now.newest.function) }
    {
        let end = self.code().len();
        match self.tables.get(self.newest.function() as usize) {
            Some(table) => table.point_of(label, end),
            None => end,
        }
    }

    // The argument at a place of an instruction of the newest frame.
    pub(crate) fn argument(&self, args: &Seq<u32>, place: usize) -> Value
        ensures { result ≡ argument (newest_of self.now).locations args.now place }
    {
        self.newest.locations().variable(number_at(args, place))
    }

    // The next point alone.
    pub(crate) fn advance(&mut self)
        requires { IsAtItem self.old }
        ensures { Makes self.old (under self.old advances) self.new }
    {
        self.newest.advance();
    }

    // The value for the destination, where there is one, and the next point.
    pub(crate) fn give(&mut self, dest: Option<u32>, value: Value)
        requires item { IsAtItem self.old }
        requires dest { HasDest self.old dest }
        ensures { Makes self.old (under self.old gives dest value) self.new }
    {
        self.newest.assign(dest, value);
        self.newest.advance();
    }

    // The point of a label.
    pub(crate) fn jump(&mut self, label: u32)
        ensures { Makes self.old (under self.old jumps label) self.new }
    {
        let point = self.label_point(label);
        self.newest.go_to(point);
    }

    // The run ends by a fault.
    pub(crate) fn fault(&mut self, kind: Fault)
        ensures { Did self.old (faulted kind (state_of self.old)) self.new }
    {
        self.ended = Some(End::Faulted(kind));
    }
}
