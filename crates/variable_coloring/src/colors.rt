// Colors of variables: classes of those that may have one name, as large as can be.

ghost use Rattle.std.specs.Prelude.{◌≡◌, ◌<◌, ◌≤◌, ◌^◌, ◌-◌, ℕ, suc, true, false, None, IfNone, IfOk, IfSome, OnOk, is_some, length, slice_index, slice_set};
ghost use Rattle.bril_tree.specs.Live.{IsLive};
ghost use Rattle.bril_tree.specs.Operand.{Variable};
ghost use Rattle.bril_tree.specs.Shape.{shape_fault_of};
ghost use Rattle.bril_tree.specs.Sites.{AreSitesSound};
ghost use Rattle.flow_graph.specs.Graph.{IsGraphOf};
ghost use Rattle.graph_search.specs.Marks.{is_marked};
ghost use Rattle.variable_coloring.specs.Colors.{AreColors};
ghost use Rattle.variable_coloring.specs.Growing.{AreHeadsIn, AreMet, FitsIn, IsFirstIn, IsLookingIn, IsSecondIn, IsStateIn, NoneFitsAtAllIn, NoneFitsIn, PlacesIn, base_number, row_at, row_of, type_row};
ghost use Rattle.variable_coloring.specs.Pairs.{ArePairs};

use crate::classes::Classes;
use crate::copies::copies_in;
use crate::late::late_pairs;
use crate::pairs::pairs_in;
use crate::rows::Rows;
use crate::softs::Softs;
use crate::wishes::Wishes;
use bril_tree::numbered_function::Func;
use bril_tree::types::{Base, Ty};
use flow_graph::{AccessLists, Graph};
use std::alloc::{AllocError, Global};

// How many rows types have.
const ROWS: usize = 100;

// How many variables there are at most: each has two turns, which have numbers.
const MOST: usize = 0x7FFF_FFFF;

// Classes, and their heads in rows by their types: those of classes with a variable whose shadow items name, and the others.
#[derive(Drop)]
struct Colors {
    classes: Classes,
    shadowed: Rows,
    plain: Rows,
}

// The number of a base.
fn base_number(base: Base) -> usize
    ensures { result ≡ base_number base }
{
    match base {
        Base::Int => 0,
        Base::Bool => 1,
        Base::Char => 2,
    }
}

// The row of a type.
fn type_row(ty: Option<Ty>) -> usize
    ensures row { result ≡ type_row ty }
    ensures few { result < 100 }
{
    match ty {
        None => 0,
        Some(ty) => 1 + 3 * ty.depth as usize + base_number(ty.base),
    }
}

// The row of a variable's type.
fn row_of(func: &Func, x: u32) -> usize
    requires { x < length func.now.vars }
    ensures row { result ≡ row_of func.now x }
    ensures few { result < 100 }
{
    type_row(func.vars.as_slice()[x as usize].ty)
}

impl Colors {
    // No variable is placed.
    fn new(alloc: Global, func: &Func, wishes: Wishes) -> Result<Colors, AllocError>
        requires { length func.now.vars ≤ 2 ^ 32 }
        ensures { IfOk result (IsFirstIn func.now 0) }
    {
        Ok(Colors {
            classes: Classes::new(alloc, func, wishes)?,
            shadowed: Rows::new(alloc, ROWS)?,
            plain: Rows::new(alloc, ROWS)?,
        })
    }

    // Places x in a class of its own.
    fn open(&mut self, func: &Func, x: u32) -> Result<(), AllocError>
        requires x { x < length func.now.vars }
        requires heads { AreHeadsIn func.now self.old }
        ensures class { self.new.classes.class.items ≡ self.old.classes.class.items }
        ensures placed { self.new.classes.placed.items ≡ slice_set self.old.classes.placed.items x true }
        ensures shadow { self.new.classes.shadow.items ≡ self.old.classes.shadow.items }
        ensures stamps { self.new.classes.stamps.items ≡ self.old.classes.stamps.items }
        ensures heads { OnOk result (AreHeadsIn func.now self.new) }
    {
        self.classes.open(x);
        let row = row_of(func, x);
        if self.classes.is_shadowed(x) {
            self.shadowed.push(row, x)?;
        } else {
            self.plain.push(row, x)?;
        }
        Ok(())
    }

    // The place, in its row, of the head of a class that x, whose shadow items name, may be put into, rather of one that is no
    // last choice.
    fn plain_place(&self, func: &Func, x: u32, turn: u32) -> Option<usize>
        requires few { turn < 2 ^ 32 - 1 }
        requires looking { IsLookingIn func.now x turn self.now }
        ensures within { IfSome result (λ place. place < length (row_at self.now.plain (row_of func.now x))) }
        ensures fits { IfSome result (λ place. FitsIn func.now self.now.classes x turn (slice_index (row_at self.now.plain (row_of func.now x)) place)) }
        ensures none { IfNone result (NoneFitsIn func.now self.now.classes x turn (row_at self.now.plain (row_of func.now x))) }
    {
        let plain = self.plain.row(row_of(func, x));
        match self.classes.find(func, x, turn, plain, false) {
            Some(place) => Some(place),
            None => self.classes.find(func, x, turn, plain, true),
        }
    }

    // Puts x, whose shadow items name, into a class without such a variable, or into one of its own.
    fn put_shadowed(&mut self, func: &Func, x: u32, turn: u32) -> Result<(), AllocError>
        requires few { turn < 2 ^ 32 - 1 }
        requires started { (y : ℕ) → IsLive func.now.code (Variable y) 0 → y < func.now.args }
        requires looking { IsLookingIn func.now x turn self.old }
        requires shadow { is_marked self.old.classes.shadow.items x ≡ true }
        ensures state { OnOk result (IsStateIn func.now (suc turn) self.new) }
        ensures placed { OnOk result (PlacesIn func.now x turn self.old self.new) }
    {
        match self.plain_place(func, x, turn) {
            None => {
                self.open(func, x)?;
                Ok(())
            }
            Some(place) => {
                let row = row_of(func, x);
                let head = self.plain.take(row, place);
                self.shadowed.push(row, head)?;
                self.classes.join(x, head);
                Ok(())
            }
        }
    }

    // The head of a class that x may be put into, rather of one with a variable whose shadow items name: only the others are left
    // to variables of this kind. It is no last choice, unless any will do.
    fn fitting(&self, func: &Func, x: u32, turn: u32, any: bool) -> Option<u32>
        requires few { turn < 2 ^ 32 - 1 }
        requires looking { IsLookingIn func.now x turn self.now }
        ensures some { IfSome result (FitsIn func.now self.now.classes x turn) }
        ensures none { any ≡ true → IfNone result (NoneFitsAtAllIn func.now self.now.classes x turn) }
    {
        let row = row_of(func, x);
        let shadowed = self.shadowed.row(row);
        let plain = self.plain.row(row);
        match self.classes.find(func, x, turn, shadowed, any) {
            Some(place) => Some(shadowed[place]),
            None => match self.classes.find(func, x, turn, plain, any) {
                Some(place) => Some(plain[place]),
                None => None,
            },
        }
    }

    // The head of a class that x may be put into and that is no last choice, rather of that of one of these variables.
    fn choice(&self, func: &Func, x: u32, turn: u32, variables: &[u32]) -> Option<u32>
        requires few { turn < 2 ^ 32 - 1 }
        requires looking { IsLookingIn func.now x turn self.now }
        ensures { IfSome result (FitsIn func.now self.now.classes x turn) }
    {
        match self.classes.find_of(func, x, turn, variables) {
            Some(head) => Some(head),
            None => self.fitting(func, x, turn, false),
        }
    }

    // Puts x, whose shadow no item names, into a class, rather into that of one of these variables, or into one of its own. Where
    // only one is left that would cost a save, it waits for its second turn.
    fn put_plain(
        &mut self,
        func: &Func,
        x: u32,
        turn: u32,
        variables: &[u32],
    ) -> Result<(), AllocError>
        requires few { turn < 2 ^ 32 - 1 }
        requires started { (y : ℕ) → IsLive func.now.code (Variable y) 0 → y < func.now.args }
        requires looking { IsLookingIn func.now x turn self.old }
        requires shadow { is_marked self.old.classes.shadow.items x ≡ false }
        ensures state { OnOk result (IsStateIn func.now (suc turn) self.new) }
        ensures placed { OnOk result (PlacesIn func.now x turn self.old self.new) }
    {
        if let Some(head) = self.choice(func, x, turn, variables) {
            self.classes.join(x, head);
            return Ok(());
        }
        match self.fitting(func, x, turn, true) {
            None => self.open(func, x)?,
            Some(head) => {
                if self.classes.takes(x, turn, head) {
                    self.classes.join(x, head);
                }
            }
        }
        Ok(())
    }

    // Gives x its turn: these are the variables that meet it, and those that copies relate to it.
    fn put(
        &mut self,
        alloc: Global,
        func: &Func,
        x: u32,
        turn: u32,
        met: &[u32],
        variables: &[u32],
    ) -> Result<(), AllocError>
        requires few { turn < 2 ^ 32 - 1 }
        requires started { (y : ℕ) → IsLive func.now.code (Variable y) 0 → y < func.now.args }
        requires met { AreMet func.now x self.old.classes.placed.items met.now }
        requires below { x < length func.now.vars }
        requires behind { func.now.args ≤ x }
        requires waiting { is_marked self.old.classes.placed.items x ≡ false }
        requires state { IsStateIn func.now turn self.old }
        ensures state { OnOk result (IsStateIn func.now (suc turn) self.new) }
        ensures placed { OnOk result (PlacesIn func.now x turn self.old self.new) }
    {
        self.classes.stamp_all(turn, met);
        self.classes.stamp_wishes(alloc, x, turn)?;
        if self.classes.is_shadowed(x) {
            self.put_shadowed(func, x, turn)?;
        } else {
            self.put_plain(func, x, turn, variables)?;
        }
        Ok(())
    }

    // Gives x its first turn: an argument has a class of its own.
    fn look_at(
        &mut self,
        alloc: Global,
        func: &Func,
        pairs: &AccessLists,
        copies: &AccessLists,
        x: u32,
    ) -> Result<(), AllocError>
        requires few { length func.now.vars ≤ 2 ^ 31 - 1 }
        requires started { (y : ℕ) → IsLive func.now.code (Variable y) 0 → y < func.now.args }
        requires pairs { ArePairs func.now pairs.now.list }
        requires below { x < length func.now.vars }
        requires first { IsFirstIn func.now x self.old }
        ensures { OnOk result (IsFirstIn func.now (suc x) self.new) }
    {
        if x < func.args {
            self.open(func, x)?;
            return Ok(());
        }
        let met = pairs.items(alloc, x)?;
        let variables = copies.items(alloc, x)?;
        self.put(alloc, func, x, x, met.as_slice(), variables.as_slice())?;
        Ok(())
    }

    // Gives x its second turn, unless it is placed.
    fn look_again(
        &mut self,
        alloc: Global,
        func: &Func,
        late: &AccessLists,
        copies: &AccessLists,
        x: u32,
    ) -> Result<(), AllocError>
        requires few { length func.now.vars ≤ 2 ^ 31 - 1 }
        requires started { (y : ℕ) → IsLive func.now.code (Variable y) 0 → y < func.now.args }
        requires below { x < length func.now.vars }
        requires second { IsSecondIn func.now x late.now.list self.old }
        ensures { OnOk result (IsSecondIn func.now (suc x) late.now.list self.new) }
    {
        if self.classes.is_placed(x) {
            return Ok(());
        }
        let turn = self.classes.class.len() as u32 + x;
        let met = late.items(alloc, x)?;
        let variables = copies.items(alloc, x)?;
        self.put(alloc, func, x, turn, met.as_slice(), variables.as_slice())?;
        Ok(())
    }

    // Gives each variable its second turn.
    fn look_again_at_all(
        &mut self,
        alloc: Global,
        func: &Func,
        late: &AccessLists,
        copies: &AccessLists,
    ) -> Result<(), AllocError>
        requires few { length func.now.vars ≤ 2 ^ 31 - 1 }
        requires started { (y : ℕ) → IsLive func.now.code (Variable y) 0 → y < func.now.args }
        requires second { IsSecondIn func.now 0 late.now.list self.old }
        ensures { OnOk result (IsSecondIn func.now (length func.now.vars) late.now.list self.new) }
    {
        for x in 0..func.vars.as_slice().len() {
            self.look_again(alloc, func, late, copies, x as u32)?;
        }
        Ok(())
    }
}

// The classes of a function's variables, as large as can be: for each variable the one that names its class. Takes time in
// proportion to the items, to the pairs of a block of 64 variables and a point where one of them is live, most of which are looked
// at a few times and none more than 64 times, and to the pairs of variables that meet, and memory in proportion to the items and the
// latter. A function with 2^31 variables or more, or 2^32 - 1 of these pairs, is taken to need more memory than there is.
pub(crate) fn colors_in(alloc: Global, func: &Func, graph: &Graph) -> Result<Vec<u32>, AllocError>
    requires shaped { shape_fault_of (is_some func.now.ret) func.now.code ≡ None }
    requires few { length func.now.code < 2 ^ 32 - 1 }
    requires graph { IsGraphOf func.now.code graph.now }
    requires sound { AreSitesSound func.now.code }
    requires started { (x : ℕ) → IsLive func.now.code (Variable x) 0 → x < func.now.args }
    ensures { IfOk result (λ class. AreColors func.now class.items) }
{
    let count = func.vars.as_slice().len();
    if count > MOST {
        return Err(AllocError);
    }
    let mut softs = Softs::of(alloc, func, graph)?;
    let pairs = pairs_in(alloc, func, graph, &mut softs)?;
    let copies = copies_in(alloc, func)?;
    let mut colors = Colors::new(alloc, func, softs.wishes(alloc)?)?;
    for x in 0..count {
        colors.look_at(alloc, func, &pairs, &copies, x as u32)?;
    }
    let late = late_pairs(alloc, func, pairs.list(), colors.classes.placed.as_slice())?;
    colors.look_again_at_all(alloc, func, &late, &copies)?;
    Ok(colors.classes.class)
}
