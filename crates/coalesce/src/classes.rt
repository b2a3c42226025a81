// Classes of variables, which grow by one variable at a time.

ghost use Rattle.std.specs.Prelude.{◌≡◌, ◌⊎◌, Some, ◌<◌, ◌≤◌, ◌^◌, ◌-◌, ◌&&◌, ℕ, true, false, None, is_some, IfOk, OnOk, length, slice_get, slice_set};
ghost use Rattle.std.specs.List.{All, Contains};
ghost use Rattle.bril_tree.specs.Shape.{shape_fault_of};
ghost use Rattle.bril_tree.specs.Sites.{AreSitesSound};
ghost use Rattle.bril_tree.specs.declared.numbered.Instr.{Instr};
ghost use Rattle.bril_tree.specs.Walk.{IsReached};
ghost use Rattle.flow_graph.specs.Graph.{IsGraphOf};
ghost use Rattle.variable_renaming.specs.Apart.{AreApart};
ghost use Rattle.variable_renaming.specs.Classes.{AreSoundClasses, class_of, source_at};
ghost use Rattle.variable_renaming.specs.Made.{IsCopyWithin};
ghost use Rattle.coalesce.specs.meaning.Merged.{NoneApart};
ghost use Rattle.coalesce.specs.declared.clashes.Clash.{Clash};
ghost use Rattle.coalesce.specs.Rounds.{HasCopyWithin};
ghost use Rattle.graph_search.specs.Marks.{is_marked};
ghost use Rattle.coalesce.specs.Classes.{AreAlone, AreClashes, AreLinkedClasses, Fits, IsLinkedItem, IsNextState, IsRelatedItem, IsRoundState, MayLookAt, Misfits, NoneKeepsApart, NotApart, Relates, SomeKeepsApart, firsts_from, is_source, keeps_apart, shadows_joined};

use crate::clashes::{Clash, clashes_of};
use bril_tree::numbered::Instr;
use bril_tree::numbered_function::Func;
use flow_graph::{Access, AccessLists, Graph};
use graph_search::{is_marked, number_of_length};
use live_sets::Flow;
use std::alloc::{AllocError, Global};
use variable_renaming::{
    Related, are_of_one_type, class_of, dest_of, mark, numbers_below, shadowed_variables, source_of,
};

// The class of each variable, by the variable that names it; which variables are a class alone; which classes have a variable
// whose shadow some item names; and whether any two were joined.
#[derive(Drop)]
pub(crate) struct Classes {
    pub class: Vec<u32>,
    pub alone: Vec<bool>,
    pub shadow: Vec<bool>,
    pub joined: bool,
}

// Clashes, and their places by their first variables.
#[derive(Drop)]
pub(crate) struct ClashRows {
    pub list: Vec<Clash>,
    pub rows: AccessLists,
    ghost keyed: { rows.list ≡ firsts_from 0 list.items },
}

// The places of clashes, by their first variables.
fn first_variables(alloc: Global, list: &[Clash]) -> Result<Vec<Access>, AllocError>
    requires { length list.now < 2 ^ 32 - 1 }
    ensures { IfOk result (λ keys. keys.items ≡ firsts_from 0 list.now) }
{
    let mut keys = Vec::new(alloc);
    for (place, clash) in list.iter().enumerate() {
        keys.push(Access {
            item: place as u32,
            location: clash.one,
        })?;
    }
    Ok(keys)
}

impl ClashRows {
    // The clashes by their first variables. A function with 2^32 - 1 clashes or more is taken to need more memory than there is.
    pub(crate) fn of(alloc: Global, list: Vec<Clash>) -> Result<ClashRows, AllocError>
        ensures { IfOk result (λ rows. rows.list.items ≡ list.items) }
    {
        number_of_length(list.len())?;
        let keys = first_variables(alloc, list.as_slice())?;
        let rows = AccessLists::of(alloc, keys)?;
        Ok(ClashRows { list, rows })
    }

    // The places of the clashes with this first variable.
    fn places(&self, alloc: Global, x: u32) -> Result<Vec<u32>, AllocError>
        ensures within { IfOk result (λ places. All (λ place. place < length self.now.list.items) places.items) }
        ensures all { IfOk result (λ places. (place : ℕ) (c : Clash) → slice_get self.now.list.items place ≡ Some c → c.one ≡ x → Contains places.items place) }
        ensures only { IfOk result (λ places. (place : ℕ) (c : Clash) → slice_get self.now.list.items place ≡ Some c → Contains places.items place → c.one ≡ x) }
    {
        let places = self.rows.items(alloc, x)?;
        Ok(places)
    }
}

// The variable that the item at a point copies.
fn source_at(func: &Func, item: u32) -> Option<u32>
    ensures { result ≡ source_at (slice_get func.now.code item) }
{
    match func.code.as_slice().get(item as usize) {
        None => None,
        Some(item) => source_of(item),
    }
}

// Marks the variables of an item, where it copies one to another.
fn relate(related: &mut Vec<bool>, item: &Instr)
    ensures { Relates item.now related.old.items related.new.items }
{
    if let (Some(x), Some(y)) = (dest_of(item), source_of(item)) {
        mark(related, x);
        mark(related, y);
    }
}

// A mark for each variable that a copy relates to another.
fn related_variables(alloc: Global, func: &Func) -> Result<Vec<bool>, AllocError>
    requires { shape_fault_of (is_some func.now.ret) func.now.code ≡ None }
    ensures long { IfOk result (λ related. length related.items ≡ length func.now.vars) }
    ensures relates { IfOk result (λ related. (point : ℕ) (item : Instr) → slice_get func.now.code point ≡ Some item → IsRelatedItem func.now related.items item) }
{
    let mut related = vec![in alloc; false; func.vars.as_slice().len()]?;
    for item in func.code.as_slice() {
        relate(&mut related, item);
    }
    Ok(related)
}

// The classes of a function's variables: sound, and where no two were joined, no copy is apart. A function with 2^32 variables
// or more is taken to need more memory than there is.
pub(crate) fn classes_in(alloc: Global, func: &Func, graph: &Graph) -> Result<Classes, AllocError>
    requires shaped { shape_fault_of (is_some func.now.ret) func.now.code ≡ None }
    requires few { length func.now.code < 2 ^ 32 - 1 }
    requires graph { IsGraphOf func.now.code graph.now }
    requires sound { AreSitesSound func.now.code }
    ensures are { IfOk result (λ classes. AreSoundClasses func.now classes.class.items) }
    ensures linked { IfOk result (λ classes. AreLinkedClasses func.now classes.class.items) }
    ensures alone { IfOk result (λ classes. classes.joined ≡ false → AreAlone classes.class.items) }
    ensures none { IfOk result (λ classes. classes.joined ≡ false → NoneApart func.now) }
    ensures copied { IfOk result (λ classes. HasCopyWithin func.now classes.class.items classes.joined) }
{
    if func.vars.as_slice().len() > u32::MAX as usize {
        return Err(AllocError);
    }
    let marks = related_variables(alloc, func)?;
    let related = Related {
        func,
        graph,
        marks: marks.as_slice(),
    };
    let flow = Flow::of(alloc, func, graph)?;
    let list = clashes_of(alloc, related, &flow)?;
    let clashes = ClashRows::of(alloc, list)?;
    let mut classes = Classes::new(alloc, func, related.marks)?;
    for (point, item) in func.code.as_slice().iter().enumerate() {
        classes.look_at_point(alloc, related, &clashes, item, point as u32)?;
    }
    Ok(classes)
}

impl Classes {
    // Each variable alone.
    fn new(alloc: Global, func: &Func, _related: &[bool]) -> Result<Classes, AllocError>
        requires { length func.now.vars ≤ 2 ^ 32 }
        ensures state { IfOk result (λ classes. IsRoundState func.now _related.now classes.class.items classes.alone.items classes.shadow.items classes.joined) }
        ensures none { IfOk result (λ classes. classes.joined ≡ false) }
    {
        let count = func.vars.as_slice().len();
        let class = numbers_below(alloc, count)?;
        let alone = vec![in alloc; true; count]?;
        let shadow = shadowed_variables(alloc, func)?;
        Ok(Classes {
            class,
            alone,
            shadow,
            joined: false,
        })
    }

    // The class of a variable.
    fn class_of(&self, x: u32) -> u32
        ensures { result ≡ class_of self.now.class.items x }
    {
        class_of(self.class.as_slice(), x)
    }

    // Whether the source is the variable x, or one of the class.
    fn is_source(&self, source: Option<u32>, x: u32, class: u32) -> bool
        ensures { result ≡ is_source self.now.class.items x class source }
    {
        match source {
            None => false,
            Some(source) => source == x || self.class_of(source) == class,
        }
    }

    // Whether the clash is with a variable of the class, and its item is no copy that becomes one of a variable to itself.
    fn keeps_apart(&self, func: &Func, clash: Clash, class: u32) -> bool
        ensures { result ≡ keeps_apart func.now.code self.now.class.items class clash }
    {
        self.class_of(clash.other) == class
            && !self.is_source(source_at(func, clash.item), clash.one, class)
    }

    // Whether a clash keeps x apart from the class.
    fn clashes(
        &self,
        alloc: Global,
        func: &Func,
        clashes: &ClashRows,
        x: u32,
        class: u32,
    ) -> Result<bool, AllocError>
        ensures some { IfOk result (λ b. b ≡ true → SomeKeepsApart func.now.code clashes.now.list.items self.now.class.items x class) }
        ensures none { IfOk result (λ b. b ≡ false → NoneKeepsApart func.now.code clashes.now.list.items self.now.class.items x class) }
    {
        let places = clashes.places(alloc, x)?;
        for place in places.as_slice() {
            if self.keeps_apart(func, clashes.list[*place as usize], class) {
                return Ok(true);
            }
        }
        Ok(false)
    }

    // Whether both classes have a variable whose shadow some item names.
    fn are_shadowed(&self, x: u32, class: u32) -> bool
        ensures { result ≡ is_marked self.now.shadow.items x && is_marked self.now.shadow.items class }
    {
        is_marked(self.shadow.as_slice(), x as usize)
            && is_marked(self.shadow.as_slice(), class as usize)
    }

    // Whether x may get the name of the class.
    fn fits(
        &self,
        alloc: Global,
        func: &Func,
        clashes: &ClashRows,
        x: u32,
        class: u32,
    ) -> Result<bool, AllocError>
        requires x { x < length func.now.vars }
        requires class { class < length func.now.vars }
        ensures fits { IfOk result (λ b. b ≡ true → Fits func.now clashes.now.list.items self.now.class.items self.now.shadow.items x class) }
        ensures misfits { IfOk result (λ b. b ≡ false → Misfits func.now clashes.now.list.items self.now.class.items self.now.shadow.items x class) }
    {
        if !are_of_one_type(func, x, class) {
            return Ok(false);
        }
        if self.are_shadowed(x, class) {
            return Ok(false);
        }
        if self.clashes(alloc, func, clashes, x, class)? {
            return Ok(false);
        }
        Ok(true)
    }

    // Gives x, which is alone, the name of the class.
    fn put(&mut self, x: u32, class: u32)
        requires class_x { x < length self.old.class.items }
        requires alone_x { x < length self.old.alone.items }
        requires alone_class { class < length self.old.alone.items }
        requires shadow_class { class < length self.old.shadow.items }
        ensures class { self.new.class.items ≡ slice_set self.old.class.items x class }
        ensures alone { self.new.alone.items ≡ slice_set (slice_set self.old.alone.items x false) class false }
        ensures shadow { self.new.shadow.items ≡ shadows_joined self.old.shadow.items x class }
        ensures joined { self.new.joined ≡ true }
    {
        self.class[x as usize] = class;
        self.alone[x as usize] = false;
        self.alone[class as usize] = false;
        if is_marked(self.shadow.as_slice(), x as usize) {
            self.shadow[class as usize] = true;
        }
        self.joined = true;
    }

    // Whether the variable is alone and no argument, so that it may get the name of another.
    fn may_move(&self, func: &Func, x: u32) -> bool
        ensures alone { result ≡ true → is_marked self.now.alone.items x ≡ true }
        ensures past { result ≡ true → func.now.args ≤ x }
        ensures stays { result ≡ false → is_marked self.now.alone.items x ≡ true → x < func.now.args }
    {
        is_marked(self.alone.as_slice(), x as usize) && x >= func.args
    }

    // Puts x, which is alone and no argument, into the class of y, where that may be.
    fn join(
        &mut self,
        alloc: Global,
        related: Related<'_>,
        clashes: &ClashRows,
        x: u32,
        y: u32,
    ) -> Result<(), AllocError>
        requires alone { is_marked self.old.alone.items x ≡ true }
        requires past { related.func.now.args ≤ x }
        requires may { MayLookAt related.func.now related.marks.now clashes.now.list.items self.old.class.items self.old.alone.items self.old.shadow.items self.old.joined x y }
        ensures next { OnOk result (IsNextState related.entry.func.now related.entry.marks.now self.old.class.items self.new.class.items self.new.alone.items self.new.shadow.items self.old.joined self.new.joined) }
        ensures misfits { OnOk result (self.new.joined ≡ false → Misfits related.entry.func.now clashes.now.list.items self.old.class.items self.old.shadow.items x (class_of self.old.class.items y)) }
        ensures within { OnOk result (self.new.joined ≡ true → (self.old.joined ≡ true) ⊎ (class_of self.new.class.items x ≡ class_of self.new.class.items y)) }
    {
        let class = self.class_of(y);
        if self.fits(alloc, related.func, clashes, x, class)? {
            self.put(x, class);
        }
        Ok(())
    }

    // Looks at a copy of y to x: one of them that is alone gets the name of the other's class, where that may be. Two classes
    // that have grown wait for the next round.
    fn look_at_copy(
        &mut self,
        alloc: Global,
        related: Related<'_>,
        clashes: &ClashRows,
        x: u32,
        y: u32,
    ) -> Result<(), AllocError>
        requires may { MayLookAt related.func.now related.marks.now clashes.now.list.items self.old.class.items self.old.alone.items self.old.shadow.items self.old.joined x y }
        ensures next { OnOk result (IsNextState related.entry.func.now related.entry.marks.now self.old.class.items self.new.class.items self.new.alone.items self.new.shadow.items self.old.joined self.new.joined) }
        ensures apart { OnOk result (self.new.joined ≡ false → AreApart related.entry.func.now x y → ⊥) }
        ensures within { OnOk result (self.new.joined ≡ true → (self.old.joined ≡ true) ⊎ (class_of self.new.class.items x ≡ class_of self.new.class.items y)) }
    {
        if self.may_move(related.func, x) {
            self.join(alloc, related, clashes, x, y)?;
            return Ok(());
        }
        if self.may_move(related.func, y) {
            self.join(alloc, related, clashes, y, x)?;
        }
        Ok(())
    }

    // Looks at an item, where it copies one variable to another.
    pub(crate) fn look_at(
        &mut self,
        alloc: Global,
        related: Related<'_>,
        clashes: &ClashRows,
        item: &Instr,
    ) -> Result<(), AllocError>
        requires clashes { AreClashes related.func.now.code related.marks.now clashes.now.list.items }
        requires state { IsRoundState related.func.now related.marks.now self.old.class.items self.old.alone.items self.old.shadow.items self.old.joined }
        requires related { IsRelatedItem related.func.now related.marks.now item.now }
        requires linked { IsLinkedItem related.func.now item.now }
        ensures next { OnOk result (IsNextState related.entry.func.now related.entry.marks.now self.old.class.items self.new.class.items self.new.alone.items self.new.shadow.items self.old.joined self.new.joined) }
        ensures apart { OnOk result (self.new.joined ≡ false → NotApart related.entry.func.now item.now) }
        ensures within { OnOk result (self.new.joined ≡ true → (self.old.joined ≡ true) ⊎ IsCopyWithin item.now self.new.class.items) }
    {
        if let (Some(x), Some(y)) = (dest_of(item), source_of(item)) {
            if x != y {
                self.look_at_copy(alloc, related, clashes, x, y)?;
            }
        }
        Ok(())
    }

    // Looks at the item at a point, where a walk leads there.
    fn look_at_point(
        &mut self,
        alloc: Global,
        related: Related<'_>,
        clashes: &ClashRows,
        item: &Instr,
        point: u32,
    ) -> Result<(), AllocError>
        requires graph { IsGraphOf related.func.now.code related.graph.now }
        requires point { point < length related.func.now.code }
        requires here { slice_get related.func.now.code point ≡ Some item.now }
        requires clashes { AreClashes related.func.now.code related.marks.now clashes.now.list.items }
        requires state { IsRoundState related.func.now related.marks.now self.old.class.items self.old.alone.items self.old.shadow.items self.old.joined }
        requires related { IsRelatedItem related.func.now related.marks.now item.now }
        ensures next { OnOk result (IsNextState related.entry.func.now related.entry.marks.now self.old.class.items self.new.class.items self.new.alone.items self.new.shadow.items self.old.joined self.new.joined) }
        ensures apart { OnOk result (self.new.joined ≡ false → IsReached related.entry.func.now.code point → NotApart related.entry.func.now item.now) }
        ensures within { OnOk result (self.new.joined ≡ true → (self.old.joined ≡ true) ⊎ (IsReached related.entry.func.now.code point × IsCopyWithin item.now self.new.class.items)) }
    {
        if !related.graph.reach(point) {
            return Ok(());
        }
        self.look_at(alloc, related, clashes, item)?;
        Ok(())
    }
}
