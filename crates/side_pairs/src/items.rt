// What the items of a run are.

ghost use Rattle.std.specs.Prelude.{◌≡◌, ◌∷◌, [], ◌↔◌, ℕ, Some, None, IsTrue, MatchOption, slice_get};
ghost use Rattle.bril_tree.specs.Edge.{leads_away};
ghost use Rattle.bril_tree.specs.declared.numbered.Instr.TheVariants as instr;
ghost use Rattle.bril_tree.specs.declared.operation.Op.TheVariants as op;
ghost use Rattle.side_laws.specs.Paired.{is_guard, is_nop, item_place, labels_of_item, operation_place};
ghost use Rattle.side_pairs.specs.Items.{place_of};

use bril_tree::numbered::Instr;
use bril_tree::operation::Op;

// How an item stands in a run: within it, as its end, or where it breaks the run.
#[derive(Clone, Copy, Drop)]
pub(crate) enum Place {
    Within,
    Commits,
    Breaks,
}

// How an operation stands in a run.
fn operation_place(op: Op) -> Place
    ensures { place_of result ≡ operation_place op }
{
    match op {
        Op::Print
        | Op::Store
        | Op::Alloc
        | Op::Free
        | Op::Call
        | Op::Ret
        | Op::Speculate
        | Op::Jmp
        | Op::Br => Place::Breaks,
        Op::Commit => Place::Commits,
        _ => Place::Within,
    }
}

// How the item at a point stands in a run.
pub(crate) fn place_at(code: &[Instr], point: u32) -> Place
    ensures { place_of result ≡ item_place (slice_get code.now point) }
{
    match code.get(point as usize) {
        None => Place::Breaks,
        Some(item) => item_place(item),
    }
}

// How an item stands in a run.
fn item_place(item: &Instr) -> Place
    ensures { place_of result ≡ item_place (Some item.now) }
{
    match item {
        Instr::Label(_) => Place::Breaks,
        Instr::Const { .. } => Place::Within,
        Instr::Act { op, .. } => operation_place(*op),
    }
}

// Whether the item is a `guard`.
pub(crate) fn is_guard(item: &Instr) -> bool
    ensures { result ≡ is_guard (Some item.now) }
{
    match item {
        Instr::Act { op: Op::Guard, .. } => true,
        _ => false,
    }
}

// Whether the item at a point is a `guard`.
pub(crate) fn is_guard_at(code: &[Instr], point: u32) -> bool
    ensures { result ≡ is_guard (slice_get code.now point) }
{
    match code.get(point as usize) {
        None => false,
        Some(item) => is_guard(item),
    }
}

// Whether the item is a `nop`.
fn is_nop(item: &Instr) -> bool
    ensures { result ≡ is_nop (Some item.now) }
{
    match item {
        Instr::Act { op: Op::Nop, .. } => true,
        _ => false,
    }
}

// Whether the item at a point is a `nop`.
pub(crate) fn is_nop_at(code: &[Instr], point: u32) -> bool
    ensures { result ≡ is_nop (slice_get code.now point) }
{
    match code.get(point as usize) {
        None => false,
        Some(item) => is_nop(item),
    }
}

// Whether control leads away from the item.
fn leads_away(item: &Instr) -> bool
    ensures { result ≡ leads_away (Some item.now) }
{
    match item {
        Instr::Act { op: Op::Jmp, .. } => true,
        Instr::Act { op: Op::Br, .. } => true,
        Instr::Act { op: Op::Ret, .. } => true,
        _ => false,
    }
}

// Whether control leads away from the item at a point.
pub(crate) fn leads_away_at(code: &[Instr], point: u32) -> bool
    ensures { result ≡ leads_away (slice_get code.now point) }
{
    match code.get(point as usize) {
        None => false,
        Some(item) => leads_away(item),
    }
}

// Whether the item is a `speculate`, as such.
fn is_speculate(item: &Instr) -> bool
    ensures { IsTrue result ↔ (item.now ≡ instr.Act None None op.Speculate [] [] []) }
{
    match item {
        Instr::Act {
            dest: None,
            ty: None,
            op: Op::Speculate,
            args,
            funcs,
            labels,
        } => {
            args.as_slice().is_empty()
                && funcs.as_slice().is_empty()
                && labels.as_slice().is_empty()
        }
        _ => false,
    }
}

// Whether a `speculate` stands at a point.
pub(crate) fn is_speculate_at(code: &[Instr], point: u32) -> bool
    ensures { IsTrue result ↔ (slice_get code.now point ≡ Some (instr.Act None None op.Speculate [] [] [])) }
{
    match code.get(point as usize) {
        None => false,
        Some(item) => is_speculate(item),
    }
}

// The only one of a list.
pub(crate) fn only_one(numbers: &[u32]) -> Option<u32>
    ensures { MatchOption result ((number : ℕ) → numbers.now ≡ number ∷ [] → ⊥) (λ number. numbers.now ≡ number ∷ []) }
{
    match numbers {
        [number] => Some(*number),
        _ => None,
    }
}

// The only label of an item.
fn only_label(item: &Instr) -> Option<u32>
    ensures { MatchOption result ((label : ℕ) → labels_of_item (Some item.now) ≡ label ∷ [] → ⊥) (λ label. labels_of_item (Some item.now) ≡ label ∷ []) }
{
    match item {
        Instr::Label(_) => None,
        Instr::Const { .. } => None,
        Instr::Act { labels, .. } => only_one(labels.as_slice()),
    }
}

// The only label of the item at a point.
pub(crate) fn only_label_at(code: &[Instr], point: u32) -> Option<u32>
    ensures { MatchOption result ((label : ℕ) → labels_of_item (slice_get code.now point) ≡ label ∷ [] → ⊥) (λ label. labels_of_item (slice_get code.now point) ≡ label ∷ []) }
{
    match code.get(point as usize) {
        None => None,
        Some(item) => only_label(item),
    }
}
