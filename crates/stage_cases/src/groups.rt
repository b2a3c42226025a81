// The groups of the words of an image.

ghost use Rattle.std.specs.Prelude.{◌≡◌, ◌<◌, ◌≤◌, ◌^◌, IfOk, length};
ghost use Rattle.rv64_words.specs.Region.{most_words};

use crate::row::add_line;
use bril_tree::limits::Limits;
use case_text::{LineFault, checked_of};
use rv64_emit::emit;
use rv64_groups::group::{Group, groups_of};
use rv64_groups::resolved::resolve_all;
use rv64_words::decoding::decode;
use rv64_words::fault::EmitFault;
use rv64_words::image::Image;
use rv64_words::word::Word;
use std::alloc::{AllocError, Global};

const LIMITS: Limits = Limits {
    frames: 8,
    cells: 8,
};

/// Appends the number of each word of the image of a source's program with which a group begins, and the group's name.
pub fn add_groups(alloc: Global, source: &[u8], shown: &mut Vec<u8>) -> Result<(), LineFault>
    requires { length source.now < 2 ^ 32 }
{
    let image = image_of(alloc, source)?;
    let code = decode_all(alloc, &image)?;
    let resolved = resolve_all(alloc, code.as_slice(), image.guards.as_slice())?;
    let groups = groups_of(alloc, resolved.as_slice())?;
    shown.extend_from_slice(b"words")?;
    for (number, group) in groups.iter().enumerate() {
        add_group(alloc, number, *group, shown)?;
    }
    add_line("", shown)?;
    Ok(())
}

// The image of a source's program.
fn image_of(alloc: Global, source: &[u8]) -> Result<Image, LineFault>
    requires { length source.now < 2 ^ 32 }
    ensures { IfOk result (λ image. length image.words ≤ most_words) }
{
    let checked = checked_of(alloc, source)?;
    match emit(alloc, &checked, LIMITS) {
        Ok(image) => Ok(image),
        Err(EmitFault::Memory) => Err(LineFault::Memory),
        Err(_) => Err(LineFault::Form),
    }
}

// What the words of an image decode to.
fn decode_all(alloc: Global, image: &Image) -> Result<Vec<Option<Word>>, AllocError>
    ensures { IfOk result (λ code. length code.items ≡ length image.now.words) }
{
    let mut code = Vec::new(alloc);
    for bits in image.words.as_slice() {
        code.push(decode(*bits))?;
    }
    Ok(code)
}

// Appends the number of a word and the name of the group that begins there, if one does.
fn add_group(
    alloc: Global,
    number: usize,
    group: Group,
    shown: &mut Vec<u8>,
) -> Result<(), AllocError> {
    if matches!(group, Group::Single | Group::Outside) {
        return Ok(());
    }
    let name = name_of(group);
    let pair = format!(in alloc; " {number} {name}")?;
    shown.extend_from_slice(pair.as_bytes())
}

// ---- names

// The name of a group.
//
// Each function from here on has the names of one kind, and hands all others on to the next.
fn name_of(group: Group) -> &'static str {
    match group {
        Group::Add(..) => "Add",
        Group::Sub(..) => "Sub",
        Group::Mul(..) => "Mul",
        Group::And(..) => "And",
        Group::Or(..) => "Or",
        Group::Less(..) => "Less",
        Group::Not(..) => "Not",
        Group::AddConstant(..) => "AddConstant",
        Group::AddTwoConstants(..) => "AddTwoConstants",
        Group::AddAdd(..) => "AddAdd",
        Group::AddSub(..) => "AddSub",
        Group::SubAdd(..) => "SubAdd",
        Group::SubSub(..) => "SubSub",
        Group::MulAdd(..) => "MulAdd",
        Group::MulSub(..) => "MulSub",
        Group::AddMul(..) => "AddMul",
        Group::Jump(..) => "Jump",
        Group::AddJump(..) => "AddJump",
        Group::SubJump(..) => "SubJump",
        Group::Copy(..) => "Copy",
        Group::CopyTwo(..) => "CopyTwo",
        Group::CopyJump(..) => "CopyJump",
        Group::CopyAdd(..) => "CopyAdd",
        Group::AddAddJump(..) => "AddAddJump",
        Group::AddSubJump(..) => "AddSubJump",
        Group::MulAddJump(..) => "MulAddJump",
        _ => name_of_branch(group),
    }
}

// Flags, branches, quotients and chars.
fn name_of_branch(group: Group) -> &'static str {
    match group {
        Group::Same(..) => "Same",
        Group::NotLess(..) => "NotLess",
        Group::SameOr(..) => "SameOr",
        Group::SameOrTwo(..) => "SameOrTwo",
        Group::Branch(..) => "Branch",
        Group::LessBranch(..) => "LessBranch",
        Group::SameBranch(..) => "SameBranch",
        Group::NotLessBranch(..) => "NotLessBranch",
        Group::DirectBranch(..) => "DirectBranch",
        Group::LessDirectBranch(..) => "LessDirectBranch",
        Group::SameDirectBranch(..) => "SameDirectBranch",
        Group::NotLessDirectBranch(..) => "NotLessDirectBranch",
        Group::TurnedBranch(..) => "TurnedBranch",
        Group::LessTurnedBranch(..) => "LessTurnedBranch",
        Group::SameTurnedBranch(..) => "SameTurnedBranch",
        Group::NotLessTurnedBranch(..) => "NotLessTurnedBranch",
        Group::Divide(..) => "Divide",
        Group::ToChar(..) => "ToChar",
        _ => name_of_loop(group),
    }
}

// Branches to a jump, and those by whether a flag is 0.
fn name_of_loop(group: Group) -> &'static str {
    match group {
        Group::LoopBranch(..) => "LoopBranch",
        Group::LessLoopBranch(..) => "LessLoopBranch",
        Group::SameLoopBranch(..) => "SameLoopBranch",
        Group::NotLessLoopBranch(..) => "NotLessLoopBranch",
        Group::UnlessLess(..) => "UnlessLess",
        Group::UnlessSame(..) => "UnlessSame",
        Group::UnlessNotLess(..) => "UnlessNotLess",
        Group::UnlessLessLoop(..) => "UnlessLessLoop",
        Group::UnlessSameLoop(..) => "UnlessSameLoop",
        Group::UnlessNotLessLoop(..) => "UnlessNotLessLoop",
        _ => name_of_cell(group),
    }
}

// Pointers and their cells.
fn name_of_cell(group: Group) -> &'static str {
    match group {
        Group::MovePointer(..) => "MovePointer",
        Group::MoveHere => "MoveHere",
        Group::LoadCell(..) => "LoadCell",
        Group::LoadHere(..) => "LoadHere",
        Group::StoreCell(..) => "StoreCell",
        Group::MarkHere => "MarkHere",
        Group::MoveLoad(..) => "MoveLoad",
        Group::MoveStore(..) => "MoveStore",
        _ => name_of_call(group),
    }
}

// Calls.
fn name_of_call(group: Group) -> &'static str {
    match group {
        Group::Enter(..) => "Enter",
        Group::KeepEnter(..) => "KeepEnter",
        Group::CopyEnter(..) => "CopyEnter",
        Group::CopyTwoEnter(..) => "CopyTwoEnter",
        Group::KeepCopyEnter(..) => "KeepCopyEnter",
        Group::FetchEnter(..) => "FetchEnter",
        Group::CopyFetchEnter(..) => "CopyFetchEnter",
        Group::Room => "Room",
        Group::RoomKeepTwo(..) => "RoomKeepTwo",
        Group::RoomEnter(..) => "RoomEnter",
        Group::RoomKeepEnter(..) => "RoomKeepEnter",
        Group::RoomCopyEnter(..) => "RoomCopyEnter",
        Group::RoomCopyTwoEnter(..) => "RoomCopyTwoEnter",
        Group::RoomKeepCopyEnter(..) => "RoomKeepCopyEnter",
        _ => name_of_return(group),
    }
}

// Returns, and what comes behind calls.
fn name_of_return(group: Group) -> &'static str {
    match group {
        Group::Leave => "Leave",
        Group::LeaveWith(..) => "LeaveWith",
        Group::AddLeave(..) => "AddLeave",
        Group::CopyLeave(..) => "CopyLeave",
        Group::LeaveLeaf => "LeaveLeaf",
        Group::LeaveLeafWith(..) => "LeaveLeafWith",
        Group::AddLeaveLeaf(..) => "AddLeaveLeaf",
        Group::BackCopy(..) => "BackCopy",
        Group::BackCopyLeave(..) => "BackCopyLeave",
        Group::BackFetch(..) => "BackFetch",
        Group::BackFetchTwo(..) => "BackFetchTwo",
        Group::BackFetchCopy(..) => "BackFetchCopy",
        Group::BackFetchTwoCopy(..) => "BackFetchTwoCopy",
        _ => name_of_kept(group),
    }
}

// Registers into words of the frame, and back.
fn name_of_kept(group: Group) -> &'static str {
    match group {
        Group::Keep(..) => "Keep",
        Group::KeepTwo(..) => "KeepTwo",
        Group::Fetch(..) => "Fetch",
        Group::FetchTwo(..) => "FetchTwo",
        Group::FetchCopy(..) => "FetchCopy",
        Group::FetchTwoCopy(..) => "FetchTwoCopy",
        _ => name_of_frame(group),
    }
}

// Operands and results in the frame alone.
fn name_of_frame(group: Group) -> &'static str {
    match group {
        Group::FrameAdd(..) => "FrameAdd",
        Group::FrameSub(..) => "FrameSub",
        Group::FrameMul(..) => "FrameMul",
        Group::FrameAnd(..) => "FrameAnd",
        Group::FrameOr(..) => "FrameOr",
        Group::FrameLess(..) => "FrameLess",
        Group::FrameGreater(..) => "FrameGreater",
        Group::FrameSame(..) => "FrameSame",
        Group::FrameNotLess(..) => "FrameNotLess",
        Group::FrameNotGreater(..) => "FrameNotGreater",
        Group::FrameConstant(..) => "FrameConstant",
        Group::FrameCopy(..) => "FrameCopy",
        Group::FrameBranch(..) => "FrameBranch",
        Group::FrameDirectBranch(..) => "FrameDirectBranch",
        Group::FrameTurnedBranch(..) => "FrameTurnedBranch",
        Group::FrameLoopBranch(..) => "FrameLoopBranch",
        _ => name_of_change(group),
    }
}

// Words of the frame that are changed.
fn name_of_change(group: Group) -> &'static str {
    match group {
        Group::FrameIncrease(..) => "FrameIncrease",
        Group::FrameDecrease(..) => "FrameDecrease",
        Group::FrameIncreaseBy(..) => "FrameIncreaseBy",
        Group::FrameSubtract(..) => "FrameSubtract",
        Group::FrameIncreaseTwo(..) => "FrameIncreaseTwo",
        Group::FrameDecreaseTwo(..) => "FrameDecreaseTwo",
        Group::FrameIncreaseByTwo(..) => "FrameIncreaseByTwo",
        Group::FrameSubtractTwo(..) => "FrameSubtractTwo",
        _ => "Single",
    }
}
