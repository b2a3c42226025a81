// The status of each stage's fault, so that `?` hands it on, and of how a command ended.

ghost use Rattle.std.specs.Prelude.{◌≡◌};
ghost use Rattle.bril_report.specs.StageFaults.{status_of, misuse_status, link_status, name_status, check_status, argument_status, profile_status, list_status, emit_status, listing_status, elf_status, script_status};
ghost use Rattle.bril_report.specs.declared.status.Status.TheVariants.{OutOfMemory, CannotWrite};

use crate::status::Status;
use bril_arguments::ArgFault;
use bril_checker::CheckFault;
use bril_names::NameFault;
use bril_outside::sink::Failed;
use bril_tree::program::Prog;
use bril_tree::text::Text;
use bril_words::Misuse;
use elf_wrap::ElfFault;
use import_linker::LinkFault;
use monitor_script::ScriptFault;
use pass_law::ListFault;
use profile_text::ProfileFault;
use rv64_listing::ListingFault;
use rv64_words::fault::EmitFault;
use std::alloc::AllocError;

/// `Done` of a command that was done, and else the status with which it ended.
impl From<Result<(), Status>> for Status {
    ghost from_gives = { λ ended status. status ≡ status_of ended };

    fn from(ended: Result<(), Status>) -> Status {
        match ended {
            Ok(()) => Status::Done,
            Err(status) => status,
        }
    }
}

impl From<AllocError> for Status {
    ghost from_gives = { λ _ status. status ≡ OutOfMemory };

    fn from(_fault: AllocError) -> Status {
        Status::OutOfMemory
    }
}

impl From<Misuse> for Status {
    ghost from_gives = { λ misuse status. status ≡ misuse_status misuse };

    fn from(misuse: Misuse) -> Status {
        match misuse {
            Misuse::Words { text } => Status::Misused {
                misuse: Misuse::Words { text },
            },
            Misuse::Value { setting } => Status::Misused {
                misuse: Misuse::Value { setting },
            },
            Misuse::Functions => Status::Misused {
                misuse: Misuse::Functions,
            },
            Misuse::Memory => Status::OutOfMemory,
        }
    }
}

/// A write to the output failed.
impl From<Failed> for Status {
    ghost from_gives = { λ _ status. status ≡ CannotWrite };

    fn from(_fault: Failed) -> Status {
        Status::CannotWrite
    }
}

/// The files of a program have no tree.
impl From<LinkFault> for Status {
    ghost from_gives = { λ fault status. status ≡ link_status fault };

    fn from(fault: LinkFault) -> Status {
        match fault {
            LinkFault::Read { path } => Status::CannotRead { path },
            LinkFault::Bad { path, fault } => Status::Misread { path, fault },
            LinkFault::NotThere { path, name } => Status::NotThere { path, name },
            LinkFault::Clash { path, name } => Status::Clash { path, name },
            LinkFault::TooManyFiles => Status::TooManyFiles,
            LinkFault::TooManyBytes => Status::TooManyBytes,
            LinkFault::Memory => Status::OutOfMemory,
        }
    }
}

impl From<NameFault> for Status {
    ghost from_gives = { λ fault status. status ≡ name_status fault };

    fn from(fault: NameFault) -> Status {
        match fault {
            NameFault::Memory => Status::OutOfMemory,
            NameFault::NoFunction { .. }
            | NameFault::TwiceFunction { .. }
            | NameFault::NoLabel { .. }
            | NameFault::TwiceLabel { .. }
            | NameFault::NoMain
            | NameFault::TwiceArg { .. } => Status::Misnamed { fault },
        }
    }
}

/// A program, and the fault of the checker that it has.
impl From<(Prog, CheckFault)> for Status {
    ghost from_gives = { λ refused status. status ≡ check_status refused.0 refused.1 };

    fn from(refused: (Prog, CheckFault)) -> Status {
        let (program, fault) = refused;
        match fault {
            CheckFault::Memory => Status::OutOfMemory,
            CheckFault::Types { .. }
            | CheckFault::Arity { .. }
            | CheckFault::MaybeUnassigned { .. }
            | CheckFault::Nest { .. }
            | CheckFault::SpecCall { .. }
            | CheckFault::NoReturn { .. }
            | CheckFault::MainType
            | CheckFault::PrintPtr { .. } => Status::Unaccepted { program, fault },
        }
    }
}

impl From<ArgFault> for Status {
    ghost from_gives = { λ fault status. status ≡ argument_status fault };

    fn from(fault: ArgFault) -> Status {
        match fault {
            ArgFault::Count { given, wanted } => Status::ArgumentCount { given, wanted },
            ArgFault::Spelling { place } => Status::BadArgument { position: place },
            ArgFault::Memory => Status::OutOfMemory,
        }
    }
}

/// The bytes of a profile's file are the text of none.
impl From<ProfileFault> for Status {
    ghost from_gives = { λ fault status. status ≡ profile_status fault };

    fn from(fault: ProfileFault) -> Status {
        match fault {
            ProfileFault::Line { line } => Status::MisreadProfile { line },
            ProfileFault::Memory => Status::OutOfMemory,
        }
    }
}

impl From<ListFault> for Status {
    ghost from_gives = { λ fault status. status ≡ list_status fault };

    fn from(fault: ListFault) -> Status {
        match fault {
            ListFault::Unknown { place, .. } => Status::UnknownPass { place },
            ListFault::TooLarge { place, bound, .. } => Status::PassTooLarge { place, bound },
            ListFault::Memory => Status::OutOfMemory,
        }
    }
}

/// A program gets no image.
impl From<EmitFault> for Status {
    ghost from_gives = { λ fault status. status ≡ emit_status fault };

    fn from(fault: EmitFault) -> Status {
        match fault {
            EmitFault::CodeTooBig { words } => Status::CodeTooBig { words },
            EmitFault::StackTooBig { words } => Status::StackTooBig { words },
            EmitFault::Memory => Status::OutOfMemory,
        }
    }
}

/// A path, and the fault of a listing that the bytes of the file there have.
impl From<(Text, ListingFault)> for Status {
    ghost from_gives = { λ refused status. status ≡ listing_status refused.0 refused.1 };

    fn from(refused: (Text, ListingFault)) -> Status {
        let (path, fault) = refused;
        match fault {
            ListingFault::Line { line } => Status::MisreadListing { path, line },
            ListingFault::Memory => Status::OutOfMemory,
        }
    }
}

/// A path, and the fault of an ELF file that the bytes of the file there have.
impl From<(Text, ElfFault)> for Status {
    ghost from_gives = { λ refused status. status ≡ elf_status refused.0 refused.1 };

    fn from(refused: (Text, ElfFault)) -> Status {
        let (path, fault) = refused;
        match fault {
            ElfFault::At { at } => Status::MisreadElf { path, at },
            ElfFault::CodeTooBig { words } => Status::CodeTooBig { words },
            ElfFault::StackTooBig { words } => Status::StackTooBig { words },
            ElfFault::Memory => Status::OutOfMemory,
        }
    }
}

/// The bytes of a monitor's script are the text of none.
impl From<ScriptFault> for Status {
    ghost from_gives = { λ fault status. status ≡ script_status fault };

    fn from(fault: ScriptFault) -> Status {
        match fault {
            ScriptFault::Line { line } => Status::MisreadScript { line },
            ScriptFault::Memory => Status::OutOfMemory,
        }
    }
}
