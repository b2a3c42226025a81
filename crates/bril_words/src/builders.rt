// The commands, as `clap` is told of them.

ghost use Rattle.std.specs.Prelude.{◌≡◌, false, map, IfOk};
ghost use Rattle.clap.specs.Walk.{rule_of};
ghost use Rattle.clap.specs.Simple.{App};
ghost use Rattle.bril_words.specs.App.{HasApp, bare_app, flag_rule, operand_rule, option_rule, subcommand_app, whole_app, with_rules, with_subcommands};

use crate::options::{Flag, Operand, Setting};
use crate::subcommands::{Form, SUBCOMMANDS, Subcommand};
use clap::{Arg, ArgAction, Command};
use std::alloc::{AllocError, Global};

// The program with all its commands.
pub(crate) fn whole_command<'a>(alloc: Global) -> Result<Command<'a>, AllocError>
    ensures { IfOk result (HasApp whole_app) }
{
    with_subcommands(alloc, bare_command(alloc)?, SUBCOMMANDS.as_slice())
}

// The program without its commands. `help` is no command of it, and it has no version.
fn bare_command<'a>(alloc: Global) -> Result<Command<'a>, AllocError>
    ensures { IfOk result (HasApp bare_app) }
{
    Command::new(alloc, "roolvist")
        .about("Ahead-of-time tracing compiler for Bril, on a RISC-V machine of its own")
        .after_help(
            "Examples:{n}  roolvist run examples/divisor.bril -- 1071 462{n}  roolvist passes examples/leftovers.bril --passes dead,tidy{n}{n}`roolvist COMMAND --help` lists the options of a command.",
        )
        .subcommand_required(true)
        .disable_help_subcommand(true)
        .bin_name("roolvist")
}

// The program with these commands more.
fn with_subcommands<'a>(
    alloc: Global,
    command: Command<'a>,
    subcommands: &[Subcommand],
) -> Result<Command<'a>, AllocError>
    ensures { IfOk result (λ c. (a : App) → HasApp a command.entry → HasApp (with_subcommands a subcommands.now) c) }
{
    let mut command = command;
    for subcommand in subcommands {
        command = command.subcommand(command_of(alloc, *subcommand)?)?;
    }
    Ok(command)
}

// One command.
fn command_of<'a>(alloc: Global, subcommand: Subcommand) -> Result<Command<'a>, AllocError>
    ensures { IfOk result (HasApp (subcommand_app subcommand)) }
{
    let form = subcommand.form();
    let command = with_help(Command::new(alloc, form.name), form);
    let command = with_operands(alloc, command, form.operands)?;
    let command = with_options(alloc, command, form.options)?;
    with_flags(alloc, command, form.flags)
}

// The command with its texts for help. `clap` knows nothing of the arguments of a program, so they stand in the usage line of
// those that take some.
fn with_help<'a>(command: Command<'a>, form: Form<'a>) -> Command<'a>
    ensures { (a : App) → HasApp a command.entry → HasApp a result }
{
    let command = command.about(form.about).after_help(form.example);
    match form.usage {
        Some(usage) => command.override_usage(usage),
        None => command,
    }
}

// The command with these operands more.
fn with_operands<'a>(
    alloc: Global,
    command: Command<'a>,
    operands: &[Operand],
) -> Result<Command<'a>, AllocError>
    ensures { IfOk result (λ c. (a : App) → HasApp a command.entry → HasApp (with_rules a (map operand_rule operands.now)) c) }
{
    let mut command = command;
    for operand in operands {
        command = command.arg(operand_arg(alloc, *operand))?;
    }
    Ok(command)
}

// The command with these options more.
fn with_options<'a>(
    alloc: Global,
    command: Command<'a>,
    options: &[Setting],
) -> Result<Command<'a>, AllocError>
    ensures { IfOk result (λ c. (a : App) → HasApp a command.entry → HasApp (with_rules a (map option_rule options.now)) c) }
{
    let mut command = command;
    for option in options {
        command = command.arg(option_arg(alloc, *option))?;
    }
    Ok(command)
}

// The command with these flags more.
fn with_flags<'a>(
    alloc: Global,
    command: Command<'a>,
    flags: &[Flag],
) -> Result<Command<'a>, AllocError>
    ensures { IfOk result (λ c. (a : App) → HasApp a command.entry → HasApp (with_rules a (map flag_rule flags.now)) c) }
{
    let mut command = command;
    for flag in flags {
        command = command.arg(flag_arg(alloc, *flag))?;
    }
    Ok(command)
}

// An operand, which has to stand.
fn operand_arg<'a>(alloc: Global, operand: Operand) -> Arg<'a>
    ensures rule { rule_of result ≡ operand_rule operand }
    ensures local { result.global ≡ false }
{
    Arg::new(alloc, operand.id())
        .required(true)
        .value_name(operand.value_name())
        .help(operand.help())
}

// An option with a value, which is any text.
fn option_arg<'a>(alloc: Global, option: Setting) -> Arg<'a>
    ensures rule { rule_of result ≡ option_rule option }
    ensures local { result.global ≡ false }
{
    Arg::new(alloc, option.name())
        .long(option.name())
        .value_name(option.value_name())
        .help(option.help())
}

// A flag.
fn flag_arg<'a>(alloc: Global, flag: Flag) -> Arg<'a>
    ensures rule { rule_of result ≡ flag_rule flag }
    ensures local { result.global ≡ false }
{
    Arg::new(alloc, flag.name())
        .long(flag.name())
        .action(ArgAction::SetTrue)
        .help(flag.help())
}
