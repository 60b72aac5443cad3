//! Runs a scenario of overlay nodes, and prints what happens; or analyses a graph file, and prints how many crashes of
//! nodes split it; or grows overlays, and prints their scenario or what they survive.
#![tactic(auto)]

ghost use Rattle.std.specs.Prelude.{◌≡◌, ◌≢◌, ◌⊎◌, drop, map, string_bytes, Err, IfOk, IfErr, OnOk};
ghost use Rattle.ov_arguments.specs.Arguments.{AreTaken};
ghost use Rattle.ov_arguments.specs.declared.arguments.ArgumentsFault.TheVariants.{BadArguments};
ghost use Rattle.overlay.specs.Program.{IsOfRequest, IsStatusGiven, IsStatusOf};
ghost use Rattle.overlay.specs.declared.fault_and_exit_status.OverlayFault.TheVariants.{Arguments};

mod fault_and_exit_status;

use crate::fault_and_exit_status::{OverlayFault, exit_status};
use ov_arguments::{ArgumentsFault, Request, argument_reasons, read_arguments};
use ov_command_tree::unopened_tip;
use ov_commands::{
    CommandFault, analyse_asked, graph_asked, import_asked, picture_asked, print_command_tip,
    tell_asked,
};
use ov_grow_commands::grow_or_sweep;
use ov_reasons::{print_reason, print_tip};
use ov_run_command::run_asked;
use ov_run_meaning::RunFault;
use std::env;
use std::process::ExitCode;
use std::sync::Wait;
use std::thread::Threads;

fn main(rt: HostRuntime) -> ExitCode {
    let answer = overlay(&rt, &rt);
    ExitCode::from(exit_status(&answer))
}

/// Does what the command line asks for.
fn overlay<T: Threads + Wait + Sync>(rt: &HostRuntime, threads: &T) -> Result<u8, OverlayFault>
    ensures status { IfOk result (λ status. (status ≡ 0) ⊎ (status ≡ 3)) }
{
    match command_line(rt) {
        Ok(texts) => do_command(rt, threads, behind_name(&texts)),
        Err(fault) => Err(unread_arguments(rt, fault, &[])),
    }
}

/// Does what these arguments ask for.
fn do_command<T: Threads + Wait + Sync>(
    rt: &HostRuntime,
    threads: &T,
    arguments: &[String],
) -> Result<u8, OverlayFault>
    ensures status { IfOk result (IsStatusGiven (map (λ argument. string_bytes argument) arguments.now)) }
{
    if grow_or_sweep(rt, threads, arguments)? {
        return Ok(0);
    }
    answer(rt, threads, arguments)
}

/// Does what these arguments ask for, of which the first is neither `grow` nor `sweep`.
fn answer<T: Threads + Wait + Sync>(
    rt: &HostRuntime,
    threads: &T,
    arguments: &[String],
) -> Result<u8, OverlayFault>
    ensures status { IfOk result (IsStatusGiven (map (λ argument. string_bytes argument) arguments.now)) }
    ensures taken { AreTaken (map (λ argument. string_bytes argument) arguments.now)
        → (result ≢ Err (Arguments BadArguments)) }
    ensures only { OnOk result (AreTaken (map (λ argument. string_bytes argument) arguments.now)) }
{
    match read_arguments(rt.alloc(), arguments) {
        Ok(request) => {
            let done = do_asked(rt, threads, request);
            tell_meant(rt, arguments, &done);
            done
        }
        Err(fault) => Err(unread_arguments(rt, fault, arguments)),
    }
}

/// If a file can't be read, prints what else these arguments may mean.
fn tell_meant(rt: &HostRuntime, arguments: &[String], done: &Result<u8, OverlayFault>) {
    if let Err(OverlayFault::Command(CommandFault::Run(RunFault::Read))) = done {
        print_tip(rt, unopened_tip(rt.alloc(), arguments));
    }
}

/// The program's name and the arguments after it.
fn command_line(rt: &HostRuntime) -> Result<Vec<String>, ArgumentsFault> {
    let texts = env::args(rt)?;
    Ok(texts.collect(rt.alloc())?)
}

/// The arguments, which follow the program's name.
fn behind_name(command_line: &[String]) -> &[String]
    ensures { result.now ≡ drop 1 command_line.now }
{
    match command_line.split_first() {
        None => &[],
        Some((_, arguments)) => arguments,
    }
}

/// Ends if the arguments can't be read. Prints what is wrong with them.
fn unread_arguments(rt: &HostRuntime, fault: ArgumentsFault, arguments: &[String]) -> OverlayFault
    ensures { result ≡ Arguments fault }
{
    let ended = OverlayFault::Arguments(fault);
    let _ = eprintln!(rt; "{ended}");
    match fault {
        ArgumentsFault::BadArguments => {
            print_reason(rt, argument_reasons(rt.alloc(), arguments));
            print_command_tip(rt, arguments);
        }
        ArgumentsFault::OutOfMemory => {
            let _ = eprintln!(rt; "out of memory");
        }
    }
    ended
}

/// Does what is asked for.
fn do_asked<T: Threads + Wait + Sync>(
    rt: &HostRuntime,
    threads: &T,
    request: Request,
) -> Result<u8, OverlayFault>
    ensures status { IfOk result (IsStatusOf request) }
    ensures fault { IfErr result IsOfRequest }
{
    match request {
        Request::Run { file, run } => Ok(run_asked(rt, threads, file, run)?),
        Request::Analyse { file, analysis } => Ok(analyse_asked(rt, threads, file, &analysis)?),
        Request::Import { file, dump } => Ok(import_asked(rt, file, dump)?),
        Request::Picture { file, picture } => Ok(picture_asked(rt, file, picture)?),
        Request::Graph { file, large } => Ok(graph_asked(rt, file, large)?),
        Request::Tell(telling) => Ok(tell_asked(rt, telling)?),
    }
}
