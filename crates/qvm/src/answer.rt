//! The reply to a text: what is printed, and the status.

ghost use Rattle.std.specs.Prelude.{◌≡◌, ◌≢◌, ◌<◌, ◌++◌, OnOk, IfOk, Ok};
ghost use Rattle.quil_code.specs.declared.load_fault.LoadFault.TheVariants.{OutOfMemory};
ghost use Rattle.qvm.specs.Ends.{end_seen, reply_seen};
ghost use Rattle.qvm.specs.RunText.{IsReplyTo, end_text, end_status, refused_reply, reply_of};

use crate::command::RunOptions;
use crate::run::{End, run};
use crate::text::{memory_text, push_line};
use quil_code::{Code, LoadFault};
use quil_link::load;
use std::alloc::{AllocError, Global};

const REFUSED: u8 = 1;

/// What is printed, and the status.
#[derive(Drop)]
pub(crate) struct Reply {
    pub output: Vec<u8>,
    pub status: u8,
}

fn end_status(end: End) -> u8
    ensures value { result ≡ end_status (end_seen end) }
    ensures bound { result < 6 }
{
    match end {
        End::Halted => 0,
        End::Waiting => 3,
        End::Fault(_) => 4,
        End::StepLimit => 5,
    }
}

// Adds the line that says how a run ended, where it didn't halt.
fn push_end(alloc: Global, output: &mut Vec<u8>, end: End) -> Result<(), AllocError>
    ensures { OnOk result (output.new.items ≡ output.old.items ++ end_text (end_seen end)) }
{
    match end {
        End::Halted => Ok(()),
        End::Waiting => output.extend_from_slice(b"waiting\n"),
        End::StepLimit => output.extend_from_slice(b"step limit\n"),
        End::Fault(fault) => push_line(alloc, output, "fault: ", &fault.diagnostic()),
    }
}

// The reply to a text that is a program.
fn run_reply(alloc: Global, code: &Code, options: RunOptions) -> Result<Reply, AllocError>
    ensures reply { IfOk result (λ reply. reply_seen reply ≡ reply_of options.limit options.seed (Ok code.now)) }
    ensures status { IfOk result (λ reply. reply.status < 6) }
{
    let finish = run(alloc, code, options.seed, options.limit)?;
    let mut output = memory_text(alloc, code.layout(), &finish.memory)?;
    push_end(alloc, &mut output, finish.end)?;
    Ok(Reply {
        output,
        status: end_status(finish.end),
    })
}

// The reply to a text that is refused.
fn refusal(alloc: Global, fault: &LoadFault) -> Result<Reply, AllocError>
    ensures known { IfOk result (λ reply. fault.now ≢ OutOfMemory) }
    ensures reply { IfOk result (λ reply. reply_seen reply ≡ refused_reply fault.now) }
    ensures status { IfOk result (λ reply. reply.status < 6) }
{
    if matches!(fault, LoadFault::OutOfMemory) {
        return Err(AllocError);
    }
    let mut output = Vec::new(alloc);
    push_line(alloc, &mut output, "error: ", &fault.diagnostic())?;
    Ok(Reply {
        output,
        status: REFUSED,
    })
}

/// The reply to a text: its program is run with those options, or its refusal is told.
pub(crate) fn answer(alloc: Global, text: &[u8], options: RunOptions) -> Result<Reply, AllocError>
    ensures reply { IfOk result (λ reply. IsReplyTo options.limit options.seed text.now (reply_seen reply)) }
    ensures status { IfOk result (λ reply. reply.status < 6) }
{
    match load(alloc, text) {
        Ok(code) => run_reply(alloc, &code, options),
        Err(fault) => refusal(alloc, &fault),
    }
}
