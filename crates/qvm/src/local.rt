//! The top call of the commands that need no network: words and bytes in, bytes and a status out.

ghost use Rattle.std.specs.Prelude.{◌≡◌, ◌⊎◌, ◌<◌, map, string_bytes};
ghost use Rattle.qvm_io.specs.Causes.{NeverFalls};
ghost use Rattle.qvm_io.specs.Transfer.{EndsOnceAtMost};
ghost use Rattle.qvm.specs.declared.command.RunOptions.{RunOptions};
ghost use Rattle.qvm.specs.Command.{command_of};
ghost use Rattle.qvm.specs.Calls.{RunEnds, UsageEnds, Gives, usage_text};

use crate::answer::answer;
use crate::command::{Command, RunOptions, command_of};
use qvm_io::{ReadError, Sink, Source, read_all, write_all};
use std::alloc::Global;

// The most bytes that `run` reads: one more than a text may have.
const READ_BOUND: usize = 1_048_577;

// The statuses that say nothing of a program.
const USAGE_STATUS: u8 = 2;

const READ_FAULT: u8 = 6;

const WRITE_FAULT: u8 = 7;

const OUT_OF_MEMORY: u8 = 8;

// Writes the output, and gives the status that goes with it, or that of a write fault.
fn given<K: Sink>(sink: &mut K, output: &[u8], status: u8) -> u8
    requires { status < 6 }
    ensures own { (result ≡ status) ⊎ (result ≡ 7) }
    ensures given { Gives (record { taken_before = K.bytes_taken sink.old; taken_after = K.bytes_taken sink.new; faults_before = K.faults sink.old; faults_after = K.faults sink.new }) output.now status result }
    ensures count { NeverFalls (K.faults sink.old) (K.faults sink.new) }
{
    match write_all(sink, output) {
        Ok(()) => status,
        Err(_) => WRITE_FAULT,
    }
}

fn usage<K: Sink>(sink: &mut K) -> u8
    ensures own { (result ≡ 2) ⊎ (result ≡ 7) }
    ensures given { UsageEnds (record { taken_before = K.bytes_taken sink.old; taken_after = K.bytes_taken sink.new; faults_before = K.faults sink.old; faults_after = K.faults sink.new }) result }
    ensures count { NeverFalls (K.faults sink.old) (K.faults sink.new) }
{
    let line = b"usage: qvm run | pipe | gen | audit | serve | call\n";
    given(sink, line, USAGE_STATUS)
}

fn run<S: Source, K: Sink>(alloc: Global, options: RunOptions, source: &mut S, sink: &mut K) -> u8
    ensures ends { RunEnds options
        (record { left_before = S.bytes_left source.old; left_after = S.bytes_left source.new; at_end_after = S.saw_end source.new; faults_before = S.faults source.old; faults_after = S.faults source.new })
        (record { taken_before = K.bytes_taken sink.old; taken_after = K.bytes_taken sink.new; faults_before = K.faults sink.old; faults_after = K.faults sink.new })
        result }
    ensures one_end { EndsOnceAtMost (S.ends source.old) (S.ends source.new) (S.saw_end source.new) }
    ensures read_fault { result ≡ 6 → sink.new ≡ sink.old }
    ensures no_memory { result ≡ 8 → sink.new ≡ sink.old }
    ensures source_count { NeverFalls (S.faults source.old) (S.faults source.new) }
    ensures sink_count { NeverFalls (K.faults sink.old) (K.faults sink.new) }
{
    let text = match read_all(alloc, source, READ_BOUND) {
        Ok(text) => text,
        Err(ReadError::Failed) => return READ_FAULT,
        Err(ReadError::OutOfMemory) => return OUT_OF_MEMORY,
    };
    match answer(alloc, &text, options) {
        Ok(reply) => given(sink, &reply.output, reply.status),
        Err(_) => OUT_OF_MEMORY,
    }
}

/// The program behind its name: the words after it, a source and a sink, and the status that it ends with.
///
/// `run` with its options reads a Quil program from the source, loads and runs it, and writes its memory at the end, or writes
/// why it is refused. Words that are no command are a usage refusal, which reads nothing.
pub fn local_main<S: Source, K: Sink>(
    alloc: Global,
    words: &[String],
    source: &mut S,
    sink: &mut K,
) -> u8
    ensures run { (options : RunOptions) → command_of (map string_bytes words.now) ≡ Some (Command.Run options) → RunEnds options
        (record { left_before = S.bytes_left source.old; left_after = S.bytes_left source.new; at_end_after = S.saw_end source.new; faults_before = S.faults source.old; faults_after = S.faults source.new })
        (record { taken_before = K.bytes_taken sink.old; taken_after = K.bytes_taken sink.new; faults_before = K.faults sink.old; faults_after = K.faults sink.new })
        result }
    ensures usage { command_of (map string_bytes words.now) ≡ None → UsageEnds
        (record { taken_before = K.bytes_taken sink.old; taken_after = K.bytes_taken sink.new; faults_before = K.faults sink.old; faults_after = K.faults sink.new })
        result }
    ensures reads_nothing { command_of (map string_bytes words.now) ≡ None → source.new ≡ source.old }
    ensures one_end { EndsOnceAtMost (S.ends source.old) (S.ends source.new) (S.saw_end source.new) }
    ensures read_fault { (options : RunOptions) → command_of (map string_bytes words.now) ≡ Some (Command.Run options) → result ≡ 6 → sink.new ≡ sink.old }
    ensures no_memory { (options : RunOptions) → command_of (map string_bytes words.now) ≡ Some (Command.Run options) → result ≡ 8 → sink.new ≡ sink.old }
    ensures source_count { NeverFalls (S.faults source.old) (S.faults source.new) }
    ensures sink_count { NeverFalls (K.faults sink.old) (K.faults sink.new) }
{
    match command_of(words) {
        Some(Command::Run(options)) => run(alloc, options, source, sink),
        None => usage(sink),
    }
}
