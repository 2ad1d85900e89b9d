ghost use Rattle.std.specs.Prelude.{◌≡◌, ◌==◌, true, false, ◌+◌, ◌-◌, ℕ, ◌<◌, ◌≤◌, ◌++◌, length, take, vec_len, IfOk, IfSome, OnOk, OnErr, IsErrOf};
ghost use Rattle.std.specs.Io.KnownBytes.{Appends, Consumes, IsAtEnd};
ghost use Rattle.qvm_io.specs.Causes.{Rose, Stays, NeverFalls};
ghost use Rattle.qvm_io.specs.Transfer.{ends_after, EndsOnceAtMost, LosesFront, GainsFront};

use crate::errors::{Failed, ReadError};
use crate::outside::{Sink, Source};
use std::alloc::Global;

/// How many bytes one read asks for at the most.
const CHUNK: usize = 4096;

/// Reads to the end of the input or until `bound` bytes are read, and gives the bytes. It never asks
/// for a byte past the bound, and stops at a read that gave 0.
pub fn read_all<S: Source>(
    alloc: Global,
    source: &mut S,
    bound: usize,
) -> Result<Vec<u8>, ReadError>
    // The bytes given are those that were taken.
    ensures bytes { IfOk result (λ text.
        Consumes (S.bytes_left source.old) (S.bytes_left source.new) text.items) }
    ensures within { IfOk result (λ text. vec_len text ≤ bound) }

    // Fewer bytes than the bound come only with the end.
    ensures last_read { IfOk result (λ text. vec_len text < bound → S.saw_end source.new ≡ true) }
    ensures end { IfOk result (λ text. vec_len text < bound → IsAtEnd (S.bytes_left source.new)) }
    ensures whole { IfOk result (λ text. IfSome (S.bytes_left source.old) (λ all.
        text.items ≡ take bound all)) }

    ensures front { OnErr result
        (LosesFront (S.bytes_left source.old) (S.bytes_left source.new) bound) }
    ensures no_end { OnErr result (S.saw_end source.new ≡ false) }

    // It doesn't read on behind the end.
    ensures one_end { EndsOnceAtMost (S.ends source.old) (S.ends source.new) (S.saw_end source.new) }
    ensures steady { OnOk result (Stays (S.faults source.old) (S.faults source.new)) }
    ensures no_memory { IsErrOf result ReadError.OutOfMemory → Stays (S.faults source.old) (S.faults source.new) }
    ensures cause { IsErrOf result ReadError.Failed → Rose (S.faults source.old) (S.faults source.new) }
    ensures count { NeverFalls (S.faults source.old) (S.faults source.new) }
{
    let mut text = Vec::new(alloc);
    while text.len() < bound {
        let room = bound - text.len();
        if read_more(source, &mut text, room)? == 0 {
            break;
        }
    }
    Ok(text)
}

/// One read of at most `room` bytes, which are added to the text.
fn read_more<S: Source>(source: &mut S, text: &mut Vec<u8>, room: usize) -> Result<usize, ReadError>
    requires { 0 < room }
    ensures within { IfOk result (λ n. n ≤ room) }
    ensures grows { IfOk result (λ n. vec_len text.new ≡ vec_len text.old + n) }
    ensures bytes { IfOk result (λ n. (bytes : _) × (text.new.items ≡ text.old.items ++ bytes) ×
        Consumes (S.bytes_left source.old) (S.bytes_left source.new) bytes) }
    ensures last_read { IfOk result (λ n. S.saw_end source.new ≡ (n == 0)) }
    ensures end { IfOk result (λ n. n ≡ 0 → IsAtEnd (S.bytes_left source.new)) }

    ensures front { OnErr result
        (LosesFront (S.bytes_left source.old) (S.bytes_left source.new) room) }
    ensures no_end { OnErr result (S.saw_end source.new ≡ false) }
    ensures ends { S.ends source.new ≡ ends_after (S.ends source.old) result }
    ensures steady { OnOk result (Stays (S.faults source.old) (S.faults source.new)) }
    ensures no_memory { IsErrOf result ReadError.OutOfMemory → Stays (S.faults source.old) (S.faults source.new) }
    ensures cause { IsErrOf result ReadError.Failed → Rose (S.faults source.old) (S.faults source.new) }
    ensures count { NeverFalls (S.faults source.old) (S.faults source.new) }
{
    let mut chunk = [0; CHUNK];
    let asked = room.min(CHUNK);
    let n = source.read(&mut chunk[..asked])?;
    text.extend_from_slice(&chunk[..n])?;
    Ok(n)
}

/// Writes a whole piece; of an empty one nothing is written.
pub fn write_all<K: Sink>(sink: &mut K, piece: &[u8]) -> Result<(), Failed>
    ensures bytes { OnOk result
        (Appends (K.bytes_taken sink.old) (K.bytes_taken sink.new) piece.now) }
    ensures front { OnErr result
        (GainsFront (K.bytes_taken sink.old) (K.bytes_taken sink.new) piece.now) }
    ensures steady { OnOk result (Stays (K.faults sink.old) (K.faults sink.new)) }
    ensures cause { OnErr result (Rose (K.faults sink.old) (K.faults sink.new)) }
    ensures count { NeverFalls (K.faults sink.old) (K.faults sink.new) }
{
    let mut written = 0;
    while written < piece.len() {
        written += sink.write(piece.split_at(written).1)?;
    }
    Ok(())
}
