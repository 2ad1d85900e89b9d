//! Why a step isn't done.

ghost use Rattle.std.specs.Prelude.{◌≡◌};
ghost use Rattle.quil_code.specs.Faults.{fault_of, fault_report, line_report, index_report, angle_report};

use qvm_diagnostic::{Detail, Diagnostic};

/// Why a step can't be done, with its line in the text. The machine is then as it was.
#[derive(Clone, Copy, Debug, PartialEq, Eq)]
pub enum Fault {
    /// A parameter is no whole number of eighths of a turn in 64 bits.
    NotExact {
        line: u32,
    },
    /// LOAD or STORE meets an index that isn't from 0 to below the length of the region, whose number counts from 0.
    OutOfRange {
        line: u32,
        region: u32,
        index: i64,
        length: u64,
    },
    /// RX, RY or RZ under CONTROLLED or FORKED meets an odd number of eighths of a turn.
    AngleInexact {
        line: u32,
        eighths: i64,
    },
    /// The reduced product of the gate weighs more than 2^94.
    AmplitudeLimit {
        line: u32,
    },
    /// The result isn't in the type of its cell.
    Overflow {
        line: u32,
    },
    /// DIV by 0.
    ZeroDivide {
        line: u32,
    },
}

/// Why a classical instruction can't be done. Memory is then as it was.
#[derive(Clone, Copy, Debug, PartialEq, Eq)]
pub enum ClassicFault {
    /// LOAD or STORE meets an index that isn't from 0 to below the length of the region, whose number counts from 0.
    OutOfRange {
        line: u32,
        region: u32,
        index: i64,
        length: u64,
    },
    /// The result isn't in the type of its cell.
    Overflow {
        line: u32,
    },
    /// DIV by 0.
    ZeroDivide {
        line: u32,
    },
}

impl From<ClassicFault> for Fault {
    ghost from_gives = { λ f g. g ≡ fault_of f };

    fn from(fault: ClassicFault) -> Fault {
        match fault {
            ClassicFault::OutOfRange {
                line,
                region,
                index,
                length,
            } => Fault::OutOfRange {
                line,
                region,
                index,
                length,
            },
            ClassicFault::Overflow { line } => Fault::Overflow { line },
            ClassicFault::ZeroDivide { line } => Fault::ZeroDivide { line },
        }
    }
}

// A fault that tells its line alone.
pub(crate) fn of_line(code: u16, name: &'static str, line: u32) -> Diagnostic<'static>
    ensures { result ≡ line_report code name.now line }
{
    Diagnostic::new(code, name, &[("line", Detail::Count(u64::from(line)))])
}

fn out_of_range(line: u32, region: u32, index: i64, length: u64) -> Diagnostic<'static>
    ensures { result ≡ index_report line region index length }
{
    Diagnostic::new(
        14,
        "OutOfRange",
        &[
            ("index", Detail::Signed(index)),
            ("length", Detail::Count(length)),
            ("line", Detail::Count(u64::from(line))),
            ("region", Detail::Count(u64::from(region))),
        ],
    )
}

// An angle that a gate can't take.
pub(crate) fn angle_inexact(line: u32, eighths: i64) -> Diagnostic<'static>
    ensures { result ≡ angle_report line eighths }
{
    Diagnostic::new(
        17,
        "AngleInexact",
        &[
            ("eighths", Detail::Signed(eighths)),
            ("line", Detail::Count(u64::from(line))),
        ],
    )
}

impl Fault {
    /// What the fault says.
    pub fn diagnostic(&self) -> Diagnostic<'static>
        ensures { result ≡ fault_report self.now }
    {
        match *self {
            Fault::NotExact { line } => of_line(2, "NotExact", line),
            Fault::OutOfRange {
                line,
                region,
                index,
                length,
            } => out_of_range(line, region, index, length),
            Fault::AngleInexact { line, eighths } => angle_inexact(line, eighths),
            Fault::AmplitudeLimit { line } => of_line(28, "AmplitudeLimit", line),
            Fault::Overflow { line } => of_line(29, "Overflow", line),
            Fault::ZeroDivide { line } => of_line(30, "ZeroDivide", line),
        }
    }
}
