//! The functions that the program offers to choreographies.

ghost use Rattle.std.specs.Prelude.{◌≡◌};
ghost use Rattle.chor_base.specs.Meaning.{IsAllowed, operated};
ghost use Rattle.chor_base.specs.declared.meaning.HostOp.TheVariants.{Min, Max, Gap};
ghost use Rattle.chor_host.specs.Program.{diced, of_a_die};

use chor_base::HostOp;

/// The smaller number.
pub fn host_min(a: i64, b: i64) -> i64
    ensures { result ≡ operated Min a b }
{
    a.min(b)
}

/// The greater number.
pub fn host_max(a: i64, b: i64) -> i64
    ensures { result ≡ operated Max a b }
{
    a.max(b)
}

/// How far apart two numbers are, at most 2^63 - 1.
pub fn host_gap(a: i64, b: i64) -> i64
    ensures { result ≡ operated Gap a b }
{
    a.saturating_sub(b).saturating_abs()
}

/// The face of a die, from 1 to 6: 1 plus the remainder of `host_gap` divided by 6.
pub fn host_dice(a: i64, b: i64) -> i64
    ensures value { result ≡ diced a b }
    ensures face { IsAllowed of_a_die a b result }
{
    1 + host_gap(a, b) % 6
}

/// The value of an operation.
pub(crate) fn value_of(op: HostOp, a: i64, b: i64) -> i64
    ensures { result ≡ operated op a b }
{
    match op {
        HostOp::Min => host_min(a, b),
        HostOp::Max => host_max(a, b),
        HostOp::Gap => host_gap(a, b),
    }
}
