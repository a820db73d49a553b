//! A text against the one that is wanted.
ghost use Rattle.std.specs.Prelude.{◌+◌, ◌<◌, ◌^◌, IfOk, length, min};
ghost use Rattle.vk_check.specs.Verdicts.{HasFewSharedLines, IsVerdict};

use crate::lines::{is_same, shown_line, split_line};
use crate::verdicts::Verdict;
use std::alloc::Global;
use vk_base::Memory;

// Compares two texts that don't begin with too many of the same lines.
pub(crate) fn compare_lines(alloc: Global, report: &[u8], want: &[u8]) -> Result<Verdict, Memory>
    requires { HasFewSharedLines report.now want.now }
    ensures { IfOk result (IsVerdict report.now want.now) }
{
    let mut line = 1;
    let mut left = report;
    let mut wanted = want;
    loop {
        let (one, rest) = split_line(left);
        let (other, more) = split_line(wanted);
        if !is_same(one, other) {
            let want = shown_line(alloc, other)?;
            return Ok(Verdict::No { line, want });
        }
        if one.is_empty() {
            return Ok(Verdict::Yes);
        }
        line += 1;
        left = rest;
        wanted = more;
    }
}

/// Whether two texts have the same bytes; if not, the first line at which they differ, and the
/// wanted line there, `None` where the wanted text has ended. A line ends with its line feed; last
/// bytes without one are a line of their own. It has the condition that one of the two has fewer
/// than 2^32 - 1 bytes.
pub fn compare(alloc: Global, report: &[u8], want: &[u8]) -> Result<Verdict, Memory>
    requires { min (length report.now) (length want.now) + 1 < 2 ^ 32 }
    ensures { IfOk result (IsVerdict report.now want.now) }
{
    compare_lines(alloc, report, want)
}
