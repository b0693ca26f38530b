//! Replies turned into lines.
ghost use Rattle.std.specs.Prelude.{◌≡◌, ◌++◌, OnOk};
ghost use Rattle.job.specs.Lines.{line_of, merged, last_line};

use crate::denial::Denial;
use crate::line::Line;
use enquiry::call::{Call, Reply};
use enquiry::closed::Closed;
use mapping::mapping::Mapping;
use std::alloc::AllocError;

/// The line of a reply.
impl From<Reply> for Line {
    ghost from_gives = { λ reply line. line ≡ line_of reply };

    fn from(reply: Reply) -> Line {
        match reply {
            Reply::Halved(count) => Line::Halved(count),
            Reply::Cleared(count) => Line::Cleared(count),
            Reply::Probed(low, high) => Line::Point(low, high),
            Reply::Reported(report) => Line::Range(report),
            Reply::Refused(refusal) => Line::No(refusal.into()),
        }
    }
}

/// The last line of a job.
pub(crate) fn last_line(m: &Mapping, closed: Closed) -> Line
    ensures value { result ≡ last_line m.now closed }
{
    match closed {
        Closed::Without(report) => Line::Verdict(report.verdict),
        Closed::With(_, witness) => Line::Leaves(m.inputs, witness),
    }
}

/// Adds a line for each step: the next reply's, or a refusal where there is no call.
pub(crate) fn add_lines(
    lines: &mut Vec<Line>,
    steps: &[Option<Call>],
    replies: &[Reply],
) -> Result<(), AllocError>
    ensures value { OnOk result (lines.new.items ≡ lines.old.items ++ merged steps.now replies.now) }
{
    let mut replies = replies.iter();
    for step in steps {
        let line = match step {
            None => Line::No(Denial::NoCall),
            Some(_) => match replies.next() {
                Some(reply) => Line::from(*reply),
                None => return Ok(()),
            },
        };
        lines.push(line)?;
    }
    Ok(())
}
