// What is left of an enquiry that has ended.
use crate::report::Report;
use crate::witness::Witness;

/// The report as it stood, and the witness if there was one.
// Two cases, and no report beside an `Option`: who has a witness has it in a case of its own, as a closed enquiry alone does.
#[derive(Clone, Copy, PartialEq, Eq, Debug)]
pub enum Closed {
    Without(Report),
    With(Report, Witness),
}
