// What the readers of forms share: why a form is refused, looking symbols up, and what it is to read the forms of a
// language word by word.
#![tactic(auto)]

pub mod naming;
pub mod refusal;
pub mod text;
