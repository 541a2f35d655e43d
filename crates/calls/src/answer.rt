// What a call answers.
use machine::report::RunReport;
use machine::step::Stepped;
use refusals::Refusal;

#[derive(Clone, Copy, Debug, PartialEq, Eq)]
pub enum Answer {
    Step(Result<Stepped, Refusal>),
    Run(Result<RunReport, Refusal>),
    Reset,
    PageCount(u32),
    Peek(Result<u8, Refusal>),
    Poke(Result<(), Refusal>),
}
