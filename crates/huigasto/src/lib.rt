// The public library: every public call, type and trait, by name. What is not here is not public.
#![tactic(auto)]

// How a call says no.
pub use refusals::Refusal;

// Instruction words.
pub use words::codes::{Condition, FlagChange, Operation, Rotation, Transfer};
pub use words::instruction::Instruction;

// Memories.
pub use memories::board::BoardMemory;
pub use memories::joined::Joined;
pub use memories::memory::Memory;
pub use memories::on_chip::OnChip;

// The machine.
pub use machine::board::{Board, BoardView};
pub use machine::report::RunReport;
pub use machine::step::Stepped;

// Pages that a program owns.
pub use ledger::owned::OwnedPages;

// Inspection, and the image that has passed.
pub use facts::interval::Interval;
pub use facts::marks::FrameMarks;
pub use inspection::inspecting::inspect;
pub use inspection::passed::PassedImage;
pub use ledger::row::Row;

// Trying a passed image.
pub use calls::answer::Answer;
pub use calls::call::Call;
pub use trial::trying::trial;

// Jobs and their listing.
pub use jobs::job::{Job, JobError};
pub use jobs::listing::{RefusedJob, listing};

// A job carried out, and what is said of it.
pub use reports::carrying::carry_out;
pub use reports::outcome::{JobOutcome, JobReport};
pub use reports::reasons::Reasons;
pub use reports::reporting::{outcome, report};

// The ledger as a table.
pub use tables::table::ledger_table;
pub use tables::tabling::job_table;
