// The text of a ledger's table.
ghost use Rattle.std.specs.Prelude.{◌≡◌, ◌++◌, IfOk, Some, string_bytes, OnOk};
ghost use Rattle.tables.specs.Table.{instruction_text, interval_text, row_text, line_text, lines_text, table_text};

use facts::interval::Interval;
use jobs::listing::HexWord;
use ledger::row::Row;
use std::alloc::{AllocError, Global};
use std::fmt;
use words::decoding::instruction_of;
use words::instruction::Instruction;

// Nothing where the word is no instruction.
#[derive(Clone, Copy)]
struct Decoded(Option<Instruction>);

impl fmt::Display for Decoded {
    ghost output = { λ d. Some (instruction_text d.0) };

    fn fmt<W: fmt::Write>(&self, f: &mut fmt::Formatter<W>) -> fmt::Result {
        match self.0 {
            Some(instruction) => write!(f, "{instruction}"),
            None => Ok(()),
        }
    }
}

#[derive(Clone, Copy)]
struct Ends(Interval);

impl fmt::Display for Ends {
    ghost output = { λ e. Some (interval_text e.0) };

    fn fmt<W: fmt::Write>(&self, f: &mut fmt::Formatter<W>) -> fmt::Result {
        write!(f, "{},{}", self.0.low, self.0.high)
    }
}

// The columns of a row.
#[derive(Clone, Copy)]
struct Columns(Row);

impl fmt::Display for Columns {
    ghost output = { λ c. Some (row_text c.0) };

    fn fmt<W: fmt::Write>(&self, f: &mut fmt::Formatter<W>) -> fmt::Result {
        let main = self.0.main;
        let handler = self.0.handler;
        let r14 = Ends(self.0.r14);
        let r15 = Ends(self.0.r15);
        write!(f, "{main},{handler},{r14},{r15},{}", self.0.need)
    }
}

#[derive(Clone, Copy)]
struct Line {
    address: usize,
    word: u32,
    instruction: Option<Instruction>,
    row: Row,
}

impl fmt::Display for Line {
    ghost output = { λ l. Some (line_text l.address l.word l.«instruction» l.row) };

    fn fmt<W: fmt::Write>(&self, f: &mut fmt::Formatter<W>) -> fmt::Result {
        let word = HexWord(self.word);
        let decoded = Decoded(self.instruction);
        let columns = Columns(self.row);
        write!(f, "{},{word},\"{decoded}\",{columns}", self.address)
    }
}

fn write_lines(text: &mut String, words: &[u32], rows: &[Row]) -> Result<(), AllocError>
    ensures { OnOk result (string_bytes text.new ≡ string_bytes text.old ++ lines_text 0 words.now rows.now) }
{
    for (address, (word, row)) in words.iter().zip(rows).enumerate() {
        let line = Line {
            address,
            word: *word,
            instruction: instruction_of(*word),
            row: *row,
        };
        writeln!(text, "{line}")?;
    }
    Ok(())
}

fn write_table(text: &mut String, words: &[u32], rows: &[Row]) -> Result<(), AllocError>
    ensures { OnOk result (string_bytes text.new ≡ string_bytes text.old ++ table_text words.now rows.now) }
{
    writeln!(
        text,
        "address,word,instruction,main,handler,r14_low,r14_high,r15_low,r15_high,need"
    )?;
    write_lines(text, words, rows)
}

// The table of the words that have a row.
pub fn ledger_table(heap: Global, words: &[u32], rows: &[Row]) -> Result<String, AllocError>
    ensures { IfOk result (λ text. string_bytes text ≡ table_text words.now rows.now) }
{
    let mut text = String::new(heap);
    write_table(&mut text, words, rows)?;
    Ok(text)
}
