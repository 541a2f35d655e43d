// Takes a job's bytes apart, record by record.
ghost use Rattle.std.specs.Prelude.{◌≡◌, ◌^◌, ◌<◌, [], ◌∷◌};
ghost use Rattle.jobs.specs.Records.{two_bytes, three_bytes};
ghost use Rattle.jobs.specs.Taking.{Ready, ReadyFor, Takes};

use crate::record::Record;
use refusals::Refusal;

// What is left of a job's bytes, and the place in the job where that begins: a rule of the project names this form.
#[derive(Drop)]
pub(crate) struct Reader<'a> {
    pub(crate) rest: &'a [u8],
    pub(crate) place: usize,
}

// The number that two bytes spell, the high byte first.
fn two_bytes(high: u8, low: u8) -> u16
    ensures { two_bytes result ≡ high ∷ low ∷ [] }
{
    u16::from_be_bytes([high, low])
}

// The number that three bytes spell, the high byte first.
fn three_bytes(high: u8, middle: u8, low: u8) -> u32
    ensures { (three_bytes result ≡ high ∷ middle ∷ low ∷ []) × (result < 2 ^ 24) }
{
    u32::from_be_bytes([0, high, middle, low])
}

impl Reader<'_> {
    // The next record, or what keeps the bytes from having one.
    pub(crate) fn take_record(&mut self) -> Result<Record, Refusal>
        requires { Ready self.old }
        ensures { Takes self.old result self.new }
    {
        match char::from(self.rest[0]) {
            'P' => self.take_pages(),
            'W' => self.take_word(),
            'T' => self.take_tick(),
            _ => Err(Refusal::UnknownKind { place: self.place }),
        }
    }

    // A rule of the project names slice patterns here, and a pattern spells out its bytes: so three functions.
    fn take_pages(&mut self) -> Result<Record, Refusal>
        requires { ReadyFor 80 self.old }
        ensures { Takes self.old result self.new }
    {
        match self.rest {
            [_, a, b, c, d, rest @ ..] => {
                let record = Record::Pages {
                    first: u32::from(two_bytes(*a, *b)),
                    last: u32::from(two_bytes(*c, *d)),
                };
                self.rest = rest;
                self.place += 5;
                Ok(record)
            }
            _ => Err(Refusal::RecordCutOff { place: self.place }),
        }
    }

    fn take_word(&mut self) -> Result<Record, Refusal>
        requires { ReadyFor 87 self.old }
        ensures { Takes self.old result self.new }
    {
        match self.rest {
            [_, a, b, c, rest @ ..] => {
                let word = three_bytes(*a, *b, *c);
                self.rest = rest;
                self.place += 4;
                Ok(Record::Word { word })
            }
            _ => Err(Refusal::RecordCutOff { place: self.place }),
        }
    }

    fn take_tick(&mut self) -> Result<Record, Refusal>
        requires { ReadyFor 84 self.old }
        ensures { Takes self.old result self.new }
    {
        match self.rest {
            [_, a, b, rest @ ..] => {
                let tick = two_bytes(*a, *b);
                self.rest = rest;
                self.place += 3;
                Ok(Record::Tick { tick })
            }
            _ => Err(Refusal::RecordCutOff { place: self.place }),
        }
    }
}
