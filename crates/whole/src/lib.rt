// The whole reading of a message.

#![tactic(auto)]

ghost use Rattle.std.specs.Prelude.{◌≡◌};
ghost use Rattle.rows.specs.Lent.{memory_of, SameLoans};
ghost use Rattle.scan.specs.Reads.{Same, memory_in};
ghost use Rattle.format.specs.Answers.{read, read_call};

use format::{Answer, refusals};
use rows::{Cursor, Key, Loans, OPEN_LIMIT};
use scan::Reading;

// The whole message of a reading, from its beginning: a refusal leaves the loans zero, but for 1, which leaves them as found.
fn read_whole(reading: &mut Reading) -> Answer
    ensures { (read result (memory_in reading.new) ≡ read_call (memory_in reading.old) reading.old.message.now) × Same reading.old reading.new }
{
    if let Some(loan) = reading.lent().fault() {
        return Answer::Refused {
            no: refusals::BAD_LOAN,
            told: loan,
            place: 0,
            taken: 0,
        };
    }
    reading.clear();
    reading.cursor = Cursor::default();
    match values::value(reading, Key::default(), OPEN_LIMIT) {
        Ok(()) => Answer::Finished {
            rows: reading.cursor.rows,
            bytes: reading.cursor.store,
            taken: reading.cursor.at,
        },
        Err(refusal) => {
            reading.clear();
            Answer::Refused {
                no: refusal.number,
                told: refusal.told,
                place: refusal.place,
                taken: 0,
            }
        }
    }
}

// The whole message, read into loans that were lent for it.
pub fn read(loans: &mut Loans, message: &[u8]) -> Answer
    ensures call { read result (memory_of loans.new) ≡ read_call (memory_of loans.old) message.now }
    ensures same { SameLoans loans.old loans.new }
{
    let mut reading = Reading {
        message,
        rows: &mut *loans.rows,
        store: &mut *loans.store,
        strings: &mut *loans.strings,
        objects: &mut *loans.objects,
        traits: &mut *loans.traits,
        names: &mut *loans.names,
        cursor: Cursor::default(),
    };
    read_whole(&mut reading)
}
