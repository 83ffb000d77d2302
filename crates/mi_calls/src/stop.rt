// What ends the program.
use crate::tags::UnknownTag;

#[derive(Clone, Copy)]
pub enum Stop {
    InputEnds,
    NoRecord,
    NotRead,
    NotWritten,
}

impl From<UnknownTag> for Stop {
    fn from(_tag: UnknownTag) -> Self {
        Stop::NoRecord
    }
}

// A record that is none prints `bad`, and a read or a write that failed is told. The end of the input between records is silent.
pub(crate) fn tell(rt: &(impl Print + Eprint), stop: Stop) {
    let _ = match stop {
        Stop::InputEnds => Ok(()),
        Stop::NoRecord => println!(rt; "bad"),
        Stop::NotRead => eprintln!(rt; "mi_calls: standard input can not be read"),
        Stop::NotWritten => {
            eprintln!(rt; "mi_calls: standard output can not be written; lines are missing")
        }
    };
}
