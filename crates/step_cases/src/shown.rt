// The line of a command: count, code, subject, refusal, what Reserve answered, and the subject as it then stands.
use engine::{Answer, Entry, Subject};
use std::fmt;

// The subject that a command's line shows: for Tick subject 0.
pub(crate) fn shown(b: [u8; 8]) -> u8 {
    if b[0] == 8 { 0 } else { b[1] }
}

// What came back of a command, and its subject, if the model has it.
#[derive(Clone, Copy)]
pub(crate) struct Line {
    pub count: usize,
    pub code: u8,
    pub shown: u8,
    pub answer: Answer,
    pub subject: Option<Subject>,
}

impl fmt::Display for Line {
    fn fmt<W: fmt::Write>(&self, f: &mut fmt::Formatter<W>) -> fmt::Result {
        let Line {
            count,
            code,
            shown,
            answer,
            subject,
        } = *self;
        let refusal = engine::refusal(answer);
        let places = Places(answer);
        write!(f, "{count} {code} {shown} {refusal}")?;
        match subject {
            Some(s) => {
                let Subject {
                    state,
                    word,
                    pool,
                    ..
                } = s;
                let entries = pool.count;
                let waiting = Waiting(s);
                write!(f, " {state} {word} {entries}{places}{waiting}")
            }
            None => write!(f, " 0 0 0{places}"),
        }
    }
}

// Placed, improper, closed, full and missing: all 0 unless Reserve was accepted.
#[derive(Clone, Copy)]
struct Places(Answer);

impl fmt::Display for Places {
    fn fmt<W: fmt::Write>(&self, f: &mut fmt::Formatter<W>) -> fmt::Result {
        match self.0 {
            Answer::Reserved {
                placed,
                improper,
                closed,
                full,
                missing,
            } => write!(f, " {placed} {improper} {closed} {full} {missing}"),
            Answer::Done | Answer::Refused(_) => f.write_str(" 0 0 0 0 0"),
        }
    }
}

// Mode, waited and mask, and the entries of the pool.
#[derive(Clone, Copy)]
struct Waiting(Subject);

impl fmt::Display for Waiting {
    fn fmt<W: fmt::Write>(&self, f: &mut fmt::Formatter<W>) -> fmt::Result {
        let Subject {
            mode,
            waited,
            mask,
            pool,
            ..
        } = self.0;
        write!(f, " {mode} {waited} {mask}")?;
        for entry in pool.entries.iter().take(usize::from(pool.count)) {
            let Entry {
                sender,
                typ,
                message,
                content,
            } = entry;
            write!(f, " {sender} {typ} {} {content}", u8::from(*message))?;
        }
        Ok(())
    }
}
