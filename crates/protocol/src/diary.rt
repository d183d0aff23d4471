// A line for each step.
use std::{fmt, io};

#[derive(Clone, Copy)]
pub enum Step {
    Made,
    Drafted,
    Added,
    Refused,
    Started,
    Listed,
    Took { code: u64, links: u32 },
    Ended,
    Untaken,
    Closed,
    Returned { lefts: usize, rights: usize },
}

impl fmt::Display for Step {
    fn fmt<W: fmt::Write>(&self, f: &mut fmt::Formatter<W>) -> fmt::Result {
        match *self {
            Step::Made => write!(f, "made two tables"),
            Step::Drafted => write!(f, "drafted over the tables"),
            Step::Added => write!(f, "added a condition"),
            Step::Refused => write!(f, "the condition was refused"),
            Step::Started => write!(f, "started the draft"),
            Step::Listed => write!(f, "started its listing"),
            Step::Took { code, links } => write!(f, "took code {code} with {links} links"),
            Step::Ended => write!(f, "took nothing: the listing has ended"),
            Step::Untaken => write!(f, "the take was refused"),
            Step::Closed => write!(f, "closed the listing"),
            Step::Returned { lefts, rights } => {
                write!(f, "got the tables back: {lefts} and {rights} subjects")
            }
        }
    }
}

// Prints each step. A failure is kept until the end, since a step that returned early would leave a draft or a listing behind.
#[derive(Drop)]
pub struct Diary<'a> {
    rt: &'a HostRuntime,
    failure: Option<io::Error>,
}

impl<'a> Diary<'a> {
    pub fn new(rt: &'a HostRuntime) -> Diary<'a> {
        Diary { rt, failure: None }
    }

    pub fn note(&mut self, step: Step) {
        if let Err(error) = self.rt.println(step) {
            self.failure = Some(error);
        }
    }

    // Whether every step was printed.
    pub fn end(self) -> io::Result<()> {
        let Diary { rt: _, failure } = self;
        failure.map_or(Ok(()), Err)
    }
}
