// What is counted and what is lent.
use crate::rows::{self, Code, Row};
use std::io::{Print, Stdout};
use tally::Tally;

// Differences that are printed.
const SHOWN: u64 = 8;

#[derive(Clone, Copy, Debug)]
pub struct Counts {
    // Cases of the oracle's list, and of our own; all.
    oracle: u64,
    own: u64,
    cases: u64,
    // Calls of the case that is played.
    call: u64,
    answers: Tally,
    // Those of loads, which are answers too.
    files: Tally,
    // What is lent: the row that opened or loaded, with the scratch of the one that lent.
    pub lent: Row,
}

impl Counts {
    pub fn new() -> Counts {
        Counts {
            oracle: 0,
            own: 0,
            cases: 0,
            call: 0,
            answers: Tally::default(),
            files: Tally::default(),
            lent: Row::zeros(),
        }
    }

    // A case starts.
    pub fn count_case(&mut self, is_own: bool) {
        self.cases = self.cases.saturating_add(1);
        if is_own {
            self.own = self.own.saturating_add(1);
        } else {
            self.oracle = self.oracle.saturating_add(1);
        }
        self.call = 0;
    }

    // A row that is no case: what is lent from an open or load on, until the next one; or a call, of which one answer or more are counted.
    pub fn count_row(&mut self, row: &Row, code: Code) {
        if code == Code::Lend {
            self.lent.tell(rows::SCRATCH, row.get(rows::SCRATCH));
            return;
        }
        self.call = self.call.saturating_add(1);
        if matches!(code, Code::Open | Code::Load) {
            self.lent = *row;
        }
    }

    // An answer came, as it must or not.
    pub fn count_answer(&mut self, stdout: &Stdout, code: Code, alike: bool) {
        self.answers.compare(alike);
        if !alike {
            self.say(stdout);
        }
        if matches!(code, Code::Load | Code::Damaged) {
            self.files.compare(alike);
        }
    }

    fn say(&self, stdout: &Stdout) {
        if SHOWN < self.answers.differ {
            return;
        }
        let mut line = [0; tally::LINE];
        let _is_written = stdout.write_all(b"case ").is_ok();
        tally::print_count(stdout, &mut line, self.cases, b", call ");
        tally::print_count(stdout, &mut line, self.call, b" differs\n");
    }

    pub fn print(&self, stdout: &Stdout) {
        let mut line = [0; tally::LINE];
        tally::print_count(
            stdout,
            &mut line,
            self.oracle,
            b" cases of the oracle's list, ",
        );
        tally::print_count(stdout, &mut line, self.own, b" more: ");
        tally::print_count(
            stdout,
            &mut line,
            self.answers.compared,
            b" answers compared, ",
        );
        tally::print_count(stdout, &mut line, self.answers.differ, b" differ\n");
        tally::print_count(stdout, &mut line, self.files.compared, b" files compared, ");
        tally::print_count(stdout, &mut line, self.files.differ, b" differ\n");
    }
}
