// The record of the trials, and its steps: each takes the record by value and hands the next one back.
#![tactic(auto)]

ghost use Rattle.std.specs.Prelude.{◌≡◌, ◌≤◌, ◌<◌};
ghost use Rattle.limits.specs.Limits.{most_paths};
ghost use Rattle.trial_record.specs.Steps.{fresh, with_plan, Recordable, passed_of, failed_of};
ghost use Rattle.trial_record.specs.Steps.{replanned as Steps-replanned};

use routes::Plan;

// The record of 01. The stage is 0 while a walk (01: line-up) stands, 1 once it has passed, 2 where there is none: a number, since a record
// with another is refused (9), and so can be held.
#[derive(Clone, Copy, PartialEq, Eq, Debug)]
pub struct Record {
    pub stage: usize,
    pub start: u8,
    pub end: u8,
    // how many forbidden paths (01: runs) are known, and how many were at the start
    pub known: usize,
    pub first: usize,
    // the accepted reports of each kind
    pub failed: usize,
    pub passed: usize,
    // the standing walk's weight and its number of vertices
    pub litres: u64,
    pub length: usize,
}

impl Record {
    // The record of trials that begin with that many forbidden paths known, before there is a plan.
    pub fn new(start: u8, end: u8, known: usize) -> Record
        ensures { result ≡ fresh start end known }
    {
        Record {
            stage: 2,
            start,
            end,
            known,
            first: known,
            failed: 0,
            passed: 0,
            litres: 0,
            length: 0,
        }
    }

    // A walk stands.
    pub fn standing(mut self, weight: u64, length: usize) -> Record
        ensures { result ≡ with_plan self 0 weight length }
    {
        self.stage = 0;
        self.litres = weight;
        self.length = length;
        self
    }

    // There is no walk.
    pub fn nothing(mut self) -> Record
        ensures { result ≡ with_plan self 2 0 0 }
    {
        self.stage = 2;
        self.litres = 0;
        self.length = 0;
        self
    }

    // The plan anew.
    pub fn replanned(self, found: Option<Plan>) -> Record
        requires { Recordable found }
        ensures { result ≡ Steps-replanned self found }
    {
        match found {
            Some(plan) => self.standing(plan.weight, plan.hops + 1),
            None => self.nothing(),
        }
    }

    // The standing walk has passed.
    pub fn passed(mut self) -> Record
        ensures { result ≡ passed_of self }
    {
        self.stage = 1;
        self.passed = 1;
        self
    }

    // The standing walk has failed: one more forbidden path is known.
    pub fn failed(mut self) -> Record
        requires { (self.known < most_paths) × (self.failed ≤ self.known) }
        ensures { result ≡ failed_of self }
    {
        self.known += 1;
        self.failed += 1;
        self
    }
}
