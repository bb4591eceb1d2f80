//! Piles of arbiters by their settings.
use super::script::{NoCode, Script};
use arbiter::job_driven::JobDriven;
use arbiter::lesser::Lesser;
use arbiter::refresh::Refresh;
use arbiter::request_driven::RequestDriven;
use arbiter::station;
use terms::numbers::{DelayPerRequest, Picos};
use terms::refusal::Refusal;

/// What a pile is made of.
#[derive(Clone, Copy, Debug, PartialEq, Eq)]
pub(crate) enum Kind {
    RequestDriven,
    JobDriven,
    Lesser,
    RefreshOverRequestDriven,
    RefreshOverJobDriven,
    RefreshOverLesser,
    LesserOverRefreshes,
    RefreshOverRefresh,
}

impl TryFrom<u8> for Kind {
    type Error = NoCode;

    // case by case: `as` leads from a case to its number, and nothing leads back
    fn try_from(byte: u8) -> Result<Kind, NoCode> {
        match byte {
            0 => Ok(Kind::RequestDriven),
            1 => Ok(Kind::JobDriven),
            2 => Ok(Kind::Lesser),
            3 => Ok(Kind::RefreshOverRequestDriven),
            4 => Ok(Kind::RefreshOverJobDriven),
            5 => Ok(Kind::RefreshOverLesser),
            6 => Ok(Kind::LesserOverRefreshes),
            7 => Ok(Kind::RefreshOverRefresh),
            _ => Err(NoCode),
        }
    }
}

/// The interval and the length of a refresh.
#[derive(Clone, Copy, Debug, PartialEq, Eq)]
pub(crate) struct Refreshes {
    interval: Picos,
    span: Picos,
}

impl Refreshes {
    /// An arbiter with these refreshes over it.
    pub(crate) fn over<P: Drop>(&self, below: P) -> Result<Refresh<P>, Refusal> {
        Refresh::new(below, self.interval, self.span)
    }
}

/// A pile with all settings that one can have: those of the arbiters at the bottom, and two refreshes.
#[derive(Clone, Copy, Debug, PartialEq, Eq)]
pub(crate) struct Pile {
    pub(crate) kind: Kind,
    cores: usize,
    l: DelayPerRequest,
    conflict: DelayPerRequest,
    reorder: DelayPerRequest,
    pub(crate) first: Refreshes,
    pub(crate) second: Refreshes,
}

impl Pile {
    /// The pile that stands next in a script: the kind in a byte, the settings in eight numbers.
    pub(crate) fn read(script: &mut Script) -> Option<Pile> {
        let kind = Kind::try_from(script.byte()?).ok()?;
        let cores = script.number()? as usize;
        let [l, conflict, reorder] = script.numbers::<3>()?.map(DelayPerRequest::new);
        let [interval, span] = script.numbers::<2>()?.map(Picos::new);
        let first = Refreshes { interval, span };
        let [interval, span] = script.numbers::<2>()?.map(Picos::new);
        let second = Refreshes { interval, span };
        Some(Pile {
            kind,
            cores,
            l,
            conflict,
            reorder,
            first,
            second,
        })
    }

    /// The request-driven arbiter.
    pub(crate) fn requests(&self) -> Result<RequestDriven, Refusal> {
        RequestDriven::new(self.cores, self.l, self.conflict, self.reorder)
    }

    /// The job-driven arbiter.
    pub(crate) fn jobs(&self) -> Result<JobDriven, Refusal> {
        JobDriven::new(self.cores, self.l, self.conflict)
    }

    /// The lesser of both.
    pub(crate) fn lesser(&self) -> Result<station::Pile, Refusal> {
        Ok(Lesser::new(self.requests()?, self.jobs()?))
    }
}
