//! The numbers that come next. A number past the greatest counts as want of memory.
ghost use Rattle.std.specs.Prelude.{◌≡◌, ◌+◌, OnOk, IfOk};
ghost use Rattle.stack_rules.specs.Net.{number_past, filter_after};

use ndis_base::{ModuleId, ModuleState, OutOfMemory};
use plain_parts::rows::next_number;
use std::marker::Model;

/// The numbers of the next list, request, status, message and filter.
#[derive(Drop)]
pub struct PlainCounters {
    list: u64,
    request: u64,
    status: u64,
    message: u64,
    filter: u64,
}

impl Model for PlainCounters {
    ghost use Rattle.stack_rules.specs.Net.{Counters};

    ghost Value = { Counters };

    ghost view = { λ c. record { list = c.list; request = c.request; status = c.status; message = c.message; filter = c.filter } };
}

/// All numbers begin with 1.
pub fn first_counters() -> PlainCounters
    ensures { result ≡ record { list = 1; request = 1; status = 1; message = 1; filter = 1 } }
{
    PlainCounters {
        list: 1,
        request: 1,
        status: 1,
        message: 1,
        filter: 1,
    }
}

impl PlainCounters {
    /// The number of the next list.
    pub fn list(&self) -> u64
        ensures { result ≡ self.now.list }
    {
        self.list
    }

    /// The number of the next request.
    pub fn request(&self) -> u64
        ensures { result ≡ self.now.request }
    {
        self.request
    }

    /// The number of the next status.
    pub fn status(&self) -> u64
        ensures { result ≡ self.now.status }
    {
        self.status
    }

    /// The number of the next message.
    pub fn message(&self) -> u64
        ensures { result ≡ self.now.message }
    {
        self.message
    }

    /// The number of the next filter.
    pub fn filter(&self) -> u64
        ensures { result ≡ self.now.filter }
    {
        self.filter
    }

    /// Counts a list that is issued.
    pub fn count_list(&mut self) -> Result<(), OutOfMemory>
        ensures { OnOk result (self.new ≡ record self.old { list = self.old.list + 1 }) }
    {
        self.list = next_number(self.list)?;
        Ok(())
    }

    /// Counts a request that is issued.
    pub fn count_request(&mut self) -> Result<(), OutOfMemory>
        ensures { OnOk result (self.new ≡ record self.old { request = self.old.request + 1 }) }
    {
        self.request = next_number(self.request)?;
        Ok(())
    }

    /// Counts a status that is on its way, where its number is the next one.
    pub fn count_status(&mut self, number: u64) -> Result<(), OutOfMemory>
        ensures { OnOk result (self.new ≡ record self.old { status = number_past self.old.status number }) }
    {
        if number == self.status {
            self.status = next_number(self.status)?;
        }
        Ok(())
    }

    /// Counts a message that is taken.
    pub fn count_message(&mut self) -> Result<(), OutOfMemory>
        ensures { OnOk result (self.new ≡ record self.old { message = self.old.message + 1 }) }
    {
        self.message = next_number(self.message)?;
        Ok(())
    }

    /// Counts a filter where the module is one and begins to attach.
    pub fn count_filter(&mut self, m: ModuleId, s: ModuleState) -> Result<(), OutOfMemory>
        ensures { OnOk result (self.new ≡ record self.old { filter = filter_after m s self.old.filter }) }
    {
        self.filter = filter_after(m, s, self.filter)?;
        Ok(())
    }
}

fn filter_after(m: ModuleId, s: ModuleState, next: u64) -> Result<u64, OutOfMemory>
    ensures { IfOk result (λ after. after ≡ filter_after m s next) }
{
    match m {
        ModuleId::Filter(f) => match s {
            ModuleState::Attaching => next_number(f),
            _ => Ok(next),
        },
        _ => Ok(next),
    }
}
