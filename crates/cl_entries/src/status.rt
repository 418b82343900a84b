//! The steps and the replies of commands, how a command ends, and why it stops.
ghost use Rattle.std.specs.Prelude.{◌≡◌, ◌++◌, IfOk, string_bytes};
ghost use Rattle.cl_entries.specs.Scripts.{number_of, stop_number, end_number};

use cl_events::Event;
use cl_file::Row;
use cl_ports::Failed;
use cl_types::NoMemory;
use std::alloc::{AllocError, Global};

/// A step of a command: events that are told, and then bytes that are written.
#[derive(Drop)]
pub struct Step {
    pub events: Row<Event>,
    pub bytes: Row<u8>,
}

/// What a command writes in one step, and how it ends.
#[derive(Drop)]
pub struct Reply {
    pub text: Row<u8>,
    pub status: Status,
}

/// How a command ends that was done to its end.
#[derive(Clone, Copy)]
pub enum Status {
    /// 0: it was done.
    Done,
    /// 2: the words are not of the table.
    Usage,
    /// 5: a file that the words name is too long, or not in its format.
    BadFile,
    /// 6: a contract of `check` or the deployment of `call` is refused, or `audit` or `verify` says
    /// no.
    Refused,
    /// 7: the deployment of `call` aborts, or its call is an err, aborted or refused.
    NotGood,
    /// 8: a word is no value, isn't in hexadecimal digits, or names a row that isn't there.
    BadWord,
}

/// Why a command stops before its end.
#[derive(Clone, Copy)]
pub enum Stop {
    /// 3: a read failed.
    ReadFailed,
    /// 4: a write failed.
    WriteFailed,
    /// 9: memory ran out.
    NoMemory,
}

impl From<AllocError> for Stop {
    ghost use Rattle.std.specs.Prelude.{◌≡◌};
    ghost use Rattle.cl_entries.specs.declared.status.Stop.TheVariants.{NoMemory};

    ghost from_gives = { λ _ e. e ≡ NoMemory };

    fn from(_error: AllocError) -> Self {
        Stop::NoMemory
    }
}

impl From<NoMemory> for Stop {
    ghost use Rattle.std.specs.Prelude.{◌≡◌};
    ghost use Rattle.cl_entries.specs.declared.status.Stop.TheVariants.{NoMemory as OutOfMemory};

    ghost from_gives = { λ _ e. e ≡ OutOfMemory };

    fn from(_error: NoMemory) -> Self {
        Stop::NoMemory
    }
}

impl From<Failed> for Stop {
    ghost use Rattle.std.specs.Prelude.{◌≡◌};
    ghost use Rattle.cl_entries.specs.declared.status.Stop.TheVariants.{WriteFailed};

    ghost from_gives = { λ _ e. e ≡ WriteFailed };

    fn from(_error: Failed) -> Self {
        Stop::WriteFailed
    }
}

fn number_of(status: Status) -> u8
    ensures { result ≡ number_of status }
{
    match status {
        Status::Done => 0,
        Status::Usage => 2,
        Status::BadFile => 5,
        Status::Refused => 6,
        Status::NotGood => 7,
        Status::BadWord => 8,
    }
}

fn stop_number(stop: Stop) -> u8
    ensures { result ≡ stop_number stop }
{
    match stop {
        Stop::ReadFailed => 3,
        Stop::WriteFailed => 4,
        Stop::NoMemory => 9,
    }
}

/// The number of a status, or of the reason to stop.
pub fn end_number(end: Result<Status, Stop>) -> u8
    ensures { result ≡ end_number end }
{
    match end {
        Ok(status) => number_of(status),
        Err(stop) => stop_number(stop),
    }
}

/// A reply of one text.
pub fn text_reply(text: String, status: Status) -> Reply
    ensures { result ≡ record { text = string_bytes text; status = status } }
{
    bytes_reply(text.into_bytes(), status)
}

/// A reply of these bytes.
pub fn bytes_reply(bytes: Vec<u8>, status: Status) -> Reply
    ensures { result ≡ record { text = bytes.items; status = status } }
{
    Reply {
        text: Row::new(bytes),
        status,
    }
}

/// Three texts one after another.
#[tactic(auto, using(std::proofs::Common::append_assoc))]
pub fn concat_bytes(front: Vec<u8>, middle: &[u8], back: &[u8]) -> Result<Vec<u8>, AllocError>
    ensures { IfOk result (λ text. text.items ≡ front.items ++ (middle.now ++ back.now)) }
{
    let mut text = front;
    text.extend_from_slice(middle)?;
    text.extend_from_slice(back)?;
    Ok(text)
}
