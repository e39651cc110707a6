//! How the outcome of a call goes into the caller's structs and buffers.

ghost use Rattle.std.specs.Prelude.{◌≡◌, length};
ghost use Rattle.hw_c.specs.{Told.{status, behind, Puts, PutsWith, receipt_answer}, Buffers.{IsWritten, IsPutWithBytes, copied}};

use crate::codes::{Answer, Fault, OK, answer_of, blank, status_of};
use hw_text::rule_number;
use hw_types::{Bytes, Receipt};

/// A value for one of the caller's structs, and the bytes for the buffer beside it.
#[derive(Drop)]
pub struct WithBytes<T> {
    pub value: T,
    pub bytes: Bytes,
}

/// Puts the value, if the call succeeded, and answers the status.
pub fn put<T: Copy>(outcome: Result<T, Fault>, out: &mut T) -> u32
    ensures { Puts outcome out.old out.new result }
{
    match outcome {
        Ok(value) => {
            *out = value;
            OK
        }
        Err(fault) => status_of(fault),
    }
}

/// The same, and puts the details of the status.
pub fn put_with<T: Copy>(outcome: Result<T, Fault>, out: &mut T, answer: &mut Answer) -> u32
    ensures { PutsWith outcome out.old out.new answer.new result }
{
    match outcome {
        Ok(value) => {
            *out = value;
            *answer = blank();
            OK
        }
        Err(fault) => {
            *answer = answer_of(fault);
            status_of(fault)
        }
    }
}

/// The status of a call that gives no value.
pub fn said(outcome: Result<(), Fault>) -> u32
    ensures { result ≡ status outcome }
{
    match outcome {
        Ok(()) => OK,
        Err(fault) => status_of(fault),
    }
}

/// Puts the details of the status, and answers the status.
pub fn put_done(outcome: Result<(), Fault>, answer: &mut Answer) -> u32
    ensures status { result ≡ status outcome }
    ensures answer { answer.new ≡ behind outcome }
{
    match outcome {
        Ok(()) => {
            *answer = blank();
            OK
        }
        Err(fault) => {
            *answer = answer_of(fault);
            status_of(fault)
        }
    }
}

/// Details of a delivery that succeeded: what became of the vertex.
pub fn receipt_answer(receipt: Receipt) -> Answer
    ensures { result ≡ receipt_answer receipt }
{
    let mut answer = blank();
    match receipt {
        Receipt::Admitted { settled } => answer.count = settled,
        Receipt::Parked { missing } => {
            answer.kind = 1;
            answer.count = missing;
        }
        Receipt::Dropped(rule) => {
            answer.kind = 2;
            answer.count = rule_number(rule);
        }
        Receipt::Repeat => answer.kind = 3,
    }
    answer
}

/// Copies as many bytes as fit, and answers how many there are in all.
pub fn copy_bytes(bytes: &[u8], buf: &mut [u8]) -> usize
    ensures count { result ≡ length bytes.now }
    ensures copied { buf.new ≡ copied bytes.now buf.old }
{
    copy_all(bytes, buf)
}

/// Copies as many values as fit, and answers how many there are in all.
pub fn copy_all<T: Copy>(values: &[T], list: &mut [T]) -> usize
    ensures count { result ≡ length values.now }
    ensures copied { list.new ≡ copied values.now list.old }
{
    let count = if values.len() < list.len() {
        values.len()
    } else {
        list.len()
    };
    list[..count].copy_from_slice(&values[..count]);
    values.len()
}

/// Puts bytes and their count, if the call succeeded, and answers the status.
pub fn put_bytes(outcome: Result<Bytes, Fault>, buf: &mut [u8], len: &mut usize) -> u32
    ensures status { result ≡ status outcome }
    ensures written { IsWritten outcome buf.old buf.new len.old len.new }
{
    match outcome {
        Ok(bytes) => {
            *len = copy_bytes(bytes.as_slice(), buf);
            OK
        }
        Err(fault) => status_of(fault),
    }
}

/// Puts a value and its bytes, if the call succeeded, and answers the status.
pub fn put_both<T: Copy>(outcome: Result<WithBytes<T>, Fault>, out: &mut T, buf: &mut [u8]) -> u32
    ensures status { result ≡ status outcome }
    ensures put { IsPutWithBytes outcome out.old out.new buf.old buf.new }
{
    match outcome {
        Ok(WithBytes { value, bytes }) => {
            *out = value;
            copy_bytes(bytes.as_slice(), buf);
            OK
        }
        Err(fault) => status_of(fault),
    }
}

/// The same, and puts the details of the status.
pub fn put_both_with<T: Copy>(
    outcome: Result<WithBytes<T>, Fault>,
    out: &mut T,
    buf: &mut [u8],
    answer: &mut Answer,
) -> u32
    ensures status { result ≡ status outcome }
    ensures put { IsPutWithBytes outcome out.old out.new buf.old buf.new }
    ensures answer { answer.new ≡ behind outcome }
{
    match outcome {
        Ok(WithBytes { value, bytes }) => {
            *out = value;
            copy_bytes(bytes.as_slice(), buf);
            *answer = blank();
            OK
        }
        Err(fault) => {
            *answer = answer_of(fault);
            status_of(fault)
        }
    }
}

/// The same as `put_bytes`, and puts the details of the status.
pub fn put_bytes_with(
    outcome: Result<Bytes, Fault>,
    buf: &mut [u8],
    len: &mut usize,
    answer: &mut Answer,
) -> u32
    ensures status { result ≡ status outcome }
    ensures written { IsWritten outcome buf.old buf.new len.old len.new }
    ensures answer { answer.new ≡ behind outcome }
{
    match outcome {
        Ok(bytes) => {
            *len = copy_bytes(bytes.as_slice(), buf);
            *answer = blank();
            OK
        }
        Err(fault) => {
            *answer = answer_of(fault);
            status_of(fault)
        }
    }
}
