//! A vertex among other bytes, and the answer to its delivery.

ghost use Rattle.std.specs.Prelude.{◌≡◌, IfSome, IfNone};
ghost use Rattle.hw_c.specs.Deliveries.{bytes_of, delivered_of, IsInRange, IsOutside};

use crate::codes::{Answer, Fault, OK, answer_of, status_of};
use crate::put::receipt_answer;
use hw_types::Receipt;

/// Where a vertex is in the bytes, and the verdict on its signatures: 0 no, 1 yes.
#[repr(C)]
#[derive(Clone, Copy)]
pub struct Sent {
    pub start: u64,
    pub length: u64,
    pub verdict: u32,
}

/// The answer to the delivery of a vertex.
#[repr(C)]
#[derive(Clone, Copy)]
pub struct Delivered {
    pub status: u32,
    pub answer: Answer,
}

/// The bytes of the vertex. None where they are not all there, or its verdict is neither 0 nor 1.
pub fn bytes_of<'a>(bytes: &'a [u8], sent: Sent) -> Option<&'a [u8]>
    ensures bytes { IfSome result (λ part. part.now ≡ bytes_of bytes.now sent) }
    ensures within { IfSome result (λ part. IsInRange bytes.now sent) }
    ensures outside { IfNone result (IsOutside bytes.now sent) }
{
    let start = sent.start as usize;
    let length = sent.length as usize;
    if sent.verdict > 1 || start > bytes.len() || length > bytes.len() - start {
        return None;
    }
    Some(&bytes[start..start + length])
}

/// The answer to a delivery with this outcome.
pub fn delivered_of(outcome: Result<Receipt, Fault>) -> Delivered
    ensures { result ≡ delivered_of outcome }
{
    match outcome {
        Ok(receipt) => Delivered {
            status: OK,
            answer: receipt_answer(receipt),
        },
        Err(fault) => Delivered {
            status: status_of(fault),
            answer: answer_of(fault),
        },
    }
}
