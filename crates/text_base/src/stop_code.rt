// What stands after STOP.
use crate::Bytes;

/// The code of a STOP (X3.9 section 11.12): its digits, or the characters of its constant.
#[derive(Debug, Drop)]
pub enum StopCode {
    Digits(Bytes),
    Text(Bytes),
}
