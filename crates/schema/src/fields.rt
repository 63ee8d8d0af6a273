// The fields of each message by their numbers, with the slots that they are read to.
#![tactic(auto, using(std::proofs::lemmas::Bool::Decides::nat_tests), unfolding(crate::specs::Targets::look, crate::specs::Schema::width, crate::specs::Schema::slot_at, crate::specs::Schema::part_schema))]

ghost use Rattle.std.specs.Prelude.{◌≡◌};
ghost use Rattle.schema.specs.Schema.{request, response, init, feedback, close, request_meta, response_meta};
ghost use Rattle.schema.specs.Targets.{look, target_of, Fit};

use crate::{REQUEST_META, RESPONSE_META, Target};

pub(crate) fn request_field(number: u32) -> Target
    ensures { (look request 0 number ≡ target_of result) × Fit result }
{
    match number {
        1 => Target::Number(0), // version
        2 => Target::Number(1), // call_type
        3 => Target::Number(2), // request_id
        4 => Target::Number(3), // timeout
        5 => Target::Bytes(4), // caller
        6 => Target::Bytes(6), // callee
        7 => Target::Bytes(8), // func
        8 => Target::Number(10), // message_type
        9 => Target::Entry, // trans_info
        10 => Target::Number(11), // content_type
        11 => Target::Number(12), // content_encoding
        12 => Target::Number(13), // attachment_size
        _ => Target::Unknown,
    }
}

pub(crate) fn response_field(number: u32) -> Target
    ensures { (look response 0 number ≡ target_of result) × Fit result }
{
    match number {
        1 => Target::Number(0), // version
        2 => Target::Number(1), // call_type
        3 => Target::Number(2), // request_id
        4 => Target::Number(3), // ret
        5 => Target::Number(4), // func_ret
        6 => Target::Bytes(5), // error_msg
        7 => Target::Number(7), // message_type
        8 => Target::Entry, // trans_info
        9 => Target::Number(8), // content_type
        10 => Target::Number(9), // content_encoding
        12 => Target::Number(10), // attachment_size
        _ => Target::Unknown,
    }
}

pub(crate) fn init_field(number: u32) -> Target
    ensures { (look init 0 number ≡ target_of result) × Fit result }
{
    match number {
        1 => Target::Message(0, REQUEST_META), // request_meta
        2 => Target::Message(8, RESPONSE_META), // response_meta
        3 => Target::Number(12), // init_window_size
        4 => Target::Number(13), // content_type
        5 => Target::Number(14), // content_encoding
        _ => Target::Unknown,
    }
}

pub(crate) fn feedback_field(number: u32) -> Target
    ensures { (look feedback 0 number ≡ target_of result) × Fit result }
{
    match number {
        1 => Target::Number(0), // window_size_increment
        _ => Target::Unknown,
    }
}

pub(crate) fn close_field(number: u32) -> Target
    ensures { (look close 0 number ≡ target_of result) × Fit result }
{
    match number {
        1 => Target::Number(0), // close_type
        2 => Target::Number(1), // ret
        3 => Target::Bytes(2), // msg
        4 => Target::Number(4), // message_type
        5 => Target::Entry, // trans_info
        6 => Target::Number(5), // func_ret
        _ => Target::Unknown,
    }
}

pub(crate) fn request_meta_field(number: u32) -> Target
    ensures { (look request_meta 1 number ≡ target_of result) × Fit result }
{
    match number {
        1 => Target::Bytes(1), // caller
        2 => Target::Bytes(3), // callee
        3 => Target::Bytes(5), // func
        4 => Target::Number(7), // message_type
        5 => Target::Entry, // trans_info
        _ => Target::Unknown,
    }
}

pub(crate) fn response_meta_field(number: u32) -> Target
    ensures { (look response_meta 9 number ≡ target_of result) × Fit result }
{
    match number {
        1 => Target::Number(9), // ret
        2 => Target::Bytes(10), // error_msg
        _ => Target::Unknown,
    }
}
