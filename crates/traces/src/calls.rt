// The calls of a trace, each a line, made on the gateway. What a call is handed stands from a place of its line on.
ghost use Rattle.std.specs.Prelude.{◌≤◌, length};

use crate::replies::{after, is_answer, is_entry, is_response};
use crate::words::{bytes_of, next_word, number, number32, word_stop};
use octets::same_bytes;

// What a call came to. Where its reply is as kept, the message buffer lent has so many bytes from here on.
#[derive(Clone, Copy)]
pub enum Outcome {
    AsKept(usize),
    Other,
    NotMade,
}

fn came_to(same: bool, room: usize) -> Outcome {
    if same {
        return Outcome::AsKept(room);
    }
    Outcome::Other
}

fn start(records: &mut [u8], line: &[u8], at: usize, reply: &[u8]) -> bool
    requires { at ≤ length line.now }
{
    let second = next_word(line, at);
    let third = next_word(line, second);
    let stop = word_stop(line, at);
    let mut root = [0; 65536];
    let n = bytes_of(&line[at..stop], &mut root);
    is_answer(
        reply,
        gateway::gateway_start(
            records,
            &root[0..n],
            number32(line, second),
            number32(line, third),
        ),
    )
}

// An open that lends more than there is, is not made: a message buffer past the limit does not fit a program's stack.
fn open(
    records: &mut [u8],
    message: &[u8],
    room: usize,
    line: &[u8],
    at: usize,
    reply: &[u8],
) -> Outcome
    requires { at ≤ length line.now }
{
    let second = next_word(line, at);
    let third = next_word(line, second);
    let context = number32(line, at);
    let syntax = number32(line, second);
    let lent = number(line, third) as usize;
    if message.len() < lent {
        return Outcome::NotMade;
    }
    let n = gateway::gateway_open(records, &message[0..lent], context, syntax);
    if n == 0 {
        return came_to(is_answer(reply, n), lent);
    }
    came_to(is_answer(reply, n), room)
}

fn feed(records: &mut [u8], message: &mut [u8], fragment: &[u8], reply: &[u8]) -> bool {
    let mut command = [0; 256];
    let mut data_set = [0; 8192];
    let mut report = [0; 20];
    let n = gateway::gateway_feed(
        records,
        message,
        fragment,
        &mut command,
        &mut data_set,
        &mut report,
    );
    if n == 19 {
        return is_response(reply, &command, &data_set, &report);
    }
    is_answer(reply, n)
}

fn feed_line(
    records: &mut [u8],
    message: &mut [u8],
    room: usize,
    line: &[u8],
    at: usize,
    reply: &[u8],
) -> bool
    requires { at ≤ length line.now }
{
    if message.len() < room {
        return false;
    }
    let mut fragment = [0; 65536];
    let n = bytes_of(&line[at..], &mut fragment);
    feed(records, &mut message[0..room], &fragment[0..n], reply)
}

fn take(records: &mut [u8], reply: &[u8]) -> bool {
    let mut entry = [0; records::TAKEN];
    let n = gateway::gateway_take(records, &mut entry);
    if n == 0 {
        return is_entry(reply, &entry);
    }
    is_answer(reply, n)
}

fn close(records: &mut [u8], reply: &[u8]) -> bool {
    is_answer(reply, gateway::gateway_close(records))
}

// The calls that are lent no message buffer. A line that is no call has no reply.
fn call_without_message(records: &mut [u8], line: &[u8], reply: &[u8]) -> bool {
    if let Some(root) = after(line, 0, b"start ") {
        return start(records, line, root, reply);
    }
    if same_bytes(line, b"take") {
        return take(records, reply);
    }
    if same_bytes(line, b"close") {
        return close(records, reply);
    }
    false
}

// Makes the call of a line.
pub fn call(
    records: &mut [u8],
    message: &mut [u8],
    room: usize,
    line: &[u8],
    reply: &[u8],
) -> Outcome {
    if let Some(fragment) = after(line, 0, b"feed ") {
        return came_to(
            feed_line(records, message, room, line, fragment, reply),
            room,
        );
    }
    if let Some(context) = after(line, 0, b"open ") {
        return open(records, message, room, line, context, reply);
    }
    came_to(call_without_message(records, line, reply), room)
}
